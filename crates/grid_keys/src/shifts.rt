//! The shifts of a translate, written as moves.
ghost use Rattle.std.specs.Prelude.{◌≡◌, ◌++◌, reverse, IfOk, OnErr};
ghost use Rattle.grid_moves.specs.PutsPart.{PutsPart};
ghost use Rattle.grid_keys.specs.Shifts.{needed_column_shift, needed_row_shift, shift_moves};

use grid_moves::Move;
use memory_core::OutOfMemory;

/// Puts the shift of columns and that of rows at the end of a list, but no shift by 0. If there is no memory for both,
/// the list may have got the first of them, and nothing else.
#[tactic(auto, using(grid_moves::proofs::PutParts::on_err, crate::proofs::PutShifts::shifts_ahead, crate::proofs::PutShifts::shifts_last))]
pub fn push_shifts(list: &mut Vec<Move>, columns: u8, rows: u8) -> Result<(), OutOfMemory>
    ensures list { IfOk result (λ _. list.new.items ≡ list.old.items ++ shift_moves columns rows) }
    ensures part { OnErr result (PutsPart list.old.items list.new.items (shift_moves columns rows)) }
{
    push_columns(list, columns)?;
    push_rows(list, rows)
}

/// Puts the same shifts at the end of a list, the last one first. If there is no memory for both, the list may have got
/// the one put first, and nothing else.
#[tactic(auto, using(grid_moves::proofs::PutParts::on_err, crate::proofs::PutShifts::back_ahead, crate::proofs::PutShifts::back_last))]
pub fn push_shifts_back(list: &mut Vec<Move>, columns: u8, rows: u8) -> Result<(), OutOfMemory>
    ensures list { IfOk result (λ _. list.new.items ≡ list.old.items ++ reverse (shift_moves columns rows)) }
    ensures part { OnErr result (PutsPart list.old.items list.new.items (reverse (shift_moves columns rows))) }
{
    push_rows(list, rows)?;
    push_columns(list, columns)
}

/// Puts the shift of columns at the end, where it is not by 0.
#[tactic(auto, using(grid_moves::proofs::PutParts::on_err, crate::proofs::PutShifts::no_columns))]
fn push_columns(list: &mut Vec<Move>, columns: u8) -> Result<(), OutOfMemory>
    ensures list { IfOk result (λ _. list.new.items ≡ list.old.items ++ needed_column_shift columns) }
    ensures part { OnErr result (PutsPart list.old.items list.new.items (needed_column_shift columns)) }
{
    if columns > 0 {
        list.push(Move::ShiftColumns(columns))?;
    }
    Ok(())
}

/// Puts the shift of rows at the end, where it is not by 0.
#[tactic(auto, using(grid_moves::proofs::PutParts::on_err, crate::proofs::PutShifts::no_rows))]
fn push_rows(list: &mut Vec<Move>, rows: u8) -> Result<(), OutOfMemory>
    ensures list { IfOk result (λ _. list.new.items ≡ list.old.items ++ needed_row_shift rows) }
    ensures part { OnErr result (PutsPart list.old.items list.new.items (needed_row_shift rows)) }
{
    if rows > 0 {
        list.push(Move::ShiftRows(rows))?;
    }
    Ok(())
}
