//! Moves, a line each, and the item of several.
ghost use Rattle.std.specs.Prelude.{◌≡◌, None};
ghost use Rattle.text_items.specs.Reading.{Gives};
ghost use Rattle.verdict_text.specs.Moves.{last_place, shift, exchange, slide, kind_at, corner_at, stabilise, destabilise};
ghost use Rattle.verdict_text.specs.Moves.{move_at, next_move, move_lines, tidy_move_at, tidy_move, tidy_moves, moves_item};

use grid_core::{Corner, Kind};
use grid_moves::{Move, may_follow};
use std::alloc::Global;
use text_items::TextFault;
use text_items::reading::{
    last_count, last_number, line_end, next_line, next_token, number, place, word,
};
use text_lines::{Line, Lines};

/// The one place of a move that ends its line. Otherwise the fault of the line.
#[tactic(auto, unfolding(crate::specs::Moves::last_place))]
pub fn last_place(line: &mut Line) -> Result<u8, TextFault>
    ensures { Gives (λ n. n) result (last_place line.old) }
{
    let value = last_number(line)?;
    place(line, value)
}

/// The fault of a line that has not the form of what is due there.
pub(crate) fn malformed(line: &Line) -> TextFault
    ensures { result ≡ TextFault.Malformed line.now.number }
{
    TextFault::Malformed {
        line: line.number(),
    }
}

/// Columns or rows, after `shift`.
#[tactic(auto, unfolding(crate::specs::Moves::shift))]
fn shift(line: &mut Line) -> Result<Move, TextFault>
    ensures { Gives (λ m. m) result (shift line.old) }
{
    let axis = next_token(line)?;
    if axis == b"columns".as_slice() {
        Ok(Move::ShiftColumns(last_place(line)?))
    } else if axis == b"rows".as_slice() {
        Ok(Move::ShiftRows(last_place(line)?))
    } else {
        Err(malformed(line))
    }
}

/// Columns or rows, after `exchange`.
#[tactic(auto, unfolding(crate::specs::Moves::exchange))]
fn exchange(line: &mut Line) -> Result<Move, TextFault>
    ensures { Gives (λ m. m) result (exchange line.old) }
{
    let axis = next_token(line)?;
    if axis == b"columns".as_slice() {
        Ok(Move::ExchangeColumns(last_place(line)?))
    } else if axis == b"rows".as_slice() {
        Ok(Move::ExchangeRows(last_place(line)?))
    } else {
        Err(malformed(line))
    }
}

/// Columns or rows, after `slide`.
#[tactic(auto, unfolding(crate::specs::Moves::slide))]
fn slide(line: &mut Line) -> Result<Move, TextFault>
    ensures { Gives (λ m. m) result (slide line.old) }
{
    let axis = next_token(line)?;
    if axis == b"columns".as_slice() {
        Ok(Move::SlideColumns(last_place(line)?))
    } else if axis == b"rows".as_slice() {
        Ok(Move::SlideRows(last_place(line)?))
    } else {
        Err(malformed(line))
    }
}

/// The kind of a mark.
#[tactic(auto, unfolding(crate::specs::Moves::kind_at))]
fn kind_at(line: &mut Line) -> Result<Kind, TextFault>
    ensures { Gives (λ k. (k, line.new)) result (kind_at line.old) }
{
    let name = next_token(line)?;
    if name == b"x".as_slice() {
        Ok(Kind::Cross)
    } else if name == b"o".as_slice() {
        Ok(Kind::Ring)
    } else {
        Err(malformed(line))
    }
}

/// A corner of a block.
#[tactic(auto, unfolding(crate::specs::Moves::corner_at))]
fn corner_at(line: &mut Line) -> Result<Corner, TextFault>
    ensures { Gives (λ k. (k, line.new)) result (corner_at line.old) }
{
    let name = next_token(line)?;
    if name == b"lowleft".as_slice() {
        Ok(Corner::LowLeft)
    } else if name == b"lowright".as_slice() {
        Ok(Corner::LowRight)
    } else if name == b"highleft".as_slice() {
        Ok(Corner::HighLeft)
    } else if name == b"highright".as_slice() {
        Ok(Corner::HighRight)
    } else {
        Err(malformed(line))
    }
}

/// A column, a kind of mark and a corner, after `stabilise`.
#[tactic(auto, unfolding(crate::specs::Moves::stabilise))]
fn stabilise(line: &mut Line) -> Result<Move, TextFault>
    ensures { Gives (λ m. m) result (stabilise line.old) }
{
    let column = number(line)?;
    let kind = kind_at(line)?;
    let corner = corner_at(line)?;
    line_end(line)?;
    Ok(Move::Stabilise {
        column: place(line, column)?,
        kind,
        corner,
    })
}

/// A column and a row, after `destabilise`.
#[tactic(auto, unfolding(crate::specs::Moves::destabilise))]
fn destabilise(line: &mut Line) -> Result<Move, TextFault>
    ensures { Gives (λ m. m) result (destabilise line.old) }
{
    let column = number(line)?;
    let row = last_number(line)?;
    Ok(Move::Destabilise {
        column: place(line, column)?,
        row: place(line, row)?,
    })
}

/// A move line.
#[tactic(auto, unfolding(crate::specs::Moves::move_at))]
fn move_at(line: &mut Line) -> Result<Move, TextFault>
    ensures { Gives (λ m. m) result (move_at line.old) }
{
    let name = next_token(line)?;
    if name == b"shift".as_slice() {
        shift(line)
    } else if name == b"exchange".as_slice() {
        exchange(line)
    } else if name == b"slide".as_slice() {
        slide(line)
    } else if name == b"stabilise".as_slice() {
        stabilise(line)
    } else if name == b"destabilise".as_slice() {
        destabilise(line)
    } else {
        Err(malformed(line))
    }
}

/// The next move line.
#[tactic(auto, unfolding(crate::specs::Moves::next_move))]
fn next_move(lines: &mut Lines) -> Result<Move, TextFault>
    ensures { Gives (λ m. (m, lines.new)) result (next_move lines.old) }
{
    let mut line = next_line(lines)?;
    move_at(&mut line)
}

/// `count` moves, a line each. Otherwise the fault of the first bad line, or `OutOfMemory`.
pub fn move_lines(alloc: Global, count: u32, lines: &mut Lines) -> Result<Vec<Move>, TextFault>
    ensures { Gives (λ v. (v.items, lines.new)) result (move_lines count lines.old) }
{
    let mut moves = Vec::new(alloc);
    for _ in 0..count {
        moves.push(next_move(lines)?)?;
    }
    Ok(moves)
}

/// A move of a tidy list, which may follow on the move before it.
#[tactic(auto, unfolding(crate::specs::Moves::tidy_move_at))]
fn tidy_move_at(before: Option<Move>, line: &mut Line) -> Result<Move, TextFault>
    ensures { Gives (λ m. m) result (tidy_move_at before line.old) }
{
    let number = line.number();
    let step = move_at(line)?;
    if may_follow(before, step) {
        Ok(step)
    } else {
        Err(TextFault::Malformed { line: number })
    }
}

/// The next move of a tidy list.
#[tactic(auto, unfolding(crate::specs::Moves::tidy_move))]
fn tidy_move(before: Option<Move>, lines: &mut Lines) -> Result<Move, TextFault>
    ensures { Gives (λ m. (m, lines.new)) result (tidy_move before lines.old) }
{
    let mut line = next_line(lines)?;
    tidy_move_at(before, &mut line)
}

/// `count` moves of a tidy list, a line each. Otherwise the fault of the first bad line, or `OutOfMemory`.
pub fn tidy_moves(alloc: Global, count: u32, lines: &mut Lines) -> Result<Vec<Move>, TextFault>
    ensures { Gives (λ v. (v.items, lines.new)) result (tidy_moves None count lines.old) }
{
    let mut moves = Vec::new(alloc);
    let mut before = None;
    for _ in 0..count {
        let step = tidy_move(before, lines)?;
        moves.push(step)?;
        before = Some(step);
    }
    Ok(moves)
}

/// The item `moves`: their number, and as many moves. Otherwise the fault of the first bad line, or `OutOfMemory`.
#[tactic(auto, unfolding(crate::specs::Moves::moves_item))]
pub fn moves_item(alloc: Global, lines: &mut Lines) -> Result<Vec<Move>, TextFault>
    ensures { Gives (λ v. (v.items, lines.new)) result (moves_item lines.old) }
{
    let mut line = next_line(lines)?;
    word(&mut line, b"moves")?;
    let count = last_count(&mut line)?;
    move_lines(alloc, count, lines)
}
