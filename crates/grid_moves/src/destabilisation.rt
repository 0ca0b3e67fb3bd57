//! Destabilisation: the row of a block that holds two marks is taken out, and with it a column for each kind.
ghost use Rattle.std.specs.Prelude.{◌≡◌, ◌<◌, ◌≤◌, ◌+◌, ◌++◌, IfOk, OnOk, OnErr, map, length};
ghost use Rattle.std.specs.List.{remove};
ghost use Rattle.std.specs.Result.{result_err};
ghost use Rattle.grid_core.specs.declared.grid.TheConstants.{MAX_SIZE};
ghost use Rattle.grid_core.specs.declared.mark.Kind.TheVariants.{Cross, Ring};
ghost use Rattle.grid_core.specs.Diagram.{HasMark, size, rows_of};
ghost use Rattle.grid_core.specs.Places.{lowered};
ghost use Rattle.grid_moves.specs.Destabilisation.{marks_in_block};
ghost use Rattle.grid_moves.specs.BlockMarks.{is_block_row, block_kind, corner_is_right, corner_on, block_corner};
ghost use Rattle.grid_moves.specs.Narrowing.{narrowed};
ghost use Rattle.grid_moves.specs.DoubleRows.{double_row, column_in_double_row};
ghost use Rattle.grid_moves.specs.Step.{Step};
ghost use Rattle.grid_moves.specs.MoveFault.{first_move_fault};

use crate::step::{Move, MoveFault};
use arrayvec::ArrayVec;
use grid_core::{Corner, Grid, Kind, Rows};

/// Makes a grid the one of which a stabilisation makes the block at a column and a row.
pub(crate) fn destabilise(grid: &mut Grid, column: u8, row: u8) -> Result<(), MoveFault>
    ensures fault { result_err result ≡ first_move_fault grid.old (Move.Destabilise column row) }
    ensures moved { OnOk result (Step grid.old (Move.Destabilise column row) grid.new) }
    ensures kept { OnErr result (grid.new ≡ grid.old) }
{
    let narrowing = narrowing_of(grid, column, row)?;
    let crosses = narrowed(grid, Kind::Cross, narrowing.crosses, narrowing.row);
    let rings = narrowed(grid, Kind::Ring, narrowing.rings, narrowing.row);
    grid.set_rows(crosses, rings);
    Ok(())
}

/// What a destabilisation takes out of a grid of size n: one row, and of the marks of each kind the column whose mark is in that row.
#[derive(Clone, Copy, PartialEq, Eq)]
pub struct Narrowing {
    /// The row, from 0 to n - 1.
    pub row: u8,
    /// The column of its X, from 0 to n - 1.
    pub crosses: u8,
    /// The column of its O, from 0 to n - 1.
    pub rings: u8,
}

/// What the destabilisation at a column and a row takes out of a grid, or the fault for which `apply` refuses it: `Range` where the column
/// or the row is the last one or beyond, else `Block` with the number of marks in the block, where that isn't three.
pub fn narrowing_of(grid: &Grid, column: u8, row: u8) -> Result<Narrowing, MoveFault>
    ensures fault { result_err result ≡ first_move_fault grid.now (Move.Destabilise column row) }
    ensures step { IfOk result (λ n. Step grid.now (Move.Destabilise column row) (narrowed n grid.now)) }
    ensures row { IfOk result (λ n. n.row < size grid.now) }
    ensures crosses { IfOk result (λ n. HasMark grid.now Cross n.crosses n.row) }
    ensures rings { IfOk result (λ n. HasMark grid.now Ring n.rings n.row) }
{
    let last = grid.size() - 1;
    if column >= last || row >= last {
        return Err(MoveFault::Range);
    }
    let marks = marks_in_block(grid, column, row);
    if marks != 3 {
        return Err(MoveFault::Block { marks });
    }
    Ok(Narrowing {
        row: double_row(grid, column),
        crosses: column_in_double_row(grid, column, Kind::Cross),
        rings: column_in_double_row(grid, column, Kind::Ring),
    })
}

/// How many of the four marks of two neighbouring columns lie in two neighbouring rows.
fn marks_in_block(grid: &Grid, column: u8, row: u8) -> u8
    requires columns { column + 1 < size grid.now }
    requires rows { row + 1 < size grid.now }
    ensures { result ≡ marks_in_block grid.now column row }
{
    let _size = grid.size();
    let low_x = u8::from(is_block_row(grid.row_of(Kind::Cross, column), row));
    let low_o = u8::from(is_block_row(grid.row_of(Kind::Ring, column), row));
    let high_x = u8::from(is_block_row(grid.row_of(Kind::Cross, column + 1), row));
    let high_o = u8::from(is_block_row(grid.row_of(Kind::Ring, column + 1), row));
    low_x + low_o + high_x + high_o
}

/// Whether a row is the given one or the next.
fn is_block_row(mark: u8, row: u8) -> bool
    requires { row < 255 }
    ensures { result ≡ is_block_row row mark }
{
    mark == row || mark == row + 1
}

/// Of a block at a column, the row with two marks.
fn double_row(grid: &Grid, column: u8) -> u8
    requires { column + 1 < size grid.now }
    ensures row { result ≡ double_row grid.now column }
    ensures inside { result < size grid.now }
{
    let _size = grid.size();
    let cross = grid.row_of(Kind::Cross, column);
    if cross == grid.row_of(Kind::Ring, column + 1) {
        cross
    } else {
        grid.row_of(Kind::Ring, column)
    }
}

/// Of a block at a column, the column of the mark of a kind in the row with two marks.
fn column_in_double_row(grid: &Grid, column: u8, kind: Kind) -> u8
    requires { column + 1 < size grid.now }
    ensures place { result ≡ column_in_double_row grid.now column kind }
    ensures inside { result < size grid.now }
{
    let _size = grid.size();
    let is_left = grid.row_of(Kind::Cross, column) == grid.row_of(Kind::Ring, column + 1);
    match kind {
        Kind::Cross => { if is_left { column } else { column + 1 } }
        Kind::Ring => { if is_left { column + 1 } else { column } }
    }
}

/// The rows of a kind, without that of a column, and those above a row one lower.
#[tactic(auto, using(crate::proofs::TakenOut::halves))]
fn narrowed(grid: &Grid, kind: Kind, place: u8, row: u8) -> Rows
    requires { place < size grid.now }
    ensures { result.items ≡ map (lowered row) (remove (rows_of kind grid.now) place) }
{
    let _size = grid.size();
    let (left, rest) = grid.rows(kind).split_at(place as usize);
    let (_, right) = rest.split_at(1);
    let mut rows = ArrayVec::new();
    push_lowered(&mut rows, left, row);
    push_lowered(&mut rows, right, row);
    rows
}

/// Appends some rows, those above a row one lower.
fn push_lowered(rows: &mut Rows, more: &[u8], row: u8)
    requires { length rows.old.items + length more.now ≤ MAX_SIZE }
    ensures { rows.new.items ≡ rows.old.items ++ map (lowered row) more.now }
{
    for r in more {
        rows.push(if row < *r { *r - 1 } else { *r });
    }
}

/// Of a block of three marks, the kind of two of them.
pub(crate) fn block_kind(grid: &Grid, column: u8, row: u8) -> Kind
    requires columns { column + 1 < size grid.now }
    requires rows { row + 1 < size grid.now }
    ensures { result ≡ block_kind grid.now column row }
{
    let _size = grid.size();
    if is_block_row(grid.row_of(Kind::Ring, column), row)
        && is_block_row(grid.row_of(Kind::Ring, column + 1), row)
    {
        Kind::Ring
    } else {
        Kind::Cross
    }
}

/// Of a block of three marks, the corner opposite the empty cell.
pub(crate) fn block_corner(grid: &Grid, column: u8, row: u8) -> Corner
    requires columns { column + 1 < size grid.now }
    requires rows { row + 1 < size grid.now }
    ensures { result ≡ block_corner grid.now column row }
{
    let _size = grid.size();
    let right = corner_is_right(grid, column, row);
    let kind = block_kind(grid, column, row);
    let own = grid.row_of(kind, if right { column + 1 } else { column });
    corner_on(right, own == row)
}

/// Whether the right column of a block holds two of its three marks.
fn corner_is_right(grid: &Grid, column: u8, row: u8) -> bool
    requires columns { column + 1 < size grid.now }
    requires rows { row + 1 < size grid.now }
    ensures { result ≡ corner_is_right grid.now column row }
{
    let _size = grid.size();
    !(is_block_row(grid.row_of(Kind::Cross, column), row)
        && is_block_row(grid.row_of(Kind::Ring, column), row))
}

/// The corner on a side, above or below.
fn corner_on(right: bool, above: bool) -> Corner
    ensures { result ≡ corner_on right above }
{
    if right {
        if above {
            Corner::HighRight
        } else {
            Corner::LowRight
        }
    } else if above {
        Corner::HighLeft
    } else {
        Corner::LowLeft
    }
}
