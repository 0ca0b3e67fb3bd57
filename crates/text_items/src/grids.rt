//! Grids, by two lines.
ghost use Rattle.std.specs.Prelude.{◌≡◌, ◌≤◌, length};
ghost use Rattle.grid_core.specs.declared.grid.TheConstants.{MAX_SIZE};
ghost use Rattle.std.specs.List.{list_any, range_with_len};
ghost use Rattle.grid_core.specs.Fault.{is_repeated};
ghost use Rattle.text_items.specs.Reading.{Gives};
ghost use Rattle.text_items.specs.Grids.{are_rows, x_at, o_at, grid_item};

use crate::fault::TextFault;
use crate::numbers::numbers_behind;
use crate::reading::next_line;
use grid_core::{Grid, Rows, all_below, is_repeated};
use text_lines::{Line, Lines};

/// The line of the Xs of a grid: two or more numbers, each of 0 to n-1 once.
#[tactic(auto, unfolding(crate::specs::Grids::x_at))]
fn x_at(line: &mut Line) -> Result<Rows, TextFault>
    ensures { Gives (λ r. r.items) result (x_at line.old) }
{
    let at = line.number();
    let rows = numbers_behind(b"x", line)?;
    if !are_rows(rows.as_slice()) {
        return Err(TextFault::Malformed { line: at });
    }
    Ok(rows)
}

/// The line of the Os of a grid: numbers that make a grid with those of the line before.
#[tactic(auto, unfolding(crate::specs::Grids::o_at))]
fn o_at(x: &Rows, line: &mut Line) -> Result<Grid, TextFault>
    ensures { Gives (λ g. g) result (o_at x.now.items line.old) }
{
    let at = line.number();
    let rows = numbers_behind(b"o", line)?;
    if !all_below(rows.as_slice(), x.len() as u8) {
        return Err(TextFault::Malformed { line: at });
    }
    match Grid::new(x.as_slice(), rows.as_slice()) {
        Ok(grid) => Ok(grid),
        Err(_) => Err(TextFault::Malformed { line: at }),
    }
}

/// The two lines of a grid. Otherwise the fault of the first bad one.
#[tactic(auto, unfolding(crate::specs::Grids::grid_item))]
pub fn grid_item(lines: &mut Lines) -> Result<Grid, TextFault>
    ensures { Gives (λ g. (g, lines.new)) result (grid_item lines.old) }
{
    let mut first = next_line(lines)?;
    let x = x_at(&mut first)?;
    let mut second = next_line(lines)?;
    o_at(&x, &mut second)
}

/// Whether there are two or more numbers, and each of the n numbers is below n, and none occurs twice.
fn are_rows(rows: &[u8]) -> bool
    requires { length rows.now ≤ MAX_SIZE }
    ensures { result ≡ are_rows rows.now }
{
    2 <= rows.len() && all_below(rows, rows.len() as u8) && !has_repeat(rows)
}

/// Whether some number is at an earlier place too.
fn has_repeat(rows: &[u8]) -> bool
    ensures { result ≡ list_any (λ c. is_repeated rows.now c) (range_with_len 0 (length rows.now)) }
{
    for c in 0..rows.len() {
        if is_repeated(rows, c) {
            return true;
        }
    }
    false
}
