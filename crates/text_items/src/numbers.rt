//! Lines of at most `MAX_SIZE` numbers, kept in place.
ghost use Rattle.std.specs.Prelude.{◌≡◌, ◌≤◌, ◌==◌, ◌&&◌, ◌++◌, [], ◌∷◌, ℕ, List, length, nat_lt, IfOk};
ghost use Rattle.arrayvec.specs.ArrayVec.{array_vec_len};
ghost use Rattle.std.specs.List.{list_all};
ghost use Rattle.grid_core.specs.declared.grid.TheConstants.{MAX_SIZE};
ghost use Rattle.text_items.specs.Reading.{Gives};
ghost use Rattle.text_items.specs.NumberLists.{line_numbers};
ghost use Rattle.text_items.specs.Numbers.{numbers_behind, numbers_below, low, Tells, KeepsOrFails, CutsOrFails, are_kept_below};

use crate::fault::TextFault;
use crate::reading::{MAX_NUMBER, word};
use grid_core::{MAX_SIZE, Rows, all_below};
use text_lines::Line;

/// What is kept of the numbers of a line.
#[derive(Drop)]
pub struct Kept {
    /// The first `MAX_SIZE` of them, each cut down to at most 255.
    pub first: Rows,
    /// Whether there are more.
    pub more: bool,
    /// Whether one of them has too many digits.
    pub long: bool,
}

/// All tokens that are left of a line, as numbers.
fn numbers(line: &mut Line) -> Result<Kept, TextFault>
    ensures { KeepsOrFails Tells result (line_numbers line.old) }
{
    let at = line.number();
    let mut kept = no_numbers_kept();
    while let Some(token) = line.next_token() {
        let Some(value) = text_lines::number(token) else {
            return Err(TextFault::Malformed { line: at });
        };
        keep(&mut kept, value);
    }
    Ok(kept)
}

/// What is kept of no numbers.
fn no_numbers_kept() -> Kept
    ensures { Tells result [] }
{
    Kept {
        first: Rows::new(),
        more: false,
        long: false,
    }
}

/// Keeps one number more.
fn keep(kept: &mut Kept, value: u32)
    ensures { (values : List ℕ) → Tells kept.old values → Tells kept.new (values ++ value ∷ []) }
{
    kept.long = kept.long || value > MAX_NUMBER;
    if kept.first.is_full() {
        kept.more = true;
    } else {
        kept.first.push(low(value));
    }
}

/// The number, or 255 where it is larger.
pub(crate) fn low(value: u32) -> u8
    ensures { result ≡ low value }
{
    if value < 255 { value as u8 } else { 255 }
}

/// A word and at most `MAX_SIZE` numbers, each cut down to at most 255. Otherwise the fault of the line.
#[tactic(auto, unfolding(crate::specs::Numbers::numbers_behind))]
pub fn numbers_behind(expected: &[u8], line: &mut Line) -> Result<Rows, TextFault>
    ensures { CutsOrFails result (numbers_behind expected.now line.old) }
{
    word(line, expected)?;
    let at = line.number();
    let kept = numbers(line)?;
    if kept.more || kept.long {
        return Err(TextFault::Limit { line: at });
    }
    Ok(kept.first)
}

/// `width` numbers below the order, which is at most 255, in place. `number_row` of `rows` gives them on the heap, however many.
#[tactic(auto, unfolding(crate::specs::Numbers::numbers_below))]
pub fn numbers_below(width: u8, order: u8, line: &mut Line) -> Result<Rows, TextFault>
    requires { width ≤ MAX_SIZE }
    ensures numbers { Gives (λ r. r.items) result (numbers_below width order line.old) }
    ensures len { IfOk result (λ r. array_vec_len r ≡ width) }
{
    let at = line.number();
    let kept = numbers(line)?;
    if kept.long {
        return Err(TextFault::Limit { line: at });
    }
    if !are_below(&kept, width, order) {
        return Err(TextFault::Malformed { line: at });
    }
    Ok(kept.first)
}

/// Whether so many numbers were kept, all of them below the order.
fn are_below(kept: &Kept, width: u8, order: u8) -> bool
    ensures { result ≡ are_kept_below kept.now width order }
{
    !kept.more && is_row(kept.first.as_slice(), width, order)
}

/// Whether a row has so many numbers, all of them below a bound.
pub(crate) fn is_row(row: &[u8], width: u8, bound: u8) -> bool
    ensures { result ≡ ((length row.now == width) && list_all (λ v. nat_lt v bound) row.now) }
{
    row.len() == width as usize && all_below(row, bound)
}
