// The columns that may trade places with their neighbour.

ghost use Rattle.std.specs.Prelude.{◌≡◌, ℕ, ◌+◌, ◌-◌, ◌%◌, ◌<◌, ◌≤◌, length};
ghost use Rattle.lane_spans.specs.Columns.{trades, has_bit, neighbour_column, AreSpans};
ghost use Rattle.lane_spans.specs.Partial.{mask_of};

use crate::{eight, sixteen};

/// The mask of the columns that may trade places with their neighbour on the circle: bit c is set
/// exactly where, with `d = (c + 1) % n`, the four ends `lo[c]`, `hi[c]`, `lo[d]`, `hi[d]` are four
/// different rows and the spans of c and d are disjoint or strictly nested. No bit is set at the
/// number of columns n or above.
///
/// `lo[c]` and `hi[c]` are the rows of the lower and the higher mark of column c. There may be no
/// column at all; then no bit is set. A single column is its own neighbour, and has no bit either.
pub fn exchange_mask(lo: &[u8], hi: &[u8]) -> u64
    requires same { length lo.now ≡ length hi.now }
    requires most { length lo.now ≤ 64 }
    requires spans { AreSpans lo.now hi.now }
    ensures bits { (c : ℕ) → has_bit result c ≡ trades lo.now hi.now c }
{
    if lo.is_empty() {
        return 0;
    }
    let mut at = lo.len() - 1 - (lo.len() - 1) % 16;
    let mut mask = exchange_rest(lo, hi, at);
    while at > 0 {
        at -= 16;
        mask = sixteen::exchange_block(lo, hi, at) + 65536 * mask;
    }
    mask
}

// The mask of the columns from `at` on, at most sixteen with the last one: eight by lanes where there are so many before the last, the others one by one.
fn exchange_rest(lo: &[u8], hi: &[u8], at: usize) -> u64
    requires same { length lo.now ≡ length hi.now }
    requires begins { at < length lo.now }
    requires few { length lo.now ≤ at + 16 }
    requires spans { AreSpans lo.now hi.now }
    ensures { result ≡ mask_of (trades lo.now hi.now) at (length lo.now - at) }
{
    if lo.len() - at <= 8 {
        exchange_one_by_one(lo, hi, at)
    } else {
        eight::exchange_block(lo, hi, at) + 256 * exchange_one_by_one(lo, hi, at + 8)
    }
}

// The mask of the columns from `from` on, at most eight.
fn exchange_one_by_one(lo: &[u8], hi: &[u8], from: usize) -> u64
    requires same { length lo.now ≡ length hi.now }
    requires begins { from < length lo.now }
    requires few { length lo.now ≤ from + 8 }
    requires spans { AreSpans lo.now hi.now }
    ensures { result ≡ mask_of (trades lo.now hi.now) from (length lo.now - from) }
{
    let mut at = lo.len();
    let mut mask = 0u64;
    while at > from {
        at -= 1;
        mask = u64::from(may_trade(lo, hi, at)) + 2 * mask;
    }
    mask
}

// Column c may trade places with its neighbour. Where a span lies strictly below, above, inside or round the other, their four ends are different ones.
fn may_trade(lo: &[u8], hi: &[u8], c: usize) -> bool
    requires same { length lo.now ≡ length hi.now }
    requires column { c < length lo.now }
    requires spans { AreSpans lo.now hi.now }
    ensures { result ≡ trades lo.now hi.now c }
{
    let next = neighbour(c, lo.len());
    let (low, high) = (lo[c], hi[c]);
    let (next_low, next_high) = (lo[next], hi[next]);
    high < next_low
        || next_high < low
        || (low < next_low && next_high < high)
        || (next_low < low && high < next_high)
}

// The neighbour of column c of n columns on a circle.
fn neighbour(c: usize, n: usize) -> usize
    requires { c < n }
    ensures { result ≡ neighbour_column n c }
{
    if c + 1 == n { 0 } else { c + 1 }
}
