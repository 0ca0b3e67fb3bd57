// The columns that cover a row.

ghost use Rattle.std.specs.Prelude.{◌≡◌, ℕ, ◌+◌, ◌-◌, ◌%◌, ◌<◌, ◌≤◌, length};
ghost use Rattle.lane_spans.specs.Columns.{lane_covers, has_bit};
ghost use Rattle.lane_spans.specs.Partial.{mask_of};

use crate::{eight, sixteen};

/// The mask of the columns whose spans hold the row strictly inside: bit c is set exactly where
/// `lo[c] < row < hi[c]`, and no bit is set at the number of columns or above.
///
/// `lo[c]` and `hi[c]` are the rows of the lower and the higher mark of column c. There may be no
/// column at all; then no bit is set.
pub fn covering_mask(lo: &[u8], hi: &[u8], row: u8) -> u64
    requires same { length lo.now ≡ length hi.now }
    requires most { length lo.now ≤ 64 }
    ensures bits { (c : ℕ) → has_bit result c ≡ lane_covers lo.now hi.now row c }
{
    let mut at = lo.len() - lo.len() % 16;
    let mut mask = covering_rest(lo, hi, row, at);
    while at > 0 {
        at -= 16;
        mask = sixteen::covering_block(lo, hi, row, at) + 65536 * mask;
    }
    mask
}

// The mask of the columns from `at` on, fewer than sixteen: eight by lanes where there are so many, the others one by one.
fn covering_rest(lo: &[u8], hi: &[u8], row: u8, at: usize) -> u64
    requires same { length lo.now ≡ length hi.now }
    requires begins { at ≤ length lo.now }
    requires few { length lo.now < at + 16 }
    ensures { result ≡ mask_of (lane_covers lo.now hi.now row) at (length lo.now - at) }
{
    if lo.len() - at < 8 {
        covering_one_by_one(lo, hi, row, at)
    } else {
        eight::covering_block(lo, hi, row, at) + 256 * covering_one_by_one(lo, hi, row, at + 8)
    }
}

// The mask of the columns from `from` on, fewer than eight.
fn covering_one_by_one(lo: &[u8], hi: &[u8], row: u8, from: usize) -> u64
    requires same { length lo.now ≡ length hi.now }
    requires begins { from ≤ length lo.now }
    requires few { length lo.now < from + 8 }
    ensures { result ≡ mask_of (lane_covers lo.now hi.now row) from (length lo.now - from) }
{
    let mut at = lo.len();
    let mut mask = 0u64;
    while at > from {
        at -= 1;
        mask = u64::from(is_covering(lo, hi, row, at)) + 2 * mask;
    }
    mask
}

// Column c covers the row.
fn is_covering(lo: &[u8], hi: &[u8], row: u8, c: usize) -> bool
    requires same { length lo.now ≡ length hi.now }
    requires column { c < length lo.now }
    ensures { result ≡ lane_covers lo.now hi.now row c }
{
    lo[c] < row && row < hi[c]
}
