// The kernels over sixteen columns at once.

ghost use Rattle.std.specs.Prelude.{◌≡◌, ◌+◌, ◌<◌, ◌≤◌, length};
ghost use Rattle.lane_spans.specs.Columns.{lane_covers, trades, AreSpans};
ghost use Rattle.lane_spans.specs.Partial.{mask_of};

use std::simd::prelude::*;

/// The mask of the sixteen columns from `at` on that cover the row, the first of them at bit 0.
pub fn covering_block(lo: &[u8], hi: &[u8], row: u8, at: usize) -> u64
    requires same { length lo.now ≡ length hi.now }
    requires inside { at + 16 ≤ length lo.now }
    ensures { result ≡ mask_of (lane_covers lo.now hi.now row) at 16 }
{
    let lows = u8x16::from_slice(&lo[at..]);
    let highs = u8x16::from_slice(&hi[at..]);
    let rows = u8x16::splat(row);
    (lows.simd_lt(rows) & rows.simd_lt(highs)).to_bitmask()
}

/// The mask of the sixteen columns from `at` on that may trade places with their neighbours, which are
/// the columns after them, the first of the sixteen at bit 0.
pub fn exchange_block(lo: &[u8], hi: &[u8], at: usize) -> u64
    requires same { length lo.now ≡ length hi.now }
    requires inside { at + 16 < length lo.now }
    requires spans { AreSpans lo.now hi.now }
    ensures { result ≡ mask_of (trades lo.now hi.now) at 16 }
{
    let (lows, highs) = (u8x16::from_slice(&lo[at..]), u8x16::from_slice(&hi[at..]));
    let next_lows = u8x16::from_slice(&lo[at + 1..]);
    let next_highs = u8x16::from_slice(&hi[at + 1..]);
    let disjoint = highs.simd_lt(next_lows) | next_highs.simd_lt(lows);
    let round = lows.simd_lt(next_lows) & next_highs.simd_lt(highs);
    let inside = next_lows.simd_lt(lows) & highs.simd_lt(next_highs);
    (disjoint | (round | inside)).to_bitmask()
}
