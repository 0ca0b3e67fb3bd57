//! The trades of neighbouring columns, and of neighbouring rows, of a short grid, all at once.
ghost use Rattle.std.specs.Prelude.{◌≡◌, ◌<◌, ◌≤◌, ◌^◌, false, length, slice_index_or};
ghost use Rattle.std.specs.List.{All};
ghost use Rattle.grid_canon.specs.declared.digits.TheConstants.{MAX_SHORT_SIZE, SHORT_BASE};
ghost use Rattle.grid_canon.specs.Digits.{digits};
ghost use Rattle.grid_canon.specs.ShortTrades.{trades_of, counted_trades, ArePairs, digit_span};

use crate::digits::{below, cut, guards, lowered_each, nth_digit, repeated};
use std::marker::Model;

/// Which columns of a short grid, or which of its rows, may trade places with the next one, round the circle.
#[derive(Drop)]
pub struct ShortTrades {
    size: u32,
    /// The guards of the digits of those that may be exchanged.
    exchanges: u64,
    /// Of those that may slide.
    slides: u64,
}

impl Model for ShortTrades {
    ghost use Rattle.grid_canon.specs.ShortTrades.{Trades, trades_where, is_marked, AreMasks};

    ghost Value = { Trades };

    ghost view = { λ t. trades_where t.size (is_marked t.size t.exchanges) (is_marked t.size t.slides) };

    ghost invariant = { λ t. AreMasks t.size t.exchanges t.slides };
}

impl ShortTrades {
    /// Whether number c, below the number of columns or rows, may be exchanged with the next one; for the last, whether it may be with the first
    /// after a shift by 1.
    pub fn may_exchange(&self, c: u8) -> bool
        requires { c < length self.now.exchange }
        ensures { result ≡ slice_index_or self.now.exchange c false }
    {
        nth_digit(self.exchanges, u32::from(c), self.size) != 0
    }

    /// Whether number c slides with the next one, likewise.
    pub fn may_slide(&self, c: u8) -> bool
        requires { c < length self.now.slide }
        ensures { result ≡ slice_index_or self.now.slide c false }
    {
        nth_digit(self.slides, u32::from(c), self.size) != 0
    }
}

/// The trades of the spans between the digits of two numbers: the other end of each, and both ends of the next one, are counted from its
/// first end, round the circle.
pub(crate) fn trades_of(crosses: u64, rings: u64, size: u32) -> ShortTrades
    requires { ArePairs size crosses rings }
    ensures { result ≡ trades_of size (digit_span size crosses rings) }
{
    let end = lowered_each(rings, crosses, size);
    let cross = lowered_each(cut(crosses, 1, size), crosses, size);
    let ring = lowered_each(cut(rings, 1, size), crosses, size);
    trades_from(end, cross, ring, size)
}

/// The trades by the ends as they are counted from the first one. Two spans that share no end may be exchanged where both ends of the next one
/// come before the other end, or both after it; where exactly one is shared, they slide.
fn trades_from(end: u64, cross: u64, ring: u64, size: u32) -> ShortTrades
    requires most { size ≤ MAX_SHORT_SIZE }
    requires end { end < SHORT_BASE ^ size }
    requires cross { cross < SHORT_BASE ^ size }
    requires ring { ring < SHORT_BASE ^ size }
    requires end_inside { All (λ r. r < size) (digits size end) }
    requires cross_inside { All (λ r. r < size) (digits size cross) }
    requires ring_inside { All (λ r. r < size) (digits size ring) }
    ensures { result ≡ counted_trades size end cross ring }
{
    let guards = guards(size);
    let cross_before = below(cross, end, size);
    let ring_before = below(ring, end, size);
    let cross_at_end = guards ^ (cross_before ^ below(end, cross, size));
    let ring_at_start = below(ring, repeated(1, size), size);
    let interleaved = cross_before ^ ring_before;
    ShortTrades {
        size,
        exchanges: guards ^ (cross_at_end | ring_at_start | interleaved),
        slides: cross_at_end ^ ring_at_start,
    }
}
