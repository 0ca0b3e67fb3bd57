// Laws of spans, over the definitions.

ghost use Rattle.std.specs.Prelude.{◌≡◌, ◌<◌, true, not};
ghost use Rattle.lane_spans.specs.Span.{Span, four_different_ends, may_trade_places, interleaved};

/// Two spans with four different ends either may trade places or are interleaved, and never both.
pub fn trade_or_interleave()
    ensures { (a b : Span) → a.low < a.high → b.low < b.high → four_different_ends a b ≡ true
        → may_trade_places a b ≡ not (interleaved a b) }
{}
