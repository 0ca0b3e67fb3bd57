//! One bit of a mask.
ghost use Rattle.std.specs.Prelude.{◌≡◌, ◌<◌};
ghost use Rattle.lane_spans.specs.Columns.{has_bit};

/// Whether bit c of a mask is set.
pub fn has_bit(mask: u64, c: u8) -> bool
    requires { c < 64 }
    ensures { result ≡ has_bit mask c }
{
    (mask >> c) & 1 == 1
}
