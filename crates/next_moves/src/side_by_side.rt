//! Neighbours on the circle of columns, or of rows.
ghost use Rattle.std.specs.Prelude.{◌≡◌, ◌<◌, ◌≤◌, ◌+◌, ◌-◌};
ghost use Rattle.next_moves.specs.Tries.{shift_before, place_after_shift};
ghost use Rattle.next_moves.specs.Blocks.{first_of_pair};
ghost use Rattle.grid_canon.specs.ShortTrades.{next};

/// The next number, round the circle of as many as the size.
pub(crate) fn next(c: u8, size: u8) -> u8
    requires { c < size }
    ensures next { result ≡ next size c }
    ensures inside { result < size }
{
    if c + 1 == size { 0 } else { c + 1 }
}

/// The shift that brings c and the next number, round the circle, side by side: none but for the last, which is then one lower.
pub(crate) fn shift_before(c: u8, size: u8) -> u8
    requires least { 2 ≤ size }
    requires inside { c < size }
    ensures shift { result ≡ shift_before size c }
    ensures one { result ≤ 1 }
    ensures low { result ≤ c }
    ensures place { c - result ≡ place_after_shift size c }
    ensures inside { c - result + 1 < size }
{
    if c + 1 == size { 1 } else { 0 }
}

/// The first of two numbers that are neighbours on the circle of as many as the size, or the size where they are none.
pub(crate) fn first_of_pair(x: u8, o: u8, size: u8) -> u8
    requires first { x < size }
    requires second { o < size }
    ensures { result ≡ first_of_pair size x o }
{
    if next(x, size) == o {
        x
    } else if next(o, size) == x {
        o
    } else {
        size
    }
}
