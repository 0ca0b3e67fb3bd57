//! Crossings and their signs.
ghost use Rattle.std.specs.Prelude.{◌≡◌, ◌<◌};
ghost use Rattle.grid_core.specs.Diagram.{size};
ghost use Rattle.grid_core.specs.Crossing.{crosses, sign};

use crate::grid::Grid;

impl Grid {
    /// Whether a column passes over a row: it covers the row, and lies strictly between the row's ends.
    pub fn crosses(&self, c: u8, r: u8) -> bool
        requires column { c < size self.now }
        requires row { r < size self.now }
        ensures { result ≡ crosses self.now c r }
    {
        let ends = self.row_span(r);
        self.covers(c, r) && ends.low < c && c < ends.high
    }

    /// The sign, 1 or -1, of the crossing of a column over a row: that of `ox * uy - oy * ux`, for the direction `(ox, oy)` of the column and `(ux,
    /// uy)` of the row.
    ///
    /// Whether the column does cross the row isn't checked.
    pub fn sign(&self, c: u8, r: u8) -> i32
        requires column { c < size self.now }
        requires row { r < size self.now }
        ensures { result ≡ sign self.now c r }
    {
        if self.is_up(c) == self.is_rightward(r) {
            -1
        } else {
            1
        }
    }
}
