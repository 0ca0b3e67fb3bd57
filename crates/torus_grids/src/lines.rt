//! The marks of all columns of a diagram, or of all its rows, and what is asked of neighbours among them: of sixteen at once.
ghost use Rattle.std.specs.Prelude.{◌<◌};
ghost use Rattle.torus_grids.specs.declared.lines.TheConstants.{PLACES};

use grid_core::Kind;
use grid_keys::BASE;
use std::simd::prelude::*;

/// More than there are columns or rows. Before a number is an index it is taken modulo this power of two: so no list is read or written
/// outside, whatever is in it, and this costs next to nothing.
pub(crate) const PLACES: usize = BASE as usize;

/// How many lines are looked at at once.
const LANES: usize = 16;

/// The room of a list: after the places there is some, so that the next lines of the last sixteen can be read.
const ROOM: usize = PLACES + LANES;

/// The two marks of a column, by their rows, or of a row, by their columns.
#[derive(Clone, Copy, PartialEq, Eq)]
pub(crate) struct Marks {
    pub(crate) cross: u8,
    pub(crate) ring: u8,
}

/// The marks of the columns, or of the rows. After the last one comes the first one again.
#[derive(Clone, Copy, PartialEq, Eq)]
pub(crate) struct Lines {
    crosses: [u8; ROOM],
    rings: [u8; ROOM],
}

impl Marks {
    /// The one of a kind.
    pub(crate) fn of(self, kind: Kind) -> u8 {
        match kind {
            Kind::Cross => self.cross,
            Kind::Ring => self.ring,
        }
    }

    /// The marks where one more line across is put in at a place.
    pub(crate) fn with_line(self, place: u8) -> Marks {
        Marks {
            cross: with_line(self.cross, place),
            ring: with_line(self.ring, place),
        }
    }

    /// The marks where the line across at a place, which has none of them, is taken out.
    pub(crate) fn without_line(self, place: u8) -> Marks {
        Marks {
            cross: without_line(self.cross, place),
            ring: without_line(self.ring, place),
        }
    }
}

impl Lines {
    /// No lines.
    pub(crate) fn none() -> Lines {
        Lines {
            crosses: [0; ROOM],
            rings: [0; ROOM],
        }
    }

    /// The marks of a line.
    pub(crate) fn marks(&self, line: u8) -> Marks {
        Marks {
            cross: self.crosses[line as usize % PLACES],
            ring: self.rings[line as usize % PLACES],
        }
    }

    /// Writes the marks of a line.
    pub(crate) fn set(&mut self, line: u8, marks: Marks) {
        self.crosses[line as usize % PLACES] = marks.cross;
        self.rings[line as usize % PLACES] = marks.ring;
    }

    /// Notes where a line of the other direction now is: its number is written at both of its marks.
    pub(crate) fn place(&mut self, marks: Marks, line: u8) {
        self.crosses[marks.cross as usize % PLACES] = line;
        self.rings[marks.ring as usize % PLACES] = line;
    }

    /// Writes the first line again after the last one.
    pub(crate) fn close(&mut self, size: u8) {
        let first = self.marks(0);
        self.set(size, first);
    }

    /// The lines that may be exchanged with the next one, a bit each: the four marks lie in four lines across, and the intervals are
    /// disjoint or strictly nested.
    pub(crate) fn exchanges(&self, size: u8) -> u64 {
        let mut mask = 0u64;
        for block in 0..PLACES / LANES {
            let at = LANES * block;
            if at < size as usize {
                let bits = self.exchanges_from(at);
                mask |= bits << at as u32;
            }
        }
        mask & first_bits(size)
    }

    /// Sixteen of these bits.
    fn exchanges_from(&self, at: usize) -> u64
        requires { at < PLACES }
    {
        let crosses = u8x16::from_slice(&self.crosses[at..]);
        let rings = u8x16::from_slice(&self.rings[at..]);
        let next_crosses = u8x16::from_slice(&self.crosses[at + 1..]);
        let next_rings = u8x16::from_slice(&self.rings[at + 1..]);
        let (lows, highs) = (crosses.simd_min(rings), crosses.simd_max(rings));
        let next_lows = next_crosses.simd_min(next_rings);
        let next_highs = next_crosses.simd_max(next_rings);
        let disjoint = highs.simd_lt(next_lows) | next_highs.simd_lt(lows);
        let round = lows.simd_lt(next_lows) & next_highs.simd_lt(highs);
        let inside = next_lows.simd_lt(lows) & highs.simd_lt(next_highs);
        (disjoint | (round | inside)).to_bitmask()
    }

    /// The lines that a destabilisation makes one with the next one, a bit each: just one line across has a mark of both, and the marks of
    /// one of the two lie in neighbours.
    pub(crate) fn destabilisations(&self, size: u8) -> u64 {
        let mut mask = 0u64;
        for block in 0..PLACES / LANES {
            let at = LANES * block;
            if at < size as usize {
                let bits = self.destabilisations_from(at, size);
                mask |= bits << at as u32;
            }
        }
        mask & first_bits(size)
    }

    /// Sixteen of these bits.
    fn destabilisations_from(&self, at: usize, size: u8) -> u64
        requires { at < PLACES }
    {
        let crosses = u8x16::from_slice(&self.crosses[at..]);
        let rings = u8x16::from_slice(&self.rings[at..]);
        let next_crosses = u8x16::from_slice(&self.crosses[at + 1..]);
        let next_rings = u8x16::from_slice(&self.rings[at + 1..]);
        let near = u8x16::splat(1);
        let far = u8x16::splat(size.wrapping_sub(1));
        let lengths = crosses.abs_diff(rings);
        let next_lengths = next_crosses.abs_diff(next_rings);
        let is_short = lengths.simd_eq(near) | lengths.simd_eq(far);
        let next_is_short = next_lengths.simd_eq(near) | next_lengths.simd_eq(far);
        let share_cross = next_crosses.simd_eq(rings) & next_rings.simd_ne(crosses);
        let share_ring = next_crosses.simd_ne(rings) & next_rings.simd_eq(crosses);
        ((share_cross | share_ring) & (is_short | next_is_short)).to_bitmask()
    }
}

/// The number with so many bits from the lowest on.
fn first_bits(count: u8) -> u64 {
    (1u64 << (u32::from(count) % 64)).wrapping_sub(1)
}

/// The number of a line where one more line is put in at a place.
fn with_line(number: u8, place: u8) -> u8 {
    if number < place {
        number
    } else {
        number.wrapping_add(1)
    }
}

/// The number of a line where the one at a place is taken out.
fn without_line(number: u8, place: u8) -> u8 {
    if number > place { number - 1 } else { number }
}

/// The next number round the circle of `size`.
pub(crate) fn after(number: u8, size: u8) -> u8 {
    let next = number.wrapping_add(1);
    if next < size { next } else { 0 }
}
