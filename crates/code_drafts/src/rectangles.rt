//! Faces cut into rectangles, which say which lines lie before which.

use crate::lines::{DrawnLines, FaceSide, rotated};
use crate::tables::at;
use memory_core::OutOfMemory;
use std::alloc::{AllocError, Global};

/// The greatest number of cuts, which none comes near.
const MAX_CUTS: usize = 10_000_000;

/// A line that is to lie before another: to its left, or below it.
#[derive(Clone, Copy, PartialEq, Eq)]
pub(crate) struct LinePair {
    pub(crate) low: usize,
    pub(crate) high: usize,
}

/// Which lines lie before which. After the lines come fences: fence p, vertical and horizontal at once, comes before part p, and fence p + 1 after it.
#[derive(Drop)]
pub(crate) struct LinePairs {
    /// For vertical lines.
    pub(crate) across: Vec<LinePair>,
    /// For horizontal lines.
    pub(crate) upward: Vec<LinePair>,
}

impl LinePairs {
    /// What the faces of a drawing say.
    pub(crate) fn of(lines: &DrawnLines) -> Result<LinePairs, OutOfMemory> {
        let alloc = lines.sphere.alloc;
        let mut pairs = LinePairs {
            across: Vec::new(alloc),
            upward: Vec::new(alloc),
        };
        for face in 0..lines.sphere.bounds.len() {
            let sides = sides_of(lines, face)?;
            pairs.cut(alloc, sides)?;
        }
        Ok(pairs)
    }

    /// Cuts a face into rectangles: each side that ends at a turn to the right goes on until it meets the boundary again.
    fn cut(&mut self, alloc: Global, sides: Vec<FaceSide>) -> Result<(), OutOfMemory> {
        let mut rest = Vec::new(alloc);
        rest.push(sides)?;
        for _ in 0..MAX_CUTS {
            let Some(face) = rest.pop() else {
                break;
            };
            self.cut_once(alloc, face.as_slice(), &mut rest)?;
        }
        Ok(())
    }

    /// Cuts a face in two, which are put behind the rest that is to be cut; of a rectangle it notes what the sides say.
    fn cut_once(
        &mut self,
        alloc: Global,
        face: &[FaceSide],
        rest: &mut Vec<Vec<FaceSide>>,
    ) -> Result<(), OutOfMemory> {
        let Some(last) = first_right(face) else {
            return self.push_rectangle(face);
        };
        let (one, two) = halves(alloc, face, last)?;
        rest.push(one)?;
        rest.push(two)?;
        Ok(())
    }

    /// Notes what a rectangle says of its four sides.
    fn push_rectangle(&mut self, sides: &[FaceSide]) -> Result<(), OutOfMemory> {
        let (low, high) = (line_towards(sides, 3), line_towards(sides, 1));
        self.across.push(LinePair { low, high })?;
        let (low, high) = (line_towards(sides, 0), line_towards(sides, 2));
        self.upward.push(LinePair { low, high })?;
        Ok(())
    }
}

/// The line of the last side in a direction.
fn line_towards(sides: &[FaceSide], direction: usize) -> usize {
    let mut line = 0;
    for side in sides {
        if side.direction == direction {
            line = side.line;
        }
    }
    line
}

/// The sides of a face in their order, with a fence around them where it is the outer face of its part.
fn sides_of(lines: &DrawnLines, face: usize) -> Result<Vec<FaceSide>, OutOfMemory> {
    let sphere = lines.sphere;
    let first = at(sphere.bounds.as_slice(), face);
    let sides = sides_from(lines, first)?;
    let part = at(sphere.parts.as_slice(), first);
    if lines.bends.outer(part) != face {
        return Ok(sides);
    }
    let fence = lines.count.saturating_add(part);
    fenced(sphere.alloc, sides.as_slice(), fence)
}

/// The sides along the darts of a face, from this one on.
fn sides_from(lines: &DrawnLines, first: usize) -> Result<Vec<FaceSide>, OutOfMemory> {
    let sphere = lines.sphere;
    let mut sides = Vec::new(sphere.alloc);
    let mut dart = first;
    for _ in 0..sphere.darts {
        lines.push_sides(&mut sides, dart)?;
        dart = sphere.next_in_face(dart);
        if dart == first {
            break;
        }
    }
    Ok(sides)
}

/// Whether one turns to the right from a direction to the next.
fn is_right(from: FaceSide, to: FaceSide) -> bool {
    rotated(from.direction, 3) == to.direction
}

/// The first side that ends at a turn to the right.
fn first_right(sides: &[FaceSide]) -> Option<usize> {
    let count = sides.len();
    for place in 0..count {
        let next = if place + 1 < count { place + 1 } else { 0 };
        if is_right(sides[place], sides[next]) {
            return Some(place);
        }
    }
    None
}

/// The cycle of these sides, begun behind the one at a place, which comes last.
fn from_behind(
    alloc: Global,
    sides: &[FaceSide],
    last: usize,
) -> Result<Vec<FaceSide>, OutOfMemory> {
    let mut found = Vec::new(alloc);
    let next = last.saturating_add(1);
    append(&mut found, sides, next, sides.len())?;
    append(&mut found, sides, 0, next)?;
    Ok(found)
}

/// Appends the sides from a place to before another.
fn append(
    out: &mut Vec<FaceSide>,
    sides: &[FaceSide],
    from: usize,
    to: usize,
) -> Result<(), AllocError> {
    for (place, side) in sides.iter().enumerate() {
        if from <= place && place < to {
            out.push(*side)?;
        }
    }
    Ok(())
}

/// The two faces that come of one when its side at the place `end` goes on until it meets another.
fn halves(
    alloc: Global,
    face: &[FaceSide],
    end: usize,
) -> Result<(Vec<FaceSide>, Vec<FaceSide>), OutOfMemory> {
    let (mut one, mut two) = (Vec::new(alloc), Vec::new(alloc));
    let face = from_behind(alloc, face, end)?;
    let sides = face.as_slice();
    if let Some(longer) = sides.last().copied() {
        let hit = hit_by_last(sides);
        one.push(longer)?;
        append(&mut one, sides, hit, sides.len().saturating_sub(1))?;
        append(&mut two, sides, 0, hit.saturating_add(1))?;
        two.push(longer.rotated(2))?;
    }
    Ok((one, two))
}

/// The side that the last one meets when it goes on: the first behind which there was one turn to the left more than to the right.
fn hit_by_last(sides: &[FaceSide]) -> usize {
    let mut turns: i32 = -1;
    for place in 1..sides.len() {
        turns = turns.saturating_add(turn_between(sides[place - 1], sides[place]));
        if turns == 1 {
            return place;
        }
    }
    0
}

/// A turn from a direction to the next: 1 to the left, and -1 to the right.
fn turn_between(from: FaceSide, to: FaceSide) -> i32 {
    if is_right(from, to) { -1 } else { 1 }
}

/// The outer face of a part with a fence around it: a side that ends at a turn to the right goes on to the fence, and back.
fn fenced(alloc: Global, sides: &[FaceSide], fence: usize) -> Result<Vec<FaceSide>, OutOfMemory> {
    let last = first_right(sides).unwrap_or(0);
    let mut found = from_behind(alloc, sides, last)?;
    if let Some(longer) = found.last().copied() {
        for quarters in 1..6 {
            found.push(side_of_fence(fence, longer.rotated(quarters).direction))?;
        }
        found.push(longer.rotated(2))?;
    }
    Ok(found)
}

/// The side of a fence in a direction: on this fence, or on the one behind it.
fn side_of_fence(fence: usize, direction: usize) -> FaceSide {
    let line = match direction {
        0 | 3 => fence,
        _ => fence.saturating_add(1),
    };
    FaceSide { direction, line }
}
