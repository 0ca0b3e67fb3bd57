//! The lines of a drawing: its straight pieces, each from one turn of a strand to the next.

use crate::bends::Bends;
use crate::sphere::{Hop, Sphere, turned};
use crate::tables::{at, marks, put, table};
use memory_core::OutOfMemory;

/// The lines, numbered along the strands.
#[derive(Drop)]
pub(crate) struct DrawnLines<'a> {
    pub(crate) sphere: &'a Sphere,
    pub(crate) bends: &'a Bends,
    /// How many lines there are.
    pub(crate) count: usize,
    /// The line after the first turn of each dart by which a strand leaves.
    firsts: Vec<usize>,
    /// The line on which each dart by which a strand leaves begins.
    enters: Vec<usize>,
    /// The line before each line.
    pub(crate) before: Vec<usize>,
    /// The line after each line.
    pub(crate) after: Vec<usize>,
    /// Whether each line is vertical.
    pub(crate) upright: Vec<bool>,
    /// The direction in which each dart begins: 0 to the right, 1 up, 2 to the left, 3 down.
    headings: Vec<usize>,
}

/// A piece of a face's boundary: the line on which it lies, and the direction in which one goes along with the face on the left.
#[derive(Clone, Copy, PartialEq, Eq)]
pub(crate) struct FaceSide {
    pub(crate) direction: usize,
    pub(crate) line: usize,
}

impl FaceSide {
    /// A side of the same line in another direction, so many quarters of a turn to the left.
    pub(crate) fn rotated(self, quarters: usize) -> FaceSide {
        let direction = rotated(self.direction, quarters);
        let line = self.line;
        FaceSide { direction, line }
    }
}

impl<'a> DrawnLines<'a> {
    /// The lines of a map with these turns.
    pub(crate) fn of(sphere: &'a Sphere, bends: &'a Bends) -> Result<DrawnLines<'a>, OutOfMemory> {
        let mut lines = DrawnLines::blank(sphere, bends)?;
        lines.find_entries();
        lines.find_headings();
        lines.find_lines();
        Ok(lines)
    }

    /// As many lines as there are turns; of each is known only behind which turn it comes.
    fn blank(sphere: &'a Sphere, bends: &'a Bends) -> Result<DrawnLines<'a>, OutOfMemory> {
        let alloc = sphere.alloc;
        let (firsts, count) = firsts_of(sphere, bends)?;
        Ok(DrawnLines {
            sphere,
            bends,
            count,
            firsts,
            enters: table(alloc, sphere.darts)?,
            before: table(alloc, count)?,
            after: table(alloc, count)?,
            upright: marks(alloc, count)?,
            headings: table(alloc, sphere.darts)?,
        })
    }

    /// The line behind so many turns of a dart by which a strand leaves.
    pub(crate) fn behind(&self, dart: usize, turns: usize) -> usize {
        if turns == 0 {
            at(self.enters.as_slice(), dart)
        } else {
            at(self.firsts.as_slice(), dart).saturating_add(turns - 1)
        }
    }

    /// Finds for each dart by which a strand leaves the line on which it begins.
    fn find_entries(&mut self) {
        for dart in 0..self.sphere.darts {
            if self.sphere.leaves(dart) && self.bends.count(dart) != 0 {
                self.follow(dart);
            }
        }
    }

    /// Follows a strand from its last turn on a dart's edge to the next turn.
    fn follow(&mut self, dart: usize) {
        let line = self.behind(dart, self.bends.count(dart));
        let mut next = self.sphere.onward(dart);
        for _ in 0..self.sphere.darts {
            put(self.enters.as_mut_slice(), next, line);
            if self.bends.count(next) != 0 {
                break;
            }
            next = self.sphere.onward(next);
        }
    }

    /// Finds the directions in which the darts begin; the first crossing of each part has its first slot on the right.
    fn find_headings(&mut self) {
        let sphere = self.sphere;
        for hop in sphere.hops.as_slice() {
            let heading = self.heading_behind(*hop);
            put(self.headings.as_mut_slice(), hop.to, heading);
        }
    }

    /// The direction in which the dart behind a hop begins, by the one in which the dart before it begins.
    fn heading_behind(&self, hop: Hop) -> usize {
        let heading = at(self.headings.as_slice(), hop.from);
        let turns = self.bends.count(hop.from) % 4;
        if hop.to == hop.from {
            heading
        } else if hop.to == turned(hop.from, 1) {
            rotated(heading, 1)
        } else if self.bends.is_left(hop.from) {
            rotated(heading, 2 + turns)
        } else {
            rotated(heading, 6 - turns)
        }
    }

    /// Finds for each line the one before, the one after, and whether it is vertical.
    fn find_lines(&mut self) {
        for dart in 0..self.sphere.darts {
            if self.sphere.leaves(dart) {
                self.find_lines_along(dart);
            }
        }
    }

    /// Finds for the line behind each turn of a dart by which a strand leaves the one before, and whether it is vertical.
    fn find_lines_along(&mut self, dart: usize) {
        for turn in 0..self.bends.count(dart) {
            self.find_line(dart, turn);
        }
    }

    /// Notes the line before the one behind a turn of a dart by which a strand leaves, and whether that one is vertical. Turns are counted from 0.
    fn find_line(&mut self, dart: usize, turn: usize) {
        let before = self.behind(dart, turn);
        let line = self.behind(dart, turn.saturating_add(1));
        put(self.before.as_mut_slice(), line, before);
        put(self.after.as_mut_slice(), before, line);
        let heading = at(self.headings.as_slice(), dart);
        let upright = (heading % 2 + turn % 2) % 2 == 0;
        put(self.upright.as_mut_slice(), line, upright);
    }

    /// Appends the sides along a dart, from its crossing to the other end.
    pub(crate) fn push_sides(
        &self,
        out: &mut Vec<FaceSide>,
        dart: usize,
    ) -> Result<(), OutOfMemory> {
        let quarters: usize = if self.bends.is_left(dart) { 1 } else { 3 };
        let mut direction = at(self.headings.as_slice(), dart) % 4;
        for turns in 0..self.bends.count(dart).saturating_add(1) {
            let line = self.line_along(dart, turns);
            out.push(FaceSide { direction, line })?;
            direction = rotated(direction, quarters);
        }
        Ok(())
    }

    /// The line behind so many turns of a dart, where the strand may go either way along it.
    fn line_along(&self, dart: usize, turns: usize) -> usize {
        if self.sphere.leaves(dart) {
            self.behind(dart, turns)
        } else {
            let before = self.bends.count(dart).saturating_sub(turns);
            self.behind(self.sphere.twin(dart), before)
        }
    }
}

/// The line behind the first turn of each dart by which a strand leaves, and how many lines there are.
fn firsts_of(sphere: &Sphere, bends: &Bends) -> Result<(Vec<usize>, usize), OutOfMemory> {
    let mut firsts = table(sphere.alloc, sphere.darts)?;
    let mut count: usize = 0;
    for dart in 0..sphere.darts {
        if sphere.leaves(dart) {
            put(firsts.as_mut_slice(), dart, count);
            count = count.saturating_add(bends.count(dart));
        }
    }
    Ok((firsts, count))
}

/// A direction, so many quarters of a turn to the left.
pub(crate) fn rotated(direction: usize, quarters: usize) -> usize {
    (direction % 4 + quarters % 4) % 4
}
