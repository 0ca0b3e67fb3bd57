//! A code as a map of the sphere: ends of edges, faces, and parts.

use crate::tables::{at, marks, put, table};
use crossing_codes::{Code, Crossing};
use memory_core::OutOfMemory;
use std::alloc::{AllocError, Global};

/// The map of a code. Dart 4v + p is the end of an edge at crossing v in slot p; slots are counted counterclockwise from the one
/// on which the strand under comes. A dart runs from its crossing along its edge.
#[derive(Drop)]
pub(crate) struct Sphere {
    pub(crate) alloc: Global,
    /// How many darts there are.
    pub(crate) darts: usize,
    pub(crate) twins: Vec<usize>,
    pub(crate) leaves: Vec<bool>,
    pub(crate) faces: Vec<usize>,
    /// A dart of each face.
    pub(crate) bounds: Vec<usize>,
    /// The connected part of each dart's crossing.
    pub(crate) parts: Vec<usize>,
    /// A dart of each part.
    pub(crate) roots: Vec<usize>,
    /// All darts, each as the end of a hop from one that comes before it; a root has a hop from itself.
    pub(crate) hops: Vec<Hop>,
}

/// A hop from a dart to the next of its crossing, or to the other end of its edge.
#[derive(Clone, Copy, PartialEq, Eq)]
pub(crate) struct Hop {
    pub(crate) from: usize,
    pub(crate) to: usize,
}

impl Sphere {
    /// The map of a code.
    pub(crate) fn of(alloc: Global, code: &Code) -> Result<Sphere, OutOfMemory> {
        let crossings = code.crossings.as_slice();
        let mut sphere = Sphere::blank(alloc, crossings.len().wrapping_mul(4))?;
        pair_up(&mut sphere, crossings)?;
        number_faces(&mut sphere)?;
        number_parts(&mut sphere)?;
        Ok(sphere)
    }

    /// So many darts, of which nothing is known.
    fn blank(alloc: Global, darts: usize) -> Result<Sphere, AllocError> {
        Ok(Sphere {
            alloc,
            darts,
            twins: table(alloc, darts)?,
            leaves: marks(alloc, darts)?,
            faces: table(alloc, darts)?,
            bounds: Vec::new(alloc),
            parts: table(alloc, darts)?,
            roots: Vec::new(alloc),
            hops: Vec::new(alloc),
        })
    }

    /// The dart at the other end of the edge.
    pub(crate) fn twin(&self, dart: usize) -> usize {
        at(self.twins.as_slice(), dart)
    }

    /// Whether the strand leaves its crossing by the dart.
    pub(crate) fn leaves(&self, dart: usize) -> bool {
        at(self.leaves.as_slice(), dart)
    }

    /// The face on the left of a dart.
    pub(crate) fn face(&self, dart: usize) -> usize {
        at(self.faces.as_slice(), dart)
    }

    /// The next dart with the same face on its left.
    pub(crate) fn next_in_face(&self, dart: usize) -> usize {
        turned(self.twin(dart), 3)
    }

    /// The dart by which one goes straight on where a dart ends.
    pub(crate) fn onward(&self, dart: usize) -> usize {
        turned(self.twin(dart), 2)
    }
}

/// The dart of the same crossing so many slots on.
pub(crate) fn turned(dart: usize, slots: usize) -> usize {
    dart - dart % 4 + (dart % 4 + slots % 4) % 4
}

/// The edge at a slot of a crossing.
fn edge_at(crossing: &Crossing, slot: usize) -> usize {
    (match slot {
        0 => crossing.first,
        1 => crossing.second,
        2 => crossing.third,
        _ => crossing.fourth,
    }) as usize
}

/// Whether the strand leaves a crossing by a slot.
fn leaves_by(crossing: &Crossing, slot: usize) -> bool {
    slot == 2 || (slot == 1 && crossing.positive) || (slot == 3 && !crossing.positive)
}

/// Joins the two ends of each edge, and marks the darts by which strands leave.
fn pair_up(sphere: &mut Sphere, crossings: &[Crossing]) -> Result<(), OutOfMemory> {
    let mut seen = table(sphere.alloc, sphere.darts)?;
    for (v, crossing) in crossings.iter().enumerate() {
        pair_up_at(sphere, seen.as_mut_slice(), v, crossing);
    }
    Ok(())
}

/// Joins the ends of edges at crossing v to the ones seen before them, and marks the darts by which strands leave it.
fn pair_up_at(sphere: &mut Sphere, seen: &mut [usize], v: usize, crossing: &Crossing) {
    for slot in 0..4 {
        let dart = v.wrapping_mul(4).wrapping_add(slot);
        join_end(sphere, seen, edge_at(crossing, slot), dart);
        let leaves = leaves_by(crossing, slot);
        put(sphere.leaves.as_mut_slice(), dart, leaves);
    }
}

/// Joins a dart to the one of its edge that was seen before it, or notes the dart plus 1 as the first one seen.
fn join_end(sphere: &mut Sphere, seen: &mut [usize], edge: usize, dart: usize) {
    let other = at(seen, edge);
    if other == 0 {
        put(seen, edge, dart.wrapping_add(1));
    } else {
        put(sphere.twins.as_mut_slice(), dart, other - 1);
        put(sphere.twins.as_mut_slice(), other - 1, dart);
    }
}

/// Numbers the faces in the order of their least darts.
fn number_faces(sphere: &mut Sphere) -> Result<(), OutOfMemory> {
    let mut seen = marks(sphere.alloc, sphere.darts)?;
    for first in 0..sphere.darts {
        if !at(seen.as_slice(), first) {
            number_face(sphere, seen.as_mut_slice(), first);
            sphere.bounds.push(first)?;
        }
    }
    Ok(())
}

/// Gives the next number to the face on the left of a dart.
fn number_face(sphere: &mut Sphere, seen: &mut [bool], first: usize) {
    let face = sphere.bounds.len();
    let mut dart = first;
    for _ in 0..sphere.darts {
        if at(seen, dart) {
            break;
        }
        put(seen, dart, true);
        put(sphere.faces.as_mut_slice(), dart, face);
        dart = sphere.next_in_face(dart);
    }
}

/// Numbers the connected parts in the order of their least crossings.
fn number_parts(sphere: &mut Sphere) -> Result<(), OutOfMemory> {
    let mut seen = marks(sphere.alloc, sphere.darts)?;
    for first in 0..sphere.darts {
        if !at(seen.as_slice(), first) {
            number_part(sphere, seen.as_mut_slice(), first)?;
            sphere.roots.push(first)?;
        }
    }
    Ok(())
}

/// Gives the next number to the part of a dart, and notes the hops from that dart to all of its darts.
fn number_part(sphere: &mut Sphere, seen: &mut [bool], root: usize) -> Result<(), AllocError> {
    let part = sphere.roots.len();
    let begun = sphere.hops.len();
    note(sphere, seen, root, root)?;
    for next in begun..sphere.darts {
        let Some(hop) = sphere.hops.as_slice().get(next).copied() else {
            break;
        };
        number_dart(sphere, seen, hop.to, part)?;
    }
    Ok(())
}

/// Gives a dart the number of its part, and notes the hops from it.
fn number_dart(
    sphere: &mut Sphere,
    seen: &mut [bool],
    dart: usize,
    part: usize,
) -> Result<(), AllocError> {
    put(sphere.parts.as_mut_slice(), dart, part);
    note(sphere, seen, dart, turned(dart, 1))?;
    let twin = sphere.twin(dart);
    note(sphere, seen, dart, twin)
}

/// Notes a hop, if its end wasn't seen.
fn note(sphere: &mut Sphere, seen: &mut [bool], from: usize, to: usize) -> Result<(), AllocError> {
    if !at(seen, to) {
        put(seen, to, true);
        sphere.hops.push(Hop { from, to })?;
    }
    Ok(())
}
