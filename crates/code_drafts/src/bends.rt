//! How often the edges turn, with as few turns in all as can be (Tamassia 1987).

use crate::sphere::Sphere;
use crate::tables::{at, marked, marks, put, table};
use memory_core::OutOfMemory;
use std::alloc::{AllocError, Global};

/// The greatest number of rounds of a search, which none comes near.
const MAX_ROUNDS: usize = 100_000_000;

/// The turns of all edges, and the outer face of each part.
#[derive(Drop)]
pub(crate) struct Bends {
    /// How often each dart turns to the left; below 0 where it turns to the right.
    lefts: Vec<i32>,
    outer: Vec<usize>,
}

impl Bends {
    /// How often a dart turns.
    pub(crate) fn count(&self, dart: usize) -> usize {
        at(self.lefts.as_slice(), dart).unsigned_abs() as usize
    }

    /// Whether a dart turns to the left.
    pub(crate) fn is_left(&self, dart: usize) -> bool {
        at(self.lefts.as_slice(), dart) > 0
    }

    /// The outer face of a part.
    pub(crate) fn outer(&self, part: usize) -> usize {
        at(self.outer.as_slice(), part)
    }

    /// How many turns more there are where a dart turns twice more to the left.
    fn price(&self, dart: usize) -> i32 {
        match (self.count(dart), self.is_left(dart)) {
            (0, _) | (_, true) => 2,
            (1, false) => 0,
            (_, false) => -2,
        }
    }
}

/// The turns of a map, with the outer faces that need the fewest.
pub(crate) fn bends_of(sphere: &Sphere) -> Result<Bends, OutOfMemory> {
    let mut bends = first_bends(sphere)?;
    meet_needs(sphere, &mut bends)?;
    for face in 0..sphere.bounds.len() {
        try_outer(sphere, &mut bends, face)?;
    }
    Ok(bends)
}

/// Lets turns pass to the nearest face that needs more, until none does.
fn meet_needs(sphere: &Sphere, bends: &mut Bends) -> Result<(), OutOfMemory> {
    let mut needs = needs_of(sphere, bends)?;
    for _ in 0..MAX_ROUNDS {
        let (sources, sinks) = below_and_above(sphere.alloc, needs.as_slice())?;
        let reach = spread(sphere, bends, sources.as_slice())?;
        let Some(sink) = reach.nearest(sinks.as_slice()) else {
            break;
        };
        let source = pass(sphere, bends, &reach, sink);
        add(needs.as_mut_slice(), source, 2);
        add(needs.as_mut_slice(), sink, -2);
    }
    Ok(())
}

/// Lets a face become the outer one of its part where that takes fewer turns: 8 turns go from it to the outer face of before.
fn try_outer(sphere: &Sphere, bends: &mut Bends, face: usize) -> Result<(), OutOfMemory> {
    let part = at(sphere.parts.as_slice(), at(sphere.bounds.as_slice(), face));
    let before = bends.lefts.as_slice().to_vec(sphere.alloc)?;
    let outer = bends.outer(part);
    let price = pass_on(sphere, bends, face, outer)?;
    if price < 0 {
        put(bends.outer.as_mut_slice(), part, face);
    } else {
        bends.lefts = before;
    }
    Ok(())
}

/// Lets 8 turns pass from one face to another, and says how many turns more there are then; 0 where there is no way, or they are one.
fn pass_on(sphere: &Sphere, bends: &mut Bends, from: usize, to: usize) -> Result<i32, OutOfMemory> {
    let mut sources = marks(sphere.alloc, sphere.bounds.len())?;
    put(sources.as_mut_slice(), from, true);
    let mut price: i32 = 0;
    for _ in 0..4 {
        let reach = spread(sphere, bends, sources.as_slice())?;
        if !at(reach.reached.as_slice(), to) {
            return Ok(0);
        }
        price = price.saturating_add(at(reach.far.as_slice(), to));
        pass(sphere, bends, &reach, to);
    }
    Ok(price)
}

/// One turn at each edge from over to under or back, none at the others; the first face of each part is its outer one.
fn first_bends(sphere: &Sphere) -> Result<Bends, AllocError> {
    let alloc = sphere.alloc;
    let mut lefts: Vec<i32> = vec![in alloc; 0; sphere.darts]?;
    turn_first(sphere, lefts.as_mut_slice());
    let roots = sphere.roots.as_slice();
    let outer: Vec<usize> = roots.iter().map(|root| sphere.face(*root)).collect(alloc)?;
    Ok(Bends { lefts, outer })
}

/// Notes one turn at each edge from over to under or back.
fn turn_first(sphere: &Sphere, lefts: &mut [i32]) {
    for dart in 0..sphere.darts {
        let twin = sphere.twin(dart);
        if dart % 2 != twin % 2 {
            let turn: i32 = if dart < twin { 1 } else { -1 };
            put(lefts, dart, turn);
        }
    }
}

/// All corners of a face and its turns: 4 in sum, and -4 at the outer face of a part.
fn sums_of(sphere: &Sphere, bends: &Bends) -> Result<Vec<i32>, AllocError> {
    let alloc = sphere.alloc;
    let mut sums: Vec<i32> = vec![in alloc; 4; sphere.bounds.len()]?;
    for face in bends.outer.as_slice() {
        put(sums.as_mut_slice(), *face, -4);
    }
    Ok(sums)
}

/// How many more turns to the left each face is to have for the sum of its corners and turns.
fn needs_of(sphere: &Sphere, bends: &Bends) -> Result<Vec<i32>, AllocError> {
    let mut needs = sums_of(sphere, bends)?;
    for dart in 0..sphere.darts {
        let more = at(bends.lefts.as_slice(), sphere.twin(dart)).saturating_sub(1);
        add(needs.as_mut_slice(), sphere.face(dart), more);
    }
    Ok(needs)
}

/// Which numbers are below 0, and which above.
fn below_and_above(alloc: Global, numbers: &[i32]) -> Result<(Vec<bool>, Vec<bool>), AllocError> {
    let below: Vec<bool> = numbers.iter().map(|number| *number < 0).collect(alloc)?;
    let above: Vec<bool> = numbers.iter().map(|number| *number > 0).collect(alloc)?;
    Ok((below, above))
}

/// Adds to a number of a table.
fn add(numbers: &mut [i32], place: usize, more: i32) {
    let sum = at(numbers, place).saturating_add(more);
    put(numbers, place, sum);
}

/// How far each face is from the sources of a search, and by which dart it was reached.
#[derive(Drop)]
struct Reach {
    reached: Vec<bool>,
    far: Vec<i32>,
    /// The dart plus 1, and 0 at a source.
    came: Vec<usize>,
    /// The faces from which to step on, in their order; the first ones are done with.
    queue: Vec<usize>,
    /// Whether each face waits in the queue.
    waiting: Vec<bool>,
}

impl Reach {
    /// The sources alone.
    fn of(alloc: Global, sources: &[bool]) -> Result<Reach, AllocError> {
        Ok(Reach {
            reached: sources.to_vec(alloc)?,
            far: vec![in alloc; 0; sources.len()]?,
            came: table(alloc, sources.len())?,
            queue: marked(alloc, sources)?,
            waiting: sources.to_vec(alloc)?,
        })
    }

    /// The nearest face that is a sink.
    fn nearest(&self, sinks: &[bool]) -> Option<usize> {
        let mut best = None;
        let mut least = i32::MAX;
        for face in 0..sinks.len() {
            let far = at(self.far.as_slice(), face);
            if sinks[face] && at(self.reached.as_slice(), face) && far < least {
                best = Some(face);
                least = far;
            }
        }
        best
    }

    /// Steps from a face into each face beside it.
    fn leave(&mut self, sphere: &Sphere, bends: &Bends, from: usize) -> Result<(), AllocError> {
        let first = at(sphere.bounds.as_slice(), from);
        let mut side = first;
        for _ in 0..sphere.darts {
            self.step(sphere, bends, from, sphere.twin(side))?;
            side = sphere.next_in_face(side);
            if side == first {
                break;
            }
        }
        Ok(())
    }

    /// Steps from a face over a dart into the face on the dart's left.
    fn step(
        &mut self,
        sphere: &Sphere,
        bends: &Bends,
        from: usize,
        dart: usize,
    ) -> Result<(), AllocError> {
        let far = at(self.far.as_slice(), from).saturating_add(bends.price(dart));
        self.enter(sphere.face(dart), dart, far)
    }

    /// Comes over a dart into a face that is so far then, which waits if that is a shorter way to it.
    fn enter(&mut self, face: usize, dart: usize, far: i32) -> Result<(), AllocError> {
        if at(self.reached.as_slice(), face) && at(self.far.as_slice(), face) <= far {
            return Ok(());
        }
        put(self.reached.as_mut_slice(), face, true);
        put(self.far.as_mut_slice(), face, far);
        put(self.came.as_mut_slice(), face, dart.saturating_add(1));
        self.wait(face)
    }

    /// Puts a face behind those that wait, if it doesn't wait yet.
    fn wait(&mut self, face: usize) -> Result<(), AllocError> {
        if !at(self.waiting.as_slice(), face) {
            put(self.waiting.as_mut_slice(), face, true);
            self.queue.push(face)?;
        }
        Ok(())
    }
}

/// The distances of all faces from the sources, where a step over a dart of a face into it costs what two more turns to the left cost there.
fn spread(sphere: &Sphere, bends: &Bends, sources: &[bool]) -> Result<Reach, OutOfMemory> {
    let mut reach = Reach::of(sphere.alloc, sources)?;
    for next in 0..MAX_ROUNDS {
        let Some(from) = reach.queue.as_slice().get(next).copied() else {
            break;
        };
        put(reach.waiting.as_mut_slice(), from, false);
        reach.leave(sphere, bends, from)?;
    }
    Ok(reach)
}

/// Passes two turns along the way by which a face was reached, and says from which source.
fn pass(sphere: &Sphere, bends: &mut Bends, reach: &Reach, sink: usize) -> usize {
    let mut face = sink;
    for _ in 0..sphere.darts {
        let came = at(reach.came.as_slice(), face);
        if came == 0 {
            break;
        }
        let twin = sphere.twin(came - 1);
        turn_twice(bends, came - 1, twin);
        face = sphere.face(twin);
    }
    face
}

/// Lets a dart turn twice more to the left, and so its twin twice more to the right.
fn turn_twice(bends: &mut Bends, dart: usize, twin: usize) {
    add(bends.lefts.as_mut_slice(), dart, 2);
    add(bends.lefts.as_mut_slice(), twin, -2);
}
