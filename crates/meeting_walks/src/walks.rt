//! Two walks, one from each diagram, until they meet.

use crate::camp::Camp;
use crate::excursion::{Excursion, LONG};
use crate::path::{Meeting, path_through};
use crate::table::{Side, Table};
use crate::watch::Progress;
use grid_core::{Grid, MAX_SIZE};
use memory_core::OutOfMemory;
use rand_pcg::Pcg32;
use std::alloc::Global;
use torus_grids::{Form, Torus};

/// The most steps of an excursion: each time that they are counted anew, the least size has fallen.
const MOST_STEPS: u32 = LONG * MAX_SIZE as u32;

/// The stream of the generator.
const STREAM: u64 = 54;

/// The forms of the two diagrams.
#[derive(Clone, Copy)]
pub(crate) struct Roots {
    first: Form,
    second: Form,
}

/// The state of both walks.
#[derive(Drop)]
pub(crate) struct Walks {
    common: Common,
    first: Camp,
    second: Camp,
}

/// What both walks share.
#[derive(Drop)]
struct Common {
    table: Table,
    /// The diagrams above the least size since the last form of the table.
    trail: Vec<Torus>,
    generator: Pcg32,
    made: u64,
}

impl Roots {
    /// The forms of two grids.
    pub(crate) fn of(first: &Grid, second: &Grid) -> Roots {
        Roots {
            first: Form::of(&Torus::of(first)),
            second: Form::of(&Torus::of(second)),
        }
    }
}

impl Walks {
    /// Both walks at the forms of their diagrams.
    pub(crate) fn new(alloc: Global, roots: Roots, seed: u64) -> Result<Walks, OutOfMemory> {
        let mut common = Common::new(alloc, seed);
        let first = common.camp(alloc, Side::First, roots.first)?;
        let second = common.camp(alloc, Side::Second, roots.second)?;
        Ok(Walks {
            common,
            first,
            second,
        })
    }

    /// How far they are.
    pub(crate) fn progress(&self) -> Progress {
        Progress {
            steps: self.common.made,
            forms: self.common.table.len(),
            first_size: self.first.low,
            second_size: self.second.low,
        }
    }

    /// The forms from the first diagram's to the second's, each a move away from the one before, through where the walks meet.
    pub(crate) fn path(&self, alloc: Global, meeting: Meeting) -> Result<Vec<Form>, OutOfMemory> {
        path_through(alloc, &self.common.table, meeting)
    }

    /// Whether the room might not do for one more excursion of each side.
    pub(crate) fn is_full(&self, room: usize) -> bool {
        self.common
            .table
            .len()
            .saturating_add(2 * MOST_STEPS as usize)
            > room
    }

    /// Both walks at the forms of their diagrams again; the generator goes on.
    pub(crate) fn begin_anew(&mut self, alloc: Global, roots: Roots) -> Result<(), OutOfMemory> {
        self.common.table.clear();
        self.first = self.common.camp(alloc, Side::First, roots.first)?;
        self.second = self.common.camp(alloc, Side::Second, roots.second)?;
        Ok(())
    }

    /// An excursion of each side.
    pub(crate) fn both_sides(&mut self) -> Result<Option<Meeting>, OutOfMemory> {
        if let Some(meeting) = self.common.explore(&mut self.first)? {
            return Ok(Some(meeting));
        }
        self.common.explore(&mut self.second)
    }
}

impl Common {
    /// An empty table, and the generator of a seed.
    fn new(alloc: Global, seed: u64) -> Common {
        Common {
            table: Table::new(alloc),
            trail: Vec::new(alloc),
            generator: Pcg32::new(seed, STREAM),
            made: 0,
        }
    }

    /// The camp of a side at the form of its diagram, which is kept.
    fn camp(&mut self, alloc: Global, side: Side, form: Form) -> Result<Camp, OutOfMemory> {
        let root = self.table.add_root(form, side)?;
        Camp::new(alloc, side, root, form.size())
    }

    /// An excursion from a side's camp.
    fn explore(&mut self, camp: &mut Camp) -> Result<Option<Meeting>, OutOfMemory> {
        let Some(mut trip) = self.set_out(camp) else {
            return Ok(None);
        };
        let met = self.travel(camp, &mut trip)?;
        camp.last = trip.here;
        Ok(met)
    }

    /// Begins an excursion where a side's camp says, which is a step.
    fn set_out(&mut self, camp: &Camp) -> Option<Excursion> {
        self.made = self.made.saturating_add(1);
        self.trail.clear();
        let start = camp.start(&self.table, &mut self.generator);
        let (form, _) = self.table.get(start)?;
        Some(Excursion::new(form.torus(), start, &mut self.generator))
    }

    /// Makes the steps of an excursion, up to its end or to where the sides meet.
    fn travel(
        &mut self,
        camp: &mut Camp,
        trip: &mut Excursion,
    ) -> Result<Option<Meeting>, OutOfMemory> {
        for _step in 0..MOST_STEPS {
            if trip.is_over() {
                break;
            }
            if let Some(meeting) = self.step(camp, trip)? {
                return Ok(Some(meeting));
            }
        }
        Ok(None)
    }

    /// One step of an excursion. Answers where the sides meet, if its move leads there.
    fn step(
        &mut self,
        camp: &mut Camp,
        trip: &mut Excursion,
    ) -> Result<Option<Meeting>, OutOfMemory> {
        if !trip.step(&mut self.generator) {
            return Ok(None);
        }
        self.made = self.made.saturating_add(1);
        self.arrive(camp, trip)
    }

    /// Takes note of where an excursion has come: above the least size by its trail, else by the table. Answers where the sides meet.
    fn arrive(
        &mut self,
        camp: &mut Camp,
        trip: &mut Excursion,
    ) -> Result<Option<Meeting>, OutOfMemory> {
        if trip.torus.size() > camp.low {
            self.trail.push(trip.torus)?;
            return Ok(None);
        }
        come_down(camp, trip);
        let met = self.look_up(camp, trip)?;
        self.trail.clear();
        Ok(met)
    }

    /// Goes on from the form to which an excursion has come down, where it is one of its own side; any other form is kept after the trail.
    fn look_up(
        &mut self,
        camp: &mut Camp,
        trip: &mut Excursion,
    ) -> Result<Option<Meeting>, OutOfMemory> {
        let form = Form::of(&trip.torus);
        match self.table.find(&form) {
            Some((number, side)) if side == camp.side => {
                trip.here = number;
                Ok(None)
            }
            _ => self.keep_all(camp, form, trip),
        }
    }

    /// Keeps the forms of the trail and the one after it, up to where the sides meet.
    fn keep_all(
        &mut self,
        camp: &mut Camp,
        last: Form,
        trip: &mut Excursion,
    ) -> Result<Option<Meeting>, OutOfMemory> {
        if let Some(meeting) = self.keep_trail(camp, trip)? {
            return Ok(Some(meeting));
        }
        let met = go_to(&mut self.table, camp, last, trip)?;
        if met.is_none() {
            camp.land(trip.here)?;
        }
        Ok(met)
    }

    /// Keeps the forms of the trail, up to where the sides meet.
    fn keep_trail(
        &mut self,
        camp: &Camp,
        trip: &mut Excursion,
    ) -> Result<Option<Meeting>, OutOfMemory> {
        for torus in &self.trail {
            if let Some(meeting) = go_to(&mut self.table, camp, Form::of(torus), trip)? {
                return Ok(Some(meeting));
            }
        }
        Ok(None)
    }
}

/// An excursion and its side's camp take note that it is at the least size, which may be a new one.
fn come_down(camp: &mut Camp, trip: &mut Excursion) {
    let size = trip.torus.size();
    let is_new_low = size < camp.low;
    trip.touch_down(is_new_low);
    if is_new_low {
        camp.lower(size);
    }
}

/// Goes on to a form, which is kept where it is new, or returns that it is one of the other side.
fn go_to(
    table: &mut Table,
    camp: &Camp,
    form: Form,
    trip: &mut Excursion,
) -> Result<Option<Meeting>, OutOfMemory> {
    let side = camp.side;
    let near = trip.here;
    let (far, found) = table.find_or_add(form, near, side)?;
    if found == side {
        trip.here = far;
        return Ok(None);
    }
    Ok(Some(Meeting { side, near, far }))
}
