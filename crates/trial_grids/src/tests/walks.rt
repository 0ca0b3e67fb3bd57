//! Searches that find nothing, by what a watch sees, and the workers of a plan for none.

use grid_core::{Grid, MAX_SIZE};
use grid_moves::Move;
use meeting_walks::{Bounds, Plan, Progress, Watch, find_joining_by};
use std::alloc::Global;
use std::test::Fail;
use std::thread::Threads;

/// The rows of a grid: of the Xs, and of the Os.
type Lists<'a> = (&'a [u8], &'a [u8]);

/// The closure of a braid of the figure eight knot.
const BRAID: Lists = (
    &[0, 1, 4, 6, 5, 3, 2, 7, 8, 9],
    &[3, 5, 9, 8, 7, 6, 4, 2, 1, 0],
);

/// A smaller grid of it.
const FIGURE_EIGHT: Lists = (&[3, 4, 0, 5, 2, 1], &[5, 2, 3, 1, 0, 4]);

/// The right trefoil and the left one.
const TREFOIL: Lists = (&[4, 3, 2, 1, 0], &[2, 1, 0, 4, 3]);

const MIRRORED: Lists = (&[0, 1, 2, 3, 4], &[2, 3, 4, 0, 1]);

/// The grid of two lists of rows, those of the Xs and those of the Os.
fn grid_of(lists: Lists) -> Result<Grid, Fail> {
    Ok(Grid::new(lists.0, lists.1).map_err(|_| "no grid")?)
}

/// The most steps or forms that two excursions, one of each side, make.
const TWO_EXCURSIONS: usize = 2 * 512 * MAX_SIZE;

/// Counts the notes, and keeps the last one.
#[derive(Drop)]
struct Counting {
    notes: u32,
    last: Option<Progress>,
    /// Whether no note has fewer steps than the one before.
    is_rising: bool,
    /// Whether a note has fewer forms than the one before.
    has_begun_anew: bool,
}

impl Counting {
    /// Before the first note.
    fn new() -> Counting {
        Counting {
            notes: 0,
            last: None,
            is_rising: true,
            has_begun_anew: false,
        }
    }
}

impl Watch for Counting {
    fn note(&mut self, progress: Progress) {
        if let Some(last) = self.last {
            self.is_rising &= last.steps <= progress.steps;
            self.has_begun_anew |= progress.forms < last.forms;
        }
        self.notes = self.notes.saturating_add(1);
        self.last = Some(progress);
    }
}

/// A plan with the seed 1.
fn plan_of(steps: u64, room: usize, workers: u32) -> Plan {
    let bounds = Bounds {
        seed: 1,
        steps,
        room,
    };
    Plan { bounds, workers }
}

/// Whether some workers find nothing between the grids of lists.
fn finds_nothing<R: Threads + Sync>(
    rt: &R,
    alloc: Global,
    lists: (Lists, Lists),
    plan: Plan,
    watch: &mut Counting,
) -> Result<bool, Fail> {
    let near = grid_of(lists.0)?;
    let far = grid_of(lists.1)?;
    let found = find_joining_by(rt, alloc, &near, &far, plan, watch).map_err(|_| "no memory")?;
    Ok(found.is_none())
}

#[test]
fn a_search_without_new_forms_ends_early(rt: HostRuntime) -> Result<(), Fail> {
    let mut watch = Counting::new();
    let plan = plan_of(1000000000000, 262144, 2);
    let trefoils = (TREFOIL, MIRRORED);
    assert!(rt; finds_nothing(&rt, rt.alloc(), trefoils, plan, &mut watch)?);
    assert!(rt; watch.notes > 1 && watch.is_rising);
    let last = watch.last.ok_or("no progress")?;
    assert!(rt; last.steps > 1000000 && last.steps < 100000000);
    assert_eq!(rt; (last.first_size, last.second_size), (5, 5));
    Ok(())
}

#[test]
fn a_full_table_is_emptied_and_the_steps_are_kept(rt: HostRuntime) -> Result<(), Fail> {
    let mut watch = Counting::new();
    let plan = plan_of(20000, TWO_EXCURSIONS + 20, 1);
    let others = (BRAID, TREFOIL);
    assert!(rt; finds_nothing(&rt, rt.alloc(), others, plan, &mut watch)?);
    let last = watch.last.ok_or("no progress")?;
    assert!(rt; last.steps >= 20000 && last.steps <= 20002 + TWO_EXCURSIONS as u64);
    assert!(rt; watch.has_begun_anew);
    Ok(())
}

/// The moves that some workers find from the closed braid of the figure eight to its smaller grid.
fn found<R: Threads + Sync>(rt: &R, alloc: Global, workers: u32) -> Result<Vec<Move>, Fail> {
    let near = grid_of(BRAID)?;
    let far = grid_of(FIGURE_EIGHT)?;
    let plan = plan_of(1000000, 262144, workers);
    let mut watch = Counting::new();
    let found = find_joining_by(rt, alloc, &near, &far, plan, &mut watch).map_err(|_| "no memory")?;
    Ok(found.ok_or("none")?)
}

#[test]
fn a_plan_for_none_has_one_worker(rt: HostRuntime) -> Result<(), Fail> {
    let by_one = found(&rt, rt.alloc(), 1)?;
    let by_none = found(&rt, rt.alloc(), 0)?;
    assert!(rt; by_one.as_slice() == by_none.as_slice());
    Ok(())
}
