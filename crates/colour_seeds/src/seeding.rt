//! Seeds of a diagram, with the steps by which their colours give those of all columns.
ghost use Rattle.std.specs.Prelude.{◌≡◌, ◌<◌, ◌≤◌, ◌+◌, ◌++◌, ◌⊎◌, [], ◌∷◌, ℕ, Bool, true, None, length, IfOk, IfErr};
ghost use Rattle.std.specs.List.{All, Contains};
ghost use Rattle.grid_core.specs.Diagram.{size};
ghost use Rattle.colour_seeds.specs.Settled.{Determine, IsClosed, IsSettled};
ghost use Rattle.colour_seeds.specs.Plan.{IsAllowed, IsPlan, LeadsBySteps, progress_after, is_known, next_step, nothing, seed_columns, seeds_in};
ghost use Rattle.colour_seeds.specs.Seeded.{HasKnown, IsFault, Reaches};

use crate::progress::{SeedProgress, Step, next_step, take_step};
use arrayvec::ArrayVec;
use grid_core::{Grid, MAX_SIZE};
use std::alloc::{AllocFailed, Global};
use std::marker::Model;

/// Why a list of columns was refused.
#[derive(Clone, Copy, PartialEq, Eq)]
pub enum SeedFault {
    /// The first that is no column of the grid.
    Outside { column: u8 },
    /// The leftmost column that the seeds do not settle.
    Unsettled { column: u8 },
    /// Memory ran out.
    OutOfMemory,
}

impl From<AllocFailed<Step>> for SeedFault {
    ghost use Rattle.colour_seeds.specs.declared.seeding.SeedFault.TheVariants as fault;

    ghost from_gives = { λ _ e. e ≡ fault.OutOfMemory };

    fn from(_: AllocFailed<Step>) -> SeedFault {
        SeedFault::OutOfMemory
    }
}

/// Seeds of a diagram, which contracts see as their plan: the list of steps by which their colours give those of all columns.
#[derive(Drop)]
pub struct Seeding {
    steps: Vec<Step>,
}

impl Model for Seeding {
    ghost use Rattle.std.specs.Prelude.{◌≤◌, List, length};
    ghost use Rattle.grid_core.specs.declared.grid.TheConstants.{MAX_SIZE};
    ghost use Rattle.colour_seeds.specs.declared.progress.Step.{Step};
    ghost use Rattle.colour_seeds.specs.Plan.{seed_columns};

    ghost Value = { List Step };

    ghost view = { λ s. s.steps.items };

    ghost invariant = { λ s. length (seed_columns s.steps.items) ≤ MAX_SIZE };
}

impl Seeding {
    /// The plan of these seeds. Each seed that those before it do not settle takes each colour, and the colours that follow are read off the rows.
    ///
    /// Refused exactly where one is no column of the grid, or where they do not settle all columns.
    pub fn new(alloc: Global, grid: &Grid, seeds: &[u8]) -> Result<Seeding, SeedFault>
        ensures determine { IfOk result (λ s. Determine seeds.now grid.now) }
        ensures plan { IfOk result (λ s. IsPlan grid.now s) }
        ensures among { IfOk result (λ s. All (Contains seeds.now) (seed_columns s)) }
        ensures few { IfOk result (λ s. seeds_in s ≤ length seeds.now) }
        ensures fault { IfErr result (λ e. IsFault seeds.now grid.now e) }
    {
        let _size = grid.size();
        for seed in seeds {
            if *seed >= grid.size() {
                return Err(SeedFault::Outside { column: *seed });
            }
        }
        let way = way_of(alloc, grid, seeds)?;
        for column in 0..grid.size() {
            if !way.progress.known[column as usize] {
                return Err(SeedFault::Unsettled { column });
            }
        }
        Ok(Seeding { steps: way.steps })
    }

    /// The steps in their order.
    pub fn steps(&self) -> &[Step]
        ensures { result.now ≡ self.now }
    {
        self.steps.as_slice()
    }

    /// The columns that are seeds, in the order in which they take colours: by a law, they determine each grid of which this is a plan.
    ///
    /// Takes no memory.
    pub fn seeds(&self) -> ArrayVec<u8, MAX_SIZE>
        ensures seeds { result.items ≡ seed_columns self.now }
        ensures count { length result.items ≡ seeds_in self.now }
    {
        let mut seeds = ArrayVec::new();
        for step in self.steps.as_slice() {
            if let Step::Seed { column } = step {
                seeds.push(*column);
            }
        }
        seeds
    }
}

/// Steps, and what is known and read after them.
#[derive(Drop)]
struct Way {
    steps: Vec<Step>,
    progress: SeedProgress,
}

/// The steps by which the seeds settle all columns that they do settle, and what is known and read after them.
fn way_of(alloc: Global, grid: &Grid, seeds: &[u8]) -> Result<Way, AllocFailed<Step>>
    requires columns { All (λ s. s < size grid.now) seeds.now }
    ensures leads { IfOk result (λ w. LeadsBySteps grid.now nothing w.steps.items w.progress) }
    ensures stuck { IfOk result (λ w. next_step grid.now w.progress ≡ None) }
    ensures taken { IfOk result (λ w. All (λ s. is_known w.progress s ≡ true) seeds.now) }
    ensures settled { IfOk result (λ w. (c : ℕ) → is_known w.progress c ≡ true → IsSettled grid.now seeds.now c) }
    ensures among { IfOk result (λ w. All (Contains seeds.now) (seed_columns w.steps.items)) }
    ensures few { IfOk result (λ w. seeds_in w.steps.items ≤ length seeds.now) }
{
    let mut way = Way {
        steps: Vec::new(alloc),
        progress: SeedProgress {
            known: [false; MAX_SIZE],
            read: [false; MAX_SIZE],
        },
    };
    for seed in seeds {
        way = seeded(grid, way, *seed)?;
    }
    let last = settle(grid, way)?;
    Ok(last)
}

/// The way with one seed more, where that is not settled yet, and with all steps that then follow.
fn seeded(grid: &Grid, way: Way, seed: u8) -> Result<Way, AllocFailed<Step>>
    requires column { seed < size grid.now }
    requires leads { LeadsBySteps grid.now nothing way.steps.items way.progress }
    ensures leads { IfOk result (λ w. LeadsBySteps grid.now nothing w.steps.items w.progress) }
    ensures keeps { IfOk result (λ w. HasKnown (is_known w.progress) way.progress) }
    ensures taken { IfOk result (λ w. is_known w.progress seed ≡ true) }
    ensures only { IfOk result (λ w. (p : ℕ → Bool) → IsClosed grid.now p → HasKnown p way.progress → p seed ≡ true → HasKnown p w.progress) }
    ensures seeds { IfOk result (λ w. (seed_columns w.steps.items ≡ seed_columns way.steps.items)
        ⊎ (seed_columns w.steps.items ≡ seed_columns way.steps.items ++ seed ∷ [])) }
    ensures few { IfOk result (λ w. seeds_in w.steps.items ≤ seeds_in way.steps.items + 1) }
{
    let _size = grid.size();
    if way.progress.known[seed as usize] {
        return Ok(way);
    }
    let begun = with_step(grid, way, Step::Seed { column: seed })?;
    settle(grid, begun)
}

/// The way, with all steps that follow from what is known.
fn settle(grid: &Grid, way: Way) -> Result<Way, AllocFailed<Step>>
    requires leads { LeadsBySteps grid.now nothing way.steps.items way.progress }
    ensures leads { IfOk result (λ w. LeadsBySteps grid.now nothing w.steps.items w.progress) }
    ensures stuck { IfOk result (λ w. next_step grid.now w.progress ≡ None) }
    ensures reaches { IfOk result (λ w. Reaches grid.now way.progress w.progress) }
    ensures seeds { IfOk result (λ w. seed_columns w.steps.items ≡ seed_columns way.steps.items) }
    ensures few { IfOk result (λ w. seeds_in w.steps.items ≡ seeds_in way.steps.items) }
{
    let _size = grid.size();
    let mut way = way;
    while let Some(step) = next_step(grid, &way.progress) {
        way = with_step(grid, way, step)?;
    }
    Ok(way)
}

/// The way with one step more.
fn with_step(grid: &Grid, way: Way, step: Step) -> Result<Way, AllocFailed<Step>>
    requires { IsAllowed grid.now way.progress step }
    ensures steps { IfOk result (λ w. w.steps.items ≡ way.steps.items ++ step ∷ []) }
    ensures progress { IfOk result (λ w. w.progress ≡ progress_after grid.now way.progress step) }
{
    let Way {
        mut steps,
        mut progress,
    } = way;
    steps.push(step)?;
    take_step(grid, &mut progress, step);
    Ok(Way { steps, progress })
}
