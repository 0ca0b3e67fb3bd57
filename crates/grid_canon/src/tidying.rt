//! Lists of moves, tidied.
ghost use Rattle.std.specs.Prelude.{◌≡◌, ◌<◌, ◌≤◌, ◌+◌, ◌%◌, ◌++◌, ◌∷◌, ℕ, List, IfOk, true, false};
ghost use Rattle.grid_core.specs.declared.grid.TheConstants.{MAX_SIZE};
ghost use Rattle.grid_core.specs.Diagram.{Diagram, size};
ghost use Rattle.grid_moves.specs.Joining.{Joins, JoinsWithin};
ghost use Rattle.grid_moves.specs.SizeAfter.{size_after};
ghost use Rattle.grid_moves.specs.Step.{Step};
ghost use Rattle.grid_moves.specs.Kinds.{is_shift};
ghost use Rattle.grid_moves.specs.Tidy.{is_tidy};
ghost use Rattle.grid_canon.specs.Tidied.{tidied};

use grid_core::Grid;
use grid_keys::push_shifts;
use grid_moves::Move;
use memory_core::OutOfMemory;
use std::alloc::Global;

/// A tidy list that leads from a grid to where these moves lead, which must be legal from it: in each run of shifts those of columns are added,
/// and those of rows, round the circle; the shift of columns comes first, and a shift by 0 is left out. No diagram on the way is larger
/// than the largest on the way of the given moves.
pub fn tidy(alloc: Global, first: &Grid, steps: &[Move]) -> Result<Vec<Move>, OutOfMemory>
    requires { (e : Diagram) × Joins first.now steps.now e }
    ensures is { IfOk result (λ list. list.items ≡ tidied (size first.now) 0 0 steps.now) }
    ensures tidy { IfOk result (λ list. is_tidy list.items ≡ true) }
    ensures joins { IfOk result (λ list. (e : Diagram) → Joins first.now steps.now e → Joins first.now list.items e) }
    ensures within { IfOk result (λ list. (cap : ℕ) (e : Diagram)
        → JoinsWithin cap first.now steps.now e
        → JoinsWithin cap first.now list.items e) }
{
    let mut list = Vec::new(alloc);
    let mut run = Run {
        size: first.size(),
        columns: 0,
        rows: 0,
    };
    for step in steps {
        run = taken(&mut list, run, *step)?;
    }
    push_shifts(&mut list, run.columns, run.rows)?;
    Ok(list)
}

/// Shifts that are not written yet, of a diagram of so many columns: by less than as many.
#[derive(Clone, Copy)]
struct Run {
    size: u8,
    columns: u8,
    rows: u8,
}

/// The run after one more move: a shift is added, any other move is written after the shifts.
fn taken(list: &mut Vec<Move>, run: Run, step: Move) -> Result<Run, OutOfMemory>
    requires legal { (d : Diagram) × ((e : Diagram) × (Step d step e × (size d ≡ run.size))) }
    requires columns { run.columns < run.size }
    requires rows { run.rows < run.size }
    ensures columns { IfOk result (λ next. next.columns < next.size) }
    ensures rows { IfOk result (λ next. next.rows < next.size) }
    ensures size { IfOk result (λ next. next.size ≡ size_after step run.size) }
    ensures list { IfOk result (λ next. (rest : List Move)
        → list.new.items ++ tidied next.size next.columns next.rows rest
        ≡ list.old.items ++ tidied run.size run.columns run.rows (step ∷ rest)) }
{
    match step {
        Move::ShiftColumns(k) => Ok(Run {
            columns: round(run.columns, k, run.size),
            ..run
        }),
        Move::ShiftRows(k) => Ok(Run {
            rows: round(run.rows, k, run.size),
            ..run
        }),
        Move::ExchangeColumns(_)
        | Move::ExchangeRows(_)
        | Move::SlideColumns(_)
        | Move::SlideRows(_)
        | Move::Stabilise { .. }
        | Move::Destabilise { .. } => written(list, run, step),
    }
}

/// The shifts of a run and a move that is no shift, written; after it there is no shift.
fn written(list: &mut Vec<Move>, run: Run, step: Move) -> Result<Run, OutOfMemory>
    requires legal { (d : Diagram) × ((e : Diagram) × (Step d step e × (size d ≡ run.size))) }
    requires other { is_shift step ≡ false }
    ensures columns { IfOk result (λ next. next.columns < next.size) }
    ensures rows { IfOk result (λ next. next.rows < next.size) }
    ensures size { IfOk result (λ next. next.size ≡ size_after step run.size) }
    ensures list { IfOk result (λ next. (rest : List Move)
        → list.new.items ++ tidied next.size next.columns next.rows rest
        ≡ list.old.items ++ tidied run.size run.columns run.rows (step ∷ rest)) }
{
    push_shifts(list, run.columns, run.rows)?;
    list.push(step)?;
    Ok(Run {
        size: size_after(step, run.size),
        columns: 0,
        rows: 0,
    })
}

/// The number of columns of the result of a move on a diagram of so many.
fn size_after(step: Move, size: u8) -> u8
    requires least { 0 < size }
    requires most { size ≤ MAX_SIZE }
    ensures { result ≡ size_after step size }
{
    match step {
        Move::Stabilise { .. } => size + 1,
        Move::Destabilise { .. } => size - 1,
        Move::ShiftColumns(_)
        | Move::ShiftRows(_)
        | Move::ExchangeColumns(_)
        | Move::ExchangeRows(_)
        | Move::SlideColumns(_)
        | Move::SlideRows(_) => size,
    }
}

/// The sum of two shifts, round the circle.
fn round(one: u8, other: u8, size: u8) -> u8
    requires most { size ≤ MAX_SIZE }
    requires one { one < size }
    requires other { other < size }
    ensures { result ≡ (one + other) % size }
{
    (one + other) % size
}
