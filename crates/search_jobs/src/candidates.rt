//! The moves among which a word picks.
ghost use Rattle.std.specs.Prelude.{◌≡◌, ◌<◌, ◌≤◌, ◌+◌, ◌-◌, ◌*◌, ◌∷◌, [], length, map};
ghost use Rattle.std.specs.List.{range_with_len, flat_map};
ghost use Rattle.grid_core.specs.Diagram.{size};
ghost use Rattle.grid_core.specs.Corners.{corners};
ghost use Rattle.search_jobs.specs.declared.walk.TheConstants.{LARGEST};
ghost use Rattle.search_jobs.specs.declared.candidates.TheConstants.{MOST_TRIES};
ghost use Rattle.grid_moves.specs.MoveLists.{column_shift, row_shift, column_exchange, row_exchange};
ghost use Rattle.grid_moves.specs.MoveLists.{destabilisation, destabilisations, stabilisation, stabilisations};
ghost use Rattle.search_jobs.specs.Candidates.{is_candidate, candidate_moves};
ghost use Rattle.search_jobs.specs.Listed.{Adds, steps_of};

use crate::walk::LARGEST;
use arrayvec::ArrayVec;
use grid_core::{Corner, Grid, Kind};
use grid_moves::{Move, apply};

/// The greatest number of moves that are tried.
pub(crate) const MOST_TRIES: usize = 4 * (LARGEST - 1)
    + (LARGEST - 1) * (LARGEST - 1)
    + 8 * LARGEST;

/// A move that may be picked.
#[derive(Clone, Copy)]
pub(crate) struct Candidate {
    pub(crate) step: Move,
}

/// The blank with which an array of candidates begins: no move.
impl Default for Candidate {
    ghost use Rattle.std.specs.Prelude.{◌≡◌};
    ghost use Rattle.grid_moves.specs.declared.step.Move.TheVariants.{ShiftColumns};

    ghost is_default = { λ c. c ≡ record { step = ShiftColumns 0 } };

    fn default() -> Candidate {
        Candidate {
            step: Move::ShiftColumns(0),
        }
    }
}

/// Candidates in the making.
pub(crate) type CandidateList = ArrayVec<Candidate, MOST_TRIES>;

/// The candidates on a grid, in order.
pub(crate) fn candidates(grid: &Grid) -> CandidateList
    requires { size grid.now ≤ LARGEST }
    ensures { steps_of result.items ≡ candidate_moves grid.now }
{
    let _size = grid.size();
    let mut list = ArrayVec::new();
    shift_columns(&mut list, grid);
    shift_rows(&mut list, grid);
    exchange_columns(&mut list, grid);
    exchange_rows(&mut list, grid);
    destabilise(&mut list, grid);
    stabilise(&mut list, grid);
    list
}

/// Whether a move is a candidate.
fn is_candidate(grid: &Grid, step: Move) -> bool
    ensures { result ≡ is_candidate grid.now step }
{
    match apply(grid, step) {
        Ok(moved) => moved.size() as usize <= LARGEST,
        Err(_) => false,
    }
}

/// Appends a move, where it is a candidate.
fn try_move(list: &mut CandidateList, grid: &Grid, step: Move)
    requires room { length list.old.items < MOST_TRIES }
    ensures added { Adds grid.now (step ∷ []) list.old.items list.new.items }
    ensures fits { length list.new.items ≤ length list.old.items + 1 }
{
    if is_candidate(grid, step) {
        list.push(Candidate { step });
    }
}

/// Appends the shifts of columns.
fn shift_columns(list: &mut CandidateList, grid: &Grid)
    requires room { length list.old.items + size grid.now ≤ MOST_TRIES + 1 }
    ensures added { Adds grid.now (map column_shift (range_with_len 1 (size grid.now - 1))) list.old.items list.new.items }
    ensures fits { length list.new.items + 1 ≤ length list.old.items + size grid.now }
{
    for k in 1..grid.size() {
        try_move(list, grid, Move::ShiftColumns(k));
    }
}

/// Appends the shifts of rows.
fn shift_rows(list: &mut CandidateList, grid: &Grid)
    requires room { length list.old.items + size grid.now ≤ MOST_TRIES + 1 }
    ensures added { Adds grid.now (map row_shift (range_with_len 1 (size grid.now - 1))) list.old.items list.new.items }
    ensures fits { length list.new.items + 1 ≤ length list.old.items + size grid.now }
{
    for k in 1..grid.size() {
        try_move(list, grid, Move::ShiftRows(k));
    }
}

/// Appends the exchanges of columns.
fn exchange_columns(list: &mut CandidateList, grid: &Grid)
    requires room { length list.old.items + size grid.now ≤ MOST_TRIES + 1 }
    ensures added { Adds grid.now (map column_exchange (range_with_len 0 (size grid.now - 1))) list.old.items list.new.items }
    ensures fits { length list.new.items + 1 ≤ length list.old.items + size grid.now }
{
    for c in 0..grid.size() - 1 {
        try_move(list, grid, Move::ExchangeColumns(c));
    }
}

/// Appends the exchanges of rows.
fn exchange_rows(list: &mut CandidateList, grid: &Grid)
    requires room { length list.old.items + size grid.now ≤ MOST_TRIES + 1 }
    ensures added { Adds grid.now (map row_exchange (range_with_len 0 (size grid.now - 1))) list.old.items list.new.items }
    ensures fits { length list.new.items + 1 ≤ length list.old.items + size grid.now }
{
    for r in 0..grid.size() - 1 {
        try_move(list, grid, Move::ExchangeRows(r));
    }
}

/// Appends the destabilisations, by column and then by row.
fn destabilise(list: &mut CandidateList, grid: &Grid)
    requires size { size grid.now ≤ LARGEST }
    requires room { length list.old.items + (LARGEST - 1) * (LARGEST - 1) ≤ MOST_TRIES }
    ensures added { Adds grid.now (flat_map (destabilisations (size grid.now)) (range_with_len 0 (size grid.now - 1))) list.old.items list.new.items }
    ensures fits { length list.new.items ≤ length list.old.items + (LARGEST - 1) * (LARGEST - 1) }
{
    for c in 0..grid.size() - 1 {
        destabilise_column(list, grid, c);
    }
}

/// Appends the destabilisations at a column, by row.
fn destabilise_column(list: &mut CandidateList, grid: &Grid, column: u8)
    requires size { size grid.now ≤ LARGEST }
    requires room { length list.old.items + (LARGEST - 1) ≤ MOST_TRIES }
    ensures added { Adds grid.now (destabilisations (size grid.now) column) list.old.items list.new.items }
    ensures fits { length list.new.items ≤ length list.old.items + (LARGEST - 1) }
{
    for row in 0..grid.size() - 1 {
        try_move(list, grid, Move::Destabilise { column, row });
    }
}

/// Appends the stabilisations, by column, kind and corner.
fn stabilise(list: &mut CandidateList, grid: &Grid)
    requires room { length list.old.items + 8 * size grid.now ≤ MOST_TRIES }
    ensures added { Adds grid.now (flat_map stabilisations (range_with_len 0 (size grid.now))) list.old.items list.new.items }
    ensures fits { length list.new.items ≤ length list.old.items + 8 * size grid.now }
{
    for c in 0..grid.size() {
        stabilise_mark(list, grid, c, Kind::Cross);
        stabilise_mark(list, grid, c, Kind::Ring);
    }
}

/// Appends the four stabilisations at the mark of a kind in a column.
fn stabilise_mark(list: &mut CandidateList, grid: &Grid, column: u8, kind: Kind)
    requires room { length list.old.items + 4 ≤ MOST_TRIES }
    ensures added { Adds grid.now (map (stabilisation column kind) corners) list.old.items list.new.items }
    ensures fits { length list.new.items ≤ length list.old.items + 4 }
{
    for corner in Corner::ALL {
        let step = Move::Stabilise {
            column,
            kind,
            corner,
        };
        try_move(list, grid, step);
    }
}
