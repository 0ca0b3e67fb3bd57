//! All passages of a grid in the order of its edges, and where they lead.
ghost use Rattle.std.specs.Prelude.{◌≡◌, ◌≢◌, ◌<◌, ◌≤◌, ◌+◌, ◌^◌, ◌++◌, ℕ, length, IfOk, OnOk};
ghost use Rattle.std.specs.List.{All, AllPairs};
ghost use Rattle.grid_core.specs.declared.grid.TheConstants.{MAX_SIZE};
ghost use Rattle.crossing_codes.specs.declared.layout.TheConstants.{MAX_CELLS};
ghost use Rattle.crossing_codes.specs.Passages.{passages};
ghost use Rattle.crossing_codes.specs.Edges.{edges_after, leads_to, loops};
ghost use Rattle.crossing_codes.specs.Layout.{slot, HasNumbers};

use crate::components::starts;
use crate::layout::{Layout, MAX_CELLS, cell};
use crate::passages::{Passage, push_round};
use memory_core::OutOfMemory;
use std::alloc::{AllocError, Global};

/// How many slots a table by passage has: one for each cell under, and then one for each cell over.
pub(crate) const MAX_SLOTS: usize = MAX_CELLS + MAX_CELLS;

/// What one meets on the way through all components in order.
#[derive(Drop)]
pub(crate) struct Route {
    /// The passages; edge i + 1 leads to passage i.
    pub(crate) passages: Vec<Passage>,
    /// The edge to which each passage leads.
    pub(crate) after: Vec<u32>,
    /// How many components have no passage.
    pub(crate) loops: u32,
}

impl Route {
    /// The route of a grid.
    pub(crate) fn of(alloc: Global, layout: &Layout) -> Result<Route, OutOfMemory>
        ensures passages { IfOk result (λ r. r.passages.items ≡ passages layout.now) }
        ensures after { IfOk result (λ r. r.after.items ≡ edges_after layout.now) }
        ensures loops { IfOk result (λ r. r.loops ≡ length (loops layout.now)) }
    {
        let room = usize::from(layout.size()) * usize::from(layout.size());
        let mut passages = Vec::with_capacity(alloc, room)?;
        let mut after = Vec::with_capacity(alloc, room)?;
        let mut loops = 0;
        let starts = starts(layout);
        for start in starts.as_slice() {
            let before = passages.len();
            push_round(&mut passages, layout, *start)?;
            let count = passages.len() - before;
            push_leads(&mut after, before as u32, count as u32)?;
            if count == 0 {
                loops += 1;
            }
        }
        Ok(Route {
            passages,
            after,
            loops,
        })
    }
}

/// Appends the edge to which each passage of a component leads.
fn push_leads(after: &mut Vec<u32>, before: u32, count: u32) -> Result<(), AllocError>
    requires { before + count < 2 ^ 32 }
    ensures { OnOk result (after.new.items ≡ after.old.items ++ leads_to before count) }
{
    for done in 0..count {
        let next = if done + 1 < count {
            before + done + 2
        } else {
            before + 1
        };
        after.push(next)?;
    }
    Ok(())
}

/// A table by slot of the numbers, from 0, that the passages have in the list.
pub(crate) fn numbers_of(passages: &[Passage]) -> [u16; MAX_SLOTS]
    requires few { length passages.now ≤ MAX_SLOTS }
    requires inside { All (λ p. (p.column < MAX_SIZE) × (p.row < MAX_SIZE)) passages.now }
    requires apart { AllPairs (λ p q. p ≢ q) passages.now }
    ensures { HasNumbers passages.now result }
{
    let mut numbers = [0; MAX_SLOTS];
    for number in 0..passages.len() {
        numbers[slot(passages[number])] = number as u16;
    }
    numbers
}

/// The slot of a passage in a table.
pub(crate) fn slot(passage: Passage) -> usize
    requires { (passage.column < MAX_SIZE) × (passage.row < MAX_SIZE) }
    ensures is { result ≡ slot passage }
    ensures within { result < MAX_SLOTS }
{
    let cell = cell(passage.column, passage.row);
    if passage.over { MAX_CELLS + cell } else { cell }
}
