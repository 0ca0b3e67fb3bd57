//! What a side knows of where its excursions may start.

use crate::table::{Side, Table};
use memory_core::OutOfMemory;
use rand_pcg::Pcg32;
use std::alloc::Global;
use torus_grids::below;

/// One excursion of so many starts anywhere among the least forms, the others where the last one ended.
const FRESH: u32 = 24;

/// The forms of the least size that a side has reached.
#[derive(Drop)]
pub(crate) struct Camp {
    pub(crate) side: Side,
    /// The least size.
    pub(crate) low: u8,
    /// Where the last excursion ended.
    pub(crate) last: usize,
    /// The numbers of the forms at which an excursion landed at this size.
    least: Vec<usize>,
}

impl Camp {
    /// The camp at the form of the side's diagram.
    pub(crate) fn new(
        alloc: Global,
        side: Side,
        root: usize,
        size: u8,
    ) -> Result<Camp, OutOfMemory> {
        let mut least = Vec::new(alloc);
        least.push(root)?;
        Ok(Camp {
            side,
            low: size,
            last: root,
            least,
        })
    }

    /// Goes down to a size below all others so far.
    pub(crate) fn lower(&mut self, size: u8) {
        self.low = size;
        self.least.clear();
    }

    /// Keeps a form at which an excursion landed.
    pub(crate) fn land(&mut self, number: usize) -> Result<(), OutOfMemory> {
        self.least.push(number)?;
        Ok(())
    }

    /// Where the next excursion starts.
    pub(crate) fn start(&self, table: &Table, generator: &mut Pcg32) -> usize {
        if below(generator, FRESH) == 0 || !self.is_least(table, self.last) {
            self.shallow(table, generator)
        } else {
            self.last
        }
    }

    /// Whether a form has the least size.
    fn is_least(&self, table: &Table, number: usize) -> bool {
        match table.get(number) {
            Some((form, _)) => form.size() == self.low,
            None => false,
        }
    }

    /// The one of least depth of three random ones of the least forms.
    fn shallow(&self, table: &Table, generator: &mut Pcg32) -> usize {
        let mut best = self.any(generator);
        for _turn in 0..2 {
            let other = self.any(generator);
            if table.depth(other) < table.depth(best) {
                best = other;
            }
        }
        best
    }

    /// A random one of the least forms.
    fn any(&self, generator: &mut Pcg32) -> usize {
        let count = self.least.len().min(u32::MAX as usize) as u32;
        let place = below(generator, count) as usize;
        self.least.get(place).copied().unwrap_or(self.last)
    }
}
