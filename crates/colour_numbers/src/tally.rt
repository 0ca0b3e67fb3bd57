//! The counts by weight of all lists of colours that the choices of a colour for each seed give.
ghost use Rattle.std.specs.Prelude.{◌≡◌, ◌<◌, ◌≤◌, ◌+◌, ◌*◌, ◌^◌, ℕ, IfErr, IfOk, length, map, replicate, slice_index};
ghost use Rattle.std.specs.List.{All, flat_map, range_with_len};
ghost use Rattle.grid_core.specs.declared.grid.TheConstants.{MAX_SIZE};
ghost use Rattle.grid_core.specs.Diagram.{size};
ghost use Rattle.colour_rows.specs.Colouring.{AreColours};
ghost use Rattle.colour_rows.specs.Equation.{equation};
ghost use Rattle.colour_list.specs.Level.{spread};
ghost use Rattle.colour_seeds.specs.declared.counting.TheConstants.{MAX_CANDIDATES};
ghost use Rattle.colour_seeds.specs.declared.counting.CountFault.TheVariants as fault;
ghost use Rattle.colour_seeds.specs.Plan.{IsPlan, seeds_in};
ghost use Rattle.colour_seeds.specs.Leaves.{IsInside, leaves};
ghost use Rattle.colour_numbers.specs.Tallies.{tallied, tally};

use crate::weigher::Weigher;
use colour_rows::Row;
use colour_seeds::settling::{SettledColours, passes};
use colour_seeds::{CountFault, Seeding, Step, rows_of};
use colour_weights::counts::zeros;
use grid_core::{Grid, MAX_SIZE};
use std::alloc::Global;

/// For each weight, how often the colourings that the seeds of a plan give have it. The colourings are not kept.
///
/// The seeds are to have few choices of colours. It fails only if memory runs out.
pub(crate) fn tally_all<W: Weigher>(
    alloc: Global,
    grid: &Grid,
    weigher: &W,
    seeding: &Seeding,
) -> Result<Vec<u32>, CountFault>
    requires plan { IsPlan grid.now seeding.now }
    requires few { (W.quandle weigher.now).order ^ seeds_in seeding.now * W.choices weigher.now ≤ MAX_CANDIDATES }
    ensures counts { IfOk result (λ v. v.items ≡ tally (W.modulus weigher.now) (W.often weigher.now)
        (leaves (W.quandle weigher.now) grid.now seeding.now (replicate MAX_SIZE 0))) }
    ensures fault { IfErr result (λ e. e ≡ fault.OutOfMemory) }
{
    let _size = grid.size();
    let _order = weigher.quandle().order();
    let rows = rows_of(alloc, grid)?;
    let mut counts = zeros(alloc, weigher.modulus())?;
    let mut blank = [0; MAX_SIZE];
    let begun = Tally {
        grid,
        rows: rows.as_slice(),
        weigher,
    };
    begun.tally_from(seeding.steps(), &mut blank, counts.as_mut_slice());
    Ok(counts)
}

/// A grid with its rows, from the lowest upward, and what weighs lists of colours of its columns.
#[derive(Drop)]
struct Tally<'a, W> {
    grid: &'a Grid,
    rows: &'a [Row],
    weigher: &'a W,
}

impl<'a, W: Weigher> Tally<'a, W> {
    /// Counts the weights of the lists that the steps make of one, on top of what was counted before.
    #[cycle(tally)]
    fn tally_from(&self, steps: &[Step], colours: &mut SettledColours, counts: &mut [u32])
        requires rows { self.now.rows.now ≡ map (equation self.now.grid.now) (range_with_len 0 (size self.now.grid.now)) }
        requires inside { All (IsInside self.now.grid.now) steps.now }
        requires colours { AreColours MAX_SIZE (W.quandle self.now.weigher.now).order colours.old }
        requires long { length counts.old ≡ W.modulus self.now.weigher.now }
        requires room { (v : ℕ) → v < W.modulus self.now.weigher.now
            → slice_index counts.old v + (W.quandle self.now.weigher.now).order ^ seeds_in steps.now * W.choices self.now.weigher.now < 2 ^ 32 }
        ensures { counts.new ≡ tallied (W.modulus self.now.weigher.now) (W.often self.now.weigher.now) counts.old
            (leaves (W.quandle self.now.weigher.now) self.now.grid.now steps.now colours.old) }
    {
        let _size = self.grid.size();
        let quandle = self.weigher.quandle();
        let _order = quandle.order();
        let Some((step, rest)) = steps.split_first() else {
            self.weigher.add(colours, counts);
            return;
        };
        if let Some(column) = step.seed() {
            self.tally_each(rest, colours, column, counts);
        } else if passes(self.grid, self.rows, quandle, *step, colours) {
            self.tally_from(rest, colours, counts);
        }
    }

    /// Counts the weights of the lists that the steps make of one with each colour of a seed, on top of what was counted before.
    #[cycle(tally)]
    fn tally_each(&self, steps: &[Step], colours: &SettledColours, column: u8, counts: &mut [u32])
        requires rows { self.now.rows.now ≡ map (equation self.now.grid.now) (range_with_len 0 (size self.now.grid.now)) }
        requires inside { All (IsInside self.now.grid.now) steps.now }
        requires colours { AreColours MAX_SIZE (W.quandle self.now.weigher.now).order colours.now }
        requires column { column < size self.now.grid.now }
        requires long { length counts.old ≡ W.modulus self.now.weigher.now }
        requires room { (v : ℕ) → v < W.modulus self.now.weigher.now → slice_index counts.old v
            + (W.quandle self.now.weigher.now).order * (W.quandle self.now.weigher.now).order ^ seeds_in steps.now * W.choices self.now.weigher.now < 2 ^ 32 }
        ensures { counts.new ≡ tallied (W.modulus self.now.weigher.now) (W.often self.now.weigher.now) counts.old
            (flat_map (leaves (W.quandle self.now.weigher.now) self.now.grid.now steps.now)
            (spread (W.quandle self.now.weigher.now).order column colours.now)) }
    {
        let _size = self.grid.size();
        let quandle = self.weigher.quandle();
        let _order = quandle.order();
        for colour in 0..quandle.order() {
            let mut begun = *colours;
            begun[column as usize] = colour;
            self.tally_from(steps, &mut begun, counts);
        }
    }
}
