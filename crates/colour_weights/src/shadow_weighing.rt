//! The weight of a colouring with a colour of the outer region, and the weights of all.
ghost use Rattle.std.specs.Prelude.{◌≡◌, ◌<◌, ◌≤◌, ◌⊎◌, ◌+◌, ◌-◌, ◌^◌, ◌==◌, Err, false, count_by, map, length, slice_index, slice_set, IfOk, IfErr};
ghost use Rattle.std.specs.List.{All, range_with_len, sum_by};
ghost use Rattle.colour_list.specs.declared.limits.TheConstants.{MAX_COLOURINGS};
ghost use Rattle.grid_core.specs.Diagram.{size};
ghost use Rattle.grid_core.specs.Parts.{bottoms};
ghost use Rattle.colour_rows.specs.Colouring.{IsColouring};
ghost use Rattle.colour_list.specs.declared.limits.ListFault.TheVariants as fault;
ghost use Rattle.colour_list.specs.Fits.{fits};
ghost use Rattle.colour_list.specs.Listing.{colourings, lists_of};
ghost use Rattle.colour_weights.specs.ShadowWeight.{shadow_weight};
ghost use Rattle.colour_weights.specs.ShadowWalkSum.{shadow_weight_by_rows};
ghost use Rattle.colour_weights.specs.ShadowWeights.{shadow_weights};

use crate::counts::{count_one, zeros};
use crate::shadow_walker::shadow_row_weight;
use crate::sums::plus;
use cocycle_core::ShadowCocycle;
use colour_list::{ListFault, list};
use colour_rows::Colouring;
use grid_core::Grid;
use std::alloc::Global;

/// The weight of a colouring by the cocycle's quandle with a colour of the outer region: the sum, mod the modulus, of the sign of each crossing
/// times `θ(w, x, y)`: y is the colour of the column, x that of the strand under it on the column's right-hand side, w that of the region there.
///
/// Takes no memory.
pub fn shadow_weight(grid: &Grid, cocycle: &ShadowCocycle, colours: &Colouring, outer: u8) -> u8
    requires colouring { IsColouring cocycle.now.quandle grid.now colours.now.items }
    requires outer { outer < cocycle.now.quandle.order }
    ensures weight { result ≡ shadow_weight cocycle.now grid.now colours.now.items outer }
    ensures below { result < cocycle.now.modulus }
{
    let _size = grid.size();
    let _modulus = cocycle.modulus();
    by_rows(grid, cocycle, colours, outer)
}

/// The weight of a colouring with a colour of the outer region: the sum of the weights of the rows, mod the modulus.
fn by_rows(grid: &Grid, cocycle: &ShadowCocycle, colours: &Colouring, outer: u8) -> u8
    requires colouring { IsColouring cocycle.now.quandle grid.now colours.now.items }
    requires outer { outer < cocycle.now.quandle.order }
    ensures weight { result ≡ shadow_weight_by_rows cocycle.now grid.now colours.now.items outer }
    ensures below { result < cocycle.now.modulus }
{
    let modulus = cocycle.modulus();
    let mut sum = 0;
    for row in 0..grid.size() {
        sum = plus(
            modulus,
            sum,
            shadow_row_weight(grid, cocycle, colours.as_slice(), outer, row),
        );
    }
    sum
}

/// For each weight from 0 to the modulus less one, the number of pairs of a colouring of the grid and a colour of the outer region that have it.
///
/// `TooWide` exactly where the cocycle's quandle does not fit the grid.
pub fn shadow_weights(
    alloc: Global,
    grid: &Grid,
    cocycle: &ShadowCocycle,
) -> Result<Vec<u32>, ListFault>
    ensures weights { IfOk result (λ v. v.items ≡ shadow_weights cocycle.now grid.now) }
    ensures wide { fits cocycle.now.quandle grid.now ≡ false → result ≡ Err (fault.TooWide (bottoms grid.now)) }
    ensures fault { IfErr result (λ e. e ≡ fault.OutOfMemory ⊎ (fits cocycle.now.quandle grid.now ≡ false) × (e ≡ fault.TooWide (bottoms grid.now))) }
{
    let list = list(alloc, grid, cocycle.quandle())?;
    let mut counts = zeros(alloc, cocycle.modulus())?;
    tally(grid, cocycle, list.as_slice(), counts.as_mut_slice());
    Ok(counts)
}

/// Counts the weights of all colourings with each colour of the outer region, where nothing was counted before.
fn tally(grid: &Grid, cocycle: &ShadowCocycle, list: &[Colouring], counts: &mut [u32])
    requires complete { lists_of list.now ≡ colourings cocycle.now.quandle grid.now }
    requires colourings { All (λ c. IsColouring cocycle.now.quandle grid.now c.items) list.now }
    requires few { length list.now ≤ MAX_COLOURINGS }
    requires none { counts.old ≡ map (λ v. 0) (range_with_len 0 cocycle.now.modulus) }
    ensures { counts.new ≡ shadow_weights cocycle.now grid.now }
{
    for outer in 0..cocycle.quandle().order() {
        tally_with(grid, cocycle, list, outer, counts);
    }
}

/// Counts the weights of all colourings with one colour of the outer region, where they were counted with all lesser ones.
fn tally_with(
    grid: &Grid,
    cocycle: &ShadowCocycle,
    list: &[Colouring],
    outer: u8,
    counts: &mut [u32],
)
    requires colourings { All (λ c. IsColouring cocycle.now.quandle grid.now c.items) list.now }
    requires few { length list.now ≤ MAX_COLOURINGS }
    requires outer { outer < cocycle.now.quandle.order }
    requires before { counts.old ≡ map (λ v. sum_by (λ u. count_by (λ c. shadow_weight cocycle.now grid.now c.items u == v) list.now)
        (range_with_len 0 outer)) (range_with_len 0 cocycle.now.modulus) }
    ensures { counts.new ≡ map (λ v. sum_by (λ u. count_by (λ c. shadow_weight cocycle.now grid.now c.items u == v) list.now)
        (range_with_len 0 (outer + 1))) (range_with_len 0 cocycle.now.modulus) }
{
    let _order = cocycle.quandle().order();
    for colours in list {
        count_one(counts, shadow_weight(grid, cocycle, colours, outer));
    }
}
