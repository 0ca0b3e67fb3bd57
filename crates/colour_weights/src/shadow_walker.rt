//! The weighted walk of a row by a shadow cocycle, with the colour of the region on its right-hand side.
ghost use Rattle.std.specs.Prelude.{◌≡◌, ◌<◌, ◌+◌, slice_index, if◌then◌else◌};
ghost use Rattle.grid_core.specs.Diagram.{size};
ghost use Rattle.grid_core.specs.Parts.{ends, covers, is_up, is_rightward};
ghost use Rattle.quandle_core.specs.Quandle.{back};
ghost use Rattle.colour_rows.specs.Walk.{passed_rightward};
ghost use Rattle.colour_rows.specs.Colouring.{AreColours};
ghost use Rattle.colour_weights.specs.ShadowWalkSum.{shadow_gain, shadow_stepped, region_left, region_start, shadow_walked, shadow_row_weight};

use crate::sums::{minus, plus};
use cocycle_core::ShadowCocycle;
use colour_rows::passed_rightward;
use grid_core::Grid;

/// The state of the walk of a row: the colour of the strand, that of the region on its right-hand side, and the weighted sum so far.
#[derive(Clone, Copy)]
pub struct ShadowWalker {
    pub colour: u8,
    pub region: u8,
    pub sum: u8,
}

/// The weight of a row by a shadow cocycle, with a colour of the outer region.
pub(crate) fn shadow_row_weight(
    grid: &Grid,
    cocycle: &ShadowCocycle,
    colours: &[u8],
    outer: u8,
    row: u8,
) -> u8
    requires row { row < size grid.now }
    requires colours { AreColours (size grid.now) cocycle.now.quandle.order colours.now }
    requires outer { outer < cocycle.now.quandle.order }
    ensures weight { result ≡ shadow_row_weight cocycle.now grid.now colours.now outer row }
    ensures below { result < cocycle.now.modulus }
{
    let sum = shadow_walked(grid, cocycle, colours, outer, row).sum;
    if grid.is_rightward(row) {
        sum
    } else {
        minus(cocycle.modulus(), sum)
    }
}

/// The colour of the region left of the left end of a row.
fn region_left(grid: &Grid, cocycle: &ShadowCocycle, colours: &[u8], outer: u8, row: u8) -> u8
    requires row { row < size grid.now }
    requires colours { AreColours (size grid.now) cocycle.now.quandle.order colours.now }
    requires outer { outer < cocycle.now.quandle.order }
    ensures region { result ≡ region_left cocycle.now.quandle grid.now colours.now outer row }
    ensures below { result < cocycle.now.quandle.order }
{
    let _size = grid.size();
    let _order = cocycle.quandle().order();
    let (left, _right) = grid.ends(row);
    let mut region = outer;
    for column in 0..left {
        region = across(grid, cocycle, region, row, column, colours[column as usize]);
    }
    region
}

/// The colour of a region after a column of colour y, in a row.
fn across(grid: &Grid, cocycle: &ShadowCocycle, region: u8, row: u8, column: u8, y: u8) -> u8
    requires column { column < size grid.now }
    requires colours { (region < cocycle.now.quandle.order) × (y < cocycle.now.quandle.order) }
    ensures across { result ≡ (if covers grid.now column row then passed_rightward cocycle.now.quandle (is_up grid.now column) region y else region) }
    ensures below { result < cocycle.now.quandle.order }
{
    if grid.covers(column, row) {
        passed_rightward(cocycle.quandle(), grid.is_up(column), region, y)
    } else {
        region
    }
}

/// The colour of the region on the right-hand side of the left end of a row: after an up column, before a down one.
fn region_start(grid: &Grid, cocycle: &ShadowCocycle, colours: &[u8], outer: u8, row: u8) -> u8
    requires row { row < size grid.now }
    requires colours { AreColours (size grid.now) cocycle.now.quandle.order colours.now }
    requires outer { outer < cocycle.now.quandle.order }
    ensures region { result ≡ region_start cocycle.now.quandle grid.now colours.now outer row }
    ensures below { result < cocycle.now.quandle.order }
{
    let _size = grid.size();
    let _order = cocycle.quandle().order();
    let (left, _right) = grid.ends(row);
    let region = region_left(grid, cocycle, colours, outer, row);
    let behind = grid.is_up(left);
    if behind {
        passed_rightward(cocycle.quandle(), behind, region, colours[left as usize])
    } else {
        region
    }
}

/// The walker at the left end of a row.
fn set_out(grid: &Grid, cocycle: &ShadowCocycle, colours: &[u8], outer: u8, row: u8) -> ShadowWalker
    requires row { row < size grid.now }
    requires colours { AreColours (size grid.now) cocycle.now.quandle.order colours.now }
    requires outer { outer < cocycle.now.quandle.order }
    ensures start { result ≡ record {
      colour = slice_index colours.now (ends grid.now row).low;
      region = region_start cocycle.now.quandle grid.now colours.now outer row;
      sum = 0;
    } }
    ensures below { (result.colour < cocycle.now.quandle.order) × (result.region < cocycle.now.quandle.order) × (result.sum < cocycle.now.modulus) }
{
    let _size = grid.size();
    let _modulus = cocycle.modulus();
    let _order = cocycle.quandle().order();
    let (left, _right) = grid.ends(row);
    let region = region_start(grid, cocycle, colours, outer, row);
    ShadowWalker {
        colour: colours[left as usize],
        region,
        sum: 0,
    }
}

/// The walk of a row from its left end to its right end.
fn shadow_walked(
    grid: &Grid,
    cocycle: &ShadowCocycle,
    colours: &[u8],
    outer: u8,
    row: u8,
) -> ShadowWalker
    requires row { row < size grid.now }
    requires colours { AreColours (size grid.now) cocycle.now.quandle.order colours.now }
    requires outer { outer < cocycle.now.quandle.order }
    ensures walked { result ≡ shadow_walked cocycle.now grid.now colours.now outer row }
    ensures below { result.sum < cocycle.now.modulus }
{
    let _size = grid.size();
    let _modulus = cocycle.modulus();
    let _order = cocycle.quandle().order();
    let (left, right) = grid.ends(row);
    let mut at = set_out(grid, cocycle, colours, outer, row);
    for column in left + 1..right {
        at = shadow_past(grid, cocycle, at, (column, row), colours[column as usize]);
    }
    at
}

/// A walker after a cell, a column of colour y and a row: it passes under the column where this covers the row.
fn shadow_past(
    grid: &Grid,
    cocycle: &ShadowCocycle,
    at: ShadowWalker,
    cell: (u8, u8),
    y: u8,
) -> ShadowWalker
    requires column { cell.0 < size grid.now }
    requires colours { (at.colour < cocycle.now.quandle.order) × (at.region < cocycle.now.quandle.order) × (y < cocycle.now.quandle.order) }
    requires sum { at.sum < cocycle.now.modulus }
    ensures past { result ≡ (if covers grid.now cell.0 cell.1 then shadow_stepped cocycle.now (is_up grid.now cell.0) at y else at) }
    ensures below { (result.colour < cocycle.now.quandle.order) × (result.region < cocycle.now.quandle.order) × (result.sum < cocycle.now.modulus) }
{
    let (column, row) = cell;
    if grid.covers(column, row) {
        shadow_stepped(cocycle, grid.is_up(column), at, y)
    } else {
        at
    }
}

/// A walker under a column of colour y.
fn shadow_stepped(cocycle: &ShadowCocycle, up: bool, at: ShadowWalker, y: u8) -> ShadowWalker
    requires colours { (at.colour < cocycle.now.quandle.order) × (at.region < cocycle.now.quandle.order) × (y < cocycle.now.quandle.order) }
    requires sum { at.sum < cocycle.now.modulus }
    ensures stepped { result ≡ shadow_stepped cocycle.now up at y }
    ensures below { (result.colour < cocycle.now.quandle.order) × (result.region < cocycle.now.quandle.order) × (result.sum < cocycle.now.modulus) }
{
    let _modulus = cocycle.modulus();
    let gained = shadow_gain(cocycle, up, at.region, at.colour, y);
    ShadowWalker {
        colour: passed_rightward(cocycle.quandle(), up, at.colour, y),
        region: passed_rightward(cocycle.quandle(), up, at.region, y),
        sum: plus(cocycle.modulus(), at.sum, gained),
    }
}

/// What a walk at colour x, with a region of colour w on its right-hand side, gains under a column of colour y.
fn shadow_gain(cocycle: &ShadowCocycle, up: bool, w: u8, x: u8, y: u8) -> u8
    requires { (w < cocycle.now.quandle.order) × (x < cocycle.now.quandle.order) × (y < cocycle.now.quandle.order) }
    ensures gain { result ≡ shadow_gain cocycle.now up w x y }
    ensures below { result < cocycle.now.modulus }
{
    let _modulus = cocycle.modulus();
    let _order = cocycle.quandle().order();
    if up {
        let region = cocycle.quandle().back(w, y);
        let before = cocycle.quandle().back(x, y);
        minus(cocycle.modulus(), cocycle.value(region, before, y))
    } else {
        cocycle.value(w, x, y)
    }
}
