//! The weight of a list of colours by lanes.
ghost use Rattle.std.specs.Prelude.{◌≡◌, ◌<◌, true, false, length};
ghost use Rattle.std.specs.List.{All};
ghost use Rattle.colour_weights.specs.ShadowWalkSum.{shadow_stepped};
ghost use Rattle.colour_numbers.specs.Lanes.{lane_region_left, lane_region_start, lane_walked, lane_weight, weight_by_lanes};
ghost use Rattle.colour_numbers.specs.Weighing.{LaneIsWithin, walker_of};

use crate::lane::Lane;
use colour_rows::passed_rightward;
use colour_weights::ShadowCocycle;
use colour_weights::sums::{minus, plus};
use quandle_core::Quandle;

/// The state of the walk of a lane: the colour of the strand, that of the region on its right-hand side, and the weighted sum so far.
#[derive(Clone, Copy)]
pub struct Standing {
    pub colour: u8,
    pub region: u8,
    pub sum: u8,
}

/// The sum of the weights of lanes, mod the modulus, under a list of colours and a colour of the outer region.
pub(crate) fn weight_of(cocycle: &ShadowCocycle, lanes: &[Lane], colours: &[u8], outer: u8) -> u8
    requires within { All (LaneIsWithin (length colours.now)) lanes.now }
    requires below { All (λ y. y < cocycle.now.quandle.order) colours.now }
    requires outer { outer < cocycle.now.quandle.order }
    ensures weight { result ≡ weight_by_lanes cocycle.now lanes.now colours.now outer }
    ensures below { result < cocycle.now.modulus }
{
    let modulus = cocycle.modulus();
    let mut sum = 0;
    for lane in lanes {
        sum = plus(modulus, sum, lane_weight(cocycle, lane, colours, outer));
    }
    sum
}

/// The weight of a lane.
fn lane_weight(cocycle: &ShadowCocycle, lane: &Lane, colours: &[u8], outer: u8) -> u8
    requires within { LaneIsWithin (length colours.now) lane.now }
    requires below { All (λ y. y < cocycle.now.quandle.order) colours.now }
    requires outer { outer < cocycle.now.quandle.order }
    ensures weight { result ≡ lane_weight cocycle.now lane.now colours.now outer }
    ensures below { result < cocycle.now.modulus }
{
    let sum = lane_walked(cocycle, lane, colours, outer).sum;
    if lane.rightward {
        sum
    } else {
        minus(cocycle.modulus(), sum)
    }
}

/// The walk of a lane from its left end to its right end.
fn lane_walked(cocycle: &ShadowCocycle, lane: &Lane, colours: &[u8], outer: u8) -> Standing
    requires within { LaneIsWithin (length colours.now) lane.now }
    requires below { All (λ y. y < cocycle.now.quandle.order) colours.now }
    requires outer { outer < cocycle.now.quandle.order }
    ensures walked { walker_of result ≡ lane_walked cocycle.now lane.now colours.now outer }
    ensures below { result.sum < cocycle.now.modulus }
{
    let _modulus = cocycle.modulus();
    let quandle = cocycle.quandle();
    let _order = quandle.order();
    let region = lane_region_start(quandle, lane, colours, outer);
    let mut at = Standing {
        colour: colours[lane.row.left() as usize],
        region,
        sum: 0,
    };
    for pass in lane.passed.as_slice() {
        at = stepped(cocycle, pass.up, at, colours[pass.column as usize]);
    }
    at
}

/// The colour of the region on the right-hand side of the left end of a lane: after an up column, before a down one.
fn lane_region_start(quandle: &Quandle, lane: &Lane, colours: &[u8], outer: u8) -> u8
    requires within { LaneIsWithin (length colours.now) lane.now }
    requires below { All (λ y. y < quandle.now.order) colours.now }
    requires outer { outer < quandle.now.order }
    ensures region { result ≡ lane_region_start quandle.now lane.now colours.now outer }
    ensures below { result < quandle.now.order }
{
    let _order = quandle.order();
    let region = lane_region_left(quandle, lane, colours, outer);
    if lane.up {
        passed_rightward(quandle, lane.up, region, colours[lane.row.left() as usize])
    } else {
        region
    }
}

/// The colour of the region left of the left end of a lane.
fn lane_region_left(quandle: &Quandle, lane: &Lane, colours: &[u8], outer: u8) -> u8
    requires within { LaneIsWithin (length colours.now) lane.now }
    requires below { All (λ y. y < quandle.now.order) colours.now }
    requires outer { outer < quandle.now.order }
    ensures region { result ≡ lane_region_left quandle.now lane.now colours.now outer }
    ensures below { result < quandle.now.order }
{
    let _order = quandle.order();
    let mut region = outer;
    for pass in lane.before.as_slice() {
        region = passed_rightward(quandle, pass.up, region, colours[pass.column as usize]);
    }
    region
}

/// The state of the walk after a column of colour y.
fn stepped(cocycle: &ShadowCocycle, up: bool, at: Standing, y: u8) -> Standing
    requires colours { (at.colour < cocycle.now.quandle.order) × (at.region < cocycle.now.quandle.order) × (y < cocycle.now.quandle.order) }
    requires sum { at.sum < cocycle.now.modulus }
    ensures stepped { walker_of result ≡ shadow_stepped cocycle.now up (walker_of at) y }
    ensures below { (result.colour < cocycle.now.quandle.order) × (result.region < cocycle.now.quandle.order) × (result.sum < cocycle.now.modulus) }
{
    if up {
        stepped_up(cocycle, at, y)
    } else {
        stepped_down(cocycle, at, y)
    }
}

/// The state of the walk after an up column of colour y: what the crossing has on the column's right-hand side lies after it, and is taken away.
fn stepped_up(cocycle: &ShadowCocycle, at: Standing, y: u8) -> Standing
    requires colours { (at.colour < cocycle.now.quandle.order) × (at.region < cocycle.now.quandle.order) × (y < cocycle.now.quandle.order) }
    requires sum { at.sum < cocycle.now.modulus }
    ensures stepped { walker_of result ≡ shadow_stepped cocycle.now true (walker_of at) y }
    ensures below { (result.colour < cocycle.now.quandle.order) × (result.region < cocycle.now.quandle.order) × (result.sum < cocycle.now.modulus) }
{
    let modulus = cocycle.modulus();
    let quandle = cocycle.quandle();
    let _order = quandle.order();
    let colour = quandle.back(at.colour, y);
    let region = quandle.back(at.region, y);
    let lost = cocycle.value(region, colour, y);
    Standing {
        colour,
        region,
        sum: plus(modulus, at.sum, minus(modulus, lost)),
    }
}

/// The state of the walk after a down column of colour y: what the crossing has is added.
fn stepped_down(cocycle: &ShadowCocycle, at: Standing, y: u8) -> Standing
    requires colours { (at.colour < cocycle.now.quandle.order) × (at.region < cocycle.now.quandle.order) × (y < cocycle.now.quandle.order) }
    requires sum { at.sum < cocycle.now.modulus }
    ensures stepped { walker_of result ≡ shadow_stepped cocycle.now false (walker_of at) y }
    ensures below { (result.colour < cocycle.now.quandle.order) × (result.region < cocycle.now.quandle.order) × (result.sum < cocycle.now.modulus) }
{
    let modulus = cocycle.modulus();
    let quandle = cocycle.quandle();
    let _order = quandle.order();
    let gained = cocycle.value(at.region, at.colour, y);
    Standing {
        colour: quandle.over(at.colour, y),
        region: quandle.over(at.region, y),
        sum: plus(modulus, at.sum, gained),
    }
}
