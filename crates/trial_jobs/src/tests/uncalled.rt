//! Functions that no program calls: that each of them answers.
ghost use Rattle.std.specs.Prelude.{◌≤◌, IfOk};
ghost use Rattle.grid_core.specs.declared.grid.TheConstants.{MAX_SIZE};
ghost use Rattle.grid_core.specs.Diagram.{size};
ghost use Rattle.search_book.specs.declared.problem.TheConstants.{MAX_BUDGET};

use colour_rows::{Colouring, is_colouring};
use crossing_codes::edge_colours;
use grid_core::{Grid, MAX_SIZE};
use knot_text::read_check;
use number_search::{SeedPair, tell_apart};
use quandle_core::Quandle;
use search_book::{End, MAX_BUDGET, Meeting, Problem};
use search_pool::{Finding, alone};
use std::alloc::Global;
use std::test::Fail;

/// The rows of a grid: of the Xs, and of the Os.
type Rows = (&'static [u8], &'static [u8]);

const UNKNOT: Rows = (&[0, 1], &[1, 0]);

const SHIFTED: Rows = (&[1, 0], &[0, 1]);

const HOPF_LINK: Rows = (&[0, 1, 2, 3], &[2, 3, 0, 1]);

const TWO_UNKNOTS: Rows = (&[0, 1, 2, 3], &[1, 0, 3, 2]);

/// The grid of these rows.
fn grid_of(rows: Rows) -> Result<Grid, Fail> {
    match Grid::new(rows.0, rows.1) {
        Ok(grid) => Ok(grid),
        Err(_) => Err(Fail::from("no grid")),
    }
}

/// Whether these colours of a grid's columns give these of its edges and loops.
#[tactic(auto, using(colour_rows::proofs::Colourings::coloured))]
fn are_edges_coloured(
    alloc: Global,
    grid: &Grid,
    quandle: &Quandle,
    columns: &[u8],
    edges: &[u8],
) -> Result<bool, Fail> {
    let mut colours = Colouring::new();
    colours.try_extend_from_slice(columns).unwrap_or(());
    let known = is_colouring(grid, quandle, &colours);
    if !known {
        return Ok(false);
    }
    let found = edge_colours(alloc, grid, quandle, &colours).map_err(|_| "no memory")?;
    Ok(found.as_slice() == edges)
}

#[test]
fn a_loop_has_the_colour_of_its_columns(rt: HostRuntime) -> Result<(), Fail> {
    let grid = grid_of(UNKNOT)?;
    let quandle = Quandle::dihedral(3);
    assert!(rt; are_edges_coloured(rt.alloc(), &grid, &quandle, &[2, 2], &[2])?);
    Ok(())
}

/// Whether two grids are distinguished without a block.
fn are_told_apart(alloc: Global, first: Rows, second: Rows) -> Result<bool, Fail> {
    let first = grid_of(first)?;
    let second = grid_of(second)?;
    let Ok(seeds) = SeedPair::of(alloc, &first, &second) else {
        return Err(Fail::from("no memory"));
    };
    match tell_apart(alloc, &first, &second, &seeds, &[]) {
        Ok(evidence) => Ok(evidence.is_some()),
        Err(_) => Err(Fail::from("no memory")),
    }
}

#[test]
fn linked_rings_are_told_from_rings_apart(rt: HostRuntime) -> Result<(), Fail> {
    assert!(rt; are_told_apart(rt.alloc(), HOPF_LINK, TWO_UNKNOTS)?);
    Ok(())
}

/// The problem of these two grids.
fn problem_of(first: Rows, second: Rows, cap: u8, budget: u32) -> Result<Problem, Fail>
    ensures fit { IfOk result (λ p. (size p.first ≤ p.cap) × (size p.second ≤ p.cap)) }
    ensures cap { IfOk result (λ p. p.cap ≤ MAX_SIZE) }
    ensures budget { IfOk result (λ p. (2 ≤ p.budget) × (p.budget ≤ MAX_BUDGET)) }
{
    let first = grid_of(first)?;
    let second = grid_of(second)?;
    if first.size() > cap || second.size() > cap || cap as usize > MAX_SIZE {
        return Err(Fail::from("no cap"));
    }
    if budget < 2 || budget > MAX_BUDGET {
        return Err(Fail::from("no budget"));
    }
    Ok(Problem {
        first,
        second,
        cap,
        budget,
    })
}

/// What one worker finds.
fn search(alloc: Global, first: Rows, second: Rows) -> Result<Finding, Fail> {
    let problem = problem_of(first, second, 2, 2)?;
    match alone(alloc, problem) {
        Ok(finding) => Ok(finding),
        Err(_) => Err(Fail::from("no memory")),
    }
}

/// Whether the roots were one entry, and there is no other.
fn is_met_by_roots(finding: &Finding) -> bool {
    matches!(finding.book.end(), Some(End::Met(Meeting::Roots))) && finding.book.len() == 1
}

#[test]
fn unknots_a_shift_apart_meet_at_the_roots(rt: HostRuntime) -> Result<(), Fail> {
    let finding = search(rt.alloc(), UNKNOT, SHIFTED)?;
    assert!(rt; is_met_by_roots(&finding));
    Ok(())
}

/// Two unknots, and the certificate that they are equal without a move.
const CHECKED: &[u8] = b"x 0 1\no 1 0\nx 0 1\no 1 0\ncertificate 2\nequal 0\n";

#[test]
fn a_check_is_read(rt: HostRuntime) -> Result<(), Fail> {
    let read = read_check(rt.alloc(), CHECKED);
    assert!(rt; read.is_ok());
    Ok(())
}
