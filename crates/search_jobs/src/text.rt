//! What is said of the walk of a seed.
ghost use Rattle.std.specs.Prelude.{◌≡◌, ◌≤◌, ◌++◌, codes, length, IfOk, OnOk};
ghost use Rattle.std.specs.Fmt.{decimal};
ghost use Rattle.grid_core.specs.Diagram.{size};
ghost use Rattle.grid_moves.specs.Joining.{Joins};
ghost use Rattle.colour_list.specs.Listing.{colourings};
ghost use Rattle.search_jobs.specs.Text.{counts_text, walk_text, sample_text, TellsOfWalk};

use crate::walk::{LARGEST, right_trefoil, sample_walk};
use cert_check::{Ruling, check_moves};
use colour_list::list_fitting;
use grid_core::Grid;
use grid_moves::{Move, apply_all};
use memory_core::OutOfMemory;
use quandle_core::Quandle;
use std::alloc::Global;
use text_lines::{push_counted, push_paired};

/// The greatest order of a quandle whose colourings are counted.
const LARGEST_ORDER: usize = 7;

/// The text of a seed: the line `sample` with the seed, the line `moves` with the number of moves of its walk, the ruling
/// on them between the right trefoil and the diagram to which they lead, and for each quandle of the built-in list a line
/// with its name, a colon, and the numbers of colourings of the first and the last diagram; or an error if memory runs out.
///
/// The walk is made, ruled on and coloured each time. What is found is the same for every seed, so only the first line
/// depends on it.
pub fn sample_text(alloc: Global, seed: u64) -> Result<Vec<u8>, OutOfMemory>
    ensures found { IfOk result (λ v. TellsOfWalk seed v.items) }
    ensures text { IfOk result (λ v. v.items ≡ sample_text seed) }
{
    let moves = sample_walk(alloc, seed)?;
    let first = right_trefoil();
    match apply_all(&first, moves.as_slice()) {
        Ok(last) => walk_text(alloc, seed, moves.as_slice(), &first, &last),
        Err(_) => unreachable!(),
    }
}

/// What is found of moves that join two small grids.
fn walk_text(
    alloc: Global,
    seed: u64,
    moves: &[Move],
    first: &Grid,
    last: &Grid,
) -> Result<Vec<u8>, OutOfMemory>
    requires joined { Joins first.now moves.now last.now }
    requires first { size first.now ≤ LARGEST }
    requires last { size last.now ≤ LARGEST }
    ensures { IfOk result (λ v. v.items ≡ walk_text seed moves.now first.now last.now) }
{
    let mut out = Vec::new(alloc);
    push_counted(&mut out, b"sample ", seed)?;
    push_counted(&mut out, b"moves ", moves.len() as u64)?;
    out.extend_from_slice(ruled(first, last, moves))?;
    push_counts(alloc, &mut out, first, last)?;
    Ok(out)
}

/// The line of the ruling on moves that join two grids.
fn ruled(first: &Grid, last: &Grid, moves: &[Move]) -> &'static [u8]
    requires { Joins first.now moves.now last.now }
    ensures { result.now ≡ codes "accepted\n" }
{
    match check_moves(first, last, moves) {
        Ruling::Accepted => b"accepted\n",
        Ruling::Rejected(_) => unreachable!(),
    }
}

/// Appends the counts of two small grids by each quandle of the built-in list.
fn push_counts(
    alloc: Global,
    out: &mut Vec<u8>,
    first: &Grid,
    last: &Grid,
) -> Result<(), OutOfMemory>
    requires first { size first.now ≤ LARGEST }
    requires last { size last.now ≤ LARGEST }
    ensures { OnOk result (out.new.items ≡ out.old.items ++ counts_text first.now last.now) }
{
    let two = Quandle::trivial(2);
    let three = Quandle::dihedral(3);
    let four = Quandle::tetrahedral();
    let five = Quandle::dihedral(5);
    let seven = Quandle::dihedral(7);
    push_pair(alloc, out, b"trivial 2: ", &two, first, last)?;
    push_pair(alloc, out, b"dihedral 3: ", &three, first, last)?;
    push_pair(alloc, out, b"tetrahedral: ", &four, first, last)?;
    push_pair(alloc, out, b"dihedral 5: ", &five, first, last)?;
    push_pair(alloc, out, b"dihedral 7: ", &seven, first, last)
}

/// Appends words, of which the last ends with a space, and the counts of two small grids by a small quandle.
fn push_pair(
    alloc: Global,
    out: &mut Vec<u8>,
    words: &[u8],
    quandle: &Quandle,
    first: &Grid,
    last: &Grid,
) -> Result<(), OutOfMemory>
    requires first { size first.now ≤ LARGEST }
    requires last { size last.now ≤ LARGEST }
    requires order { quandle.now.order ≤ LARGEST_ORDER }
    ensures { OnOk result (out.new.items ≡ out.old.items ++ (words.now ++ (decimal (length (colourings quandle.now first.now))
        ++ (codes " " ++ (decimal (length (colourings quandle.now last.now)) ++ codes "\n"))))) }
{
    let one = count(alloc, quandle, first)?;
    let two = count(alloc, quandle, last)?;
    push_paired(out, words, one as u64, two as u64)?;
    Ok(())
}

/// The number of colourings of a small grid by a small quandle.
fn count(alloc: Global, quandle: &Quandle, grid: &Grid) -> Result<usize, OutOfMemory>
    requires grid { size grid.now ≤ LARGEST }
    requires order { quandle.now.order ≤ LARGEST_ORDER }
    ensures { IfOk result (λ n. n ≡ length (colourings quandle.now grid.now)) }
{
    let _size = grid.size();
    Ok(list_fitting(alloc, grid, quandle)?.len())
}
