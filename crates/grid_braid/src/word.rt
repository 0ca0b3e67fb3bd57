//! The braid word of a grid.
ghost use Rattle.std.specs.Prelude.{◌≡◌, ◌<◌, ◌≤◌, ◌+◌, ◌++◌, length, IfOk, OnOk};
ghost use Rattle.grid_core.specs.Diagram.{size};
ghost use Rattle.grid_braid.specs.Strands.{down_columns};
ghost use Rattle.grid_braid.specs.Word.{leftward, rightward, row_letters, word_of_diagram, IsWord};

use crate::strands::{count_down, count_within};
use grid_core::{Grid, Kind, MAX_SIZE};
use memory_core::OutOfMemory;
use std::alloc::{AllocFailed, Global};
use std::marker::Model;

/// A braid word of any length (Artin 1947), which contracts see as its number of strands and its letters.
///
/// Letter `+k` is the positive crossing in which strand k+1 passes left under strand k; letter `-k` undoes it.
/// No letter is 0, and each letter's absolute value is below the number of strands.
#[derive(Drop)]
pub struct GridWord {
    strands: u8,
    letters: Vec<i8>,
}

impl Model for GridWord {
    ghost use Rattle.braid_core.specs.Braid.{Word};
    ghost use Rattle.grid_braid.specs.Word.{IsWord};

    ghost Value = { Word };

    ghost view = { λ w. record { strands = w.strands; letters = w.letters.items } };

    ghost invariant = { λ w. IsWord (record { strands = w.strands; letters = w.letters.items }) };
}

impl GridWord {
    /// The number of strands.
    pub fn strands(&self) -> u8
        ensures strands { result ≡ self.now.strands }
        ensures word { IsWord self.now }
    {
        self.strands
    }

    /// The letters from first to last, each from 1 to m-1 or its negative for m strands.
    pub fn letters(&self) -> &[i8]
        ensures letters { result.now ≡ self.now.letters }
        ensures word { IsWord self.now }
    {
        self.letters.as_slice()
    }
}

/// The braid word of a grid, or `OutOfMemory`.
///
/// Each down column is replaced by its complement, which runs upward from its X over the top and from the bottom to its O.
/// At each height the strands are the up columns that are cut there and the down columns that are not, from left to right; below all rows they are
/// the down columns.
/// From the lowest row on, each row moves the strand that arrives at its O to its X, under all strands strictly between: from position k+1 to k by
/// the letter `+k`, and from k to k+1 by `-k`.
pub fn word_of(alloc: Global, grid: &Grid) -> Result<GridWord, OutOfMemory>
    ensures { IfOk result (λ w. w ≡ word_of_diagram grid.now) }
{
    let strands = count_down(grid);
    let mut letters = Vec::new(alloc);
    for row in 0..grid.size() {
        append_row(&mut letters, grid, row)?;
    }
    Ok(GridWord { strands, letters })
}

/// Appends the letters of a row: those of the strand that it moves from its O to its X.
fn append_row(letters: &mut Vec<i8>, grid: &Grid, row: u8) -> Result<(), AllocFailed<i8>>
    requires { row < size grid.now }
    ensures { OnOk result (letters.new.items ≡ letters.old.items ++ row_letters grid.now row) }
{
    let _size = grid.size();
    let ring = grid.column_of(Kind::Ring, row);
    let (left, right) = grid.ends(row);
    let ahead = count_within(grid, row, 0, ring);
    let between = count_within(grid, row, left + 1, right);
    if grid.is_rightward(row) {
        append_rightward(letters, ahead, between)
    } else {
        append_leftward(letters, ahead, between)
    }
}

/// Appends the letters of a strand with this many others to its left that moves left under so many.
fn append_leftward(letters: &mut Vec<i8>, ahead: u8, count: u8) -> Result<(), AllocFailed<i8>>
    requires { (count ≤ ahead) × (ahead ≤ MAX_SIZE) }
    ensures { OnOk result (letters.new.items ≡ letters.old.items ++ leftward ahead count) }
{
    for passed in 0..count {
        letters.push((ahead - passed) as i8)?;
    }
    Ok(())
}

/// Appends the letters of a strand with this many others to its left that moves right under so many.
fn append_rightward(letters: &mut Vec<i8>, ahead: u8, count: u8) -> Result<(), AllocFailed<i8>>
    requires { (ahead ≤ MAX_SIZE) × (count ≤ MAX_SIZE) }
    ensures { OnOk result (letters.new.items ≡ letters.old.items ++ rightward ahead count) }
{
    for passed in 0..count {
        letters.push(-((ahead + passed + 1) as i8))?;
    }
    Ok(())
}
