//! The text of the numbers of a diagram.
ghost use Rattle.std.specs.Prelude.{◌≡◌, ◌++◌, ◌∷◌, map, IfOk, OnOk};
ghost use Rattle.std.specs.Fmt.{decimal};
ghost use Rattle.std.specs.List.{flat_map};
ghost use Rattle.text_lines.specs.Spelled.{spaced, line_text};
ghost use Rattle.colour_seeds.specs.Plan.{IsPlan};
ghost use Rattle.certificates.specs.Lines.{counted_line, block_text, text_by, IsNumbersText};

use colour_numbers::numbers;
use colour_seeds::{CountFault, Seeding, seeds_of};
use grid_core::Grid;
use knot_text::push_large;
use number_text::Block;
use std::alloc::{AllocError, Global};
use text_lines::{push_counted, push_number};

/// For each block the quandle, and a line: `numbers` with the numbers of the grid's colourings by the block, or `wide` with the number
/// of seeds of the plan that was found, if these have too many choices of colours.
pub fn numbers_text(alloc: Global, grid: &Grid, blocks: &[Block]) -> Result<Vec<u8>, AllocError>
    ensures { IfOk result (λ v. IsNumbersText grid.now blocks.now v.items) }
{
    match seeds_of(alloc, grid) {
        Ok(seeding) => text_by(alloc, grid, &seeding, blocks),
        Err(_) => Err(AllocError),
    }
}

/// For each block the quandle, and the numbers of a grid by the block, or `wide`, by this plan of the grid.
fn text_by(
    alloc: Global,
    grid: &Grid,
    seeding: &Seeding,
    blocks: &[Block],
) -> Result<Vec<u8>, AllocError>
    requires plan { IsPlan grid.now seeding.now }
    ensures { IfOk result (λ v. v.items ≡ text_by grid.now seeding.now blocks.now) }
{
    let mut out = Vec::new(alloc);
    for block in blocks {
        push_block(alloc, &mut out, grid, seeding, block)?;
    }
    Ok(out)
}

/// Appends a quandle, and the numbers by its block.
fn push_block(
    alloc: Global,
    out: &mut Vec<u8>,
    grid: &Grid,
    seeding: &Seeding,
    block: &Block,
) -> Result<(), AllocError>
    requires plan { IsPlan grid.now seeding.now }
    ensures { OnOk result (out.new.items ≡ out.old.items ++ block_text grid.now seeding.now block.now) }
{
    push_large(out, b"quandle", &block.listed)?;
    push_counted_line(alloc, out, grid, seeding, block)
}

/// Appends the numbers by a block, or how many seeds there are, where they have too many choices of colours.
fn push_counted_line(
    alloc: Global,
    out: &mut Vec<u8>,
    grid: &Grid,
    seeding: &Seeding,
    block: &Block,
) -> Result<(), AllocError>
    requires plan { IsPlan grid.now seeding.now }
    ensures { OnOk result (out.new.items ≡ out.old.items ++ counted_line grid.now seeding.now block.now) }
{
    let quandle = block.listed.operations();
    match numbers(alloc, grid, &quandle, &block.cocycle, seeding) {
        Ok(list) => push_labelled_line(out, b"numbers", list.as_slice()),
        Err(CountFault::TooWide) => push_counted(out, b"wide ", seeding.seeds().len() as u64),
        Err(CountFault::OutOfMemory) => Err(AllocError),
    }
}

/// Appends a line of a word and numbers.
pub fn push_labelled_line(out: &mut Vec<u8>, word: &[u8], numbers: &[u32]) -> Result<(), AllocError>
    ensures { OnOk result (out.new.items ≡ out.old.items ++ line_text (word.now ∷ map decimal numbers.now)) }
{
    out.extend_from_slice(word)?;
    push_spaced(out, numbers)?;
    out.extend_from_slice(b"\n")
}

/// Appends numbers, each after a space.
fn push_spaced(out: &mut Vec<u8>, numbers: &[u32]) -> Result<(), AllocError>
    ensures { OnOk result (out.new.items ≡ out.old.items ++ flat_map (λ n. spaced (decimal n)) numbers.now) }
{
    for number in numbers {
        out.extend_from_slice(b" ")?;
        push_number(out, u64::from(*number))?;
    }
    Ok(())
}
