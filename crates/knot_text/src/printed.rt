//! The texts of grids, moves and verdicts.
ghost use Rattle.std.specs.Prelude.{◌≡◌, ◌<◌, ◌++◌, codes, map, IfOk, OnOk, OnErr};
ghost use Rattle.std.specs.List.{range_with_len};
ghost use Rattle.std.specs.Fmt.{decimal};
ghost use Rattle.quandle_core.specs.Quandle.{over};
ghost use Rattle.text_lines.specs.Spelled.{line_text, lines_text};
ghost use Rattle.text_lines.specs.Appended.{AppendsPart};
ghost use Rattle.quandle_core.specs.Names.{NamedQuandle, called};
ghost use Rattle.knot_text.specs.Printed.{grid_text, kind_word, corner_word, move_tokens, moves_text};
ghost use Rattle.knot_text.specs.Printed.{row_tokens, table_behind, quandle_lines, list_lines, verdict_lines, version_text};
ghost use Rattle.verdict_core.specs.Evidence.{IsTidyVerdict};

use crate::spelled_colours::push_colour_line;
use arrayvec::ArrayVec;
use colour_rows::Colouring;
use grid_core::{Corner, Grid, Kind};
use grid_moves::Move;
use memory_core::OutOfMemory;
use quandle_core::{MAX_LARGE_ORDER, Operations};
use std::alloc::{AllocError, Global};
use text_lines::{push_counted, push_number, push_number_line, push_paired, push_word_line};
use verdict_core::{LargeListed, Listed, QuandleName, Verdict};
use verdict_text::{TIDY_VERSION, Version};

/// The text of a grid: the line `x` with the rows of its Xs by column, and the line `o` with those of its Os; or `OutOfMemory`.
pub fn print_grid(alloc: Global, grid: &Grid) -> Result<Vec<u8>, OutOfMemory>
    ensures { IfOk result (λ v. v.items ≡ grid_text grid.now) }
{
    let mut out = Vec::new(alloc);
    push_word_line(&mut out, b"x", grid.rows(Kind::Cross))?;
    push_word_line(&mut out, b"o", grid.rows(Kind::Ring))?;
    Ok(out)
}

/// The text of moves: the line `moves` with how many there are, and a line for each; or `OutOfMemory`.
/// It is read back wherever there are at most `MAX_NUMBER` moves.
pub fn print_moves(alloc: Global, moves: &[Move]) -> Result<Vec<u8>, OutOfMemory>
    ensures { IfOk result (λ v. v.items ≡ moves_text moves.now) }
{
    let mut out = Vec::new(alloc);
    push_counted(&mut out, b"moves ", moves.len() as u64)?;
    push_moves(&mut out, moves)?;
    Ok(out)
}

/// The text of a verdict, with its evidence, after the line `certificate 2`; or `OutOfMemory`. Its list of moves, if it has one, is tidy.
///
/// It is read back after two diagrams wherever its numbers are at most `MAX_NUMBER`, a list has at most `MAX_COLOURINGS`
/// members, each with a colour below the order for each column of its diagram, and an Alexander quandle's factor is below
/// its order.
pub fn print_verdict(alloc: Global, verdict: &Verdict) -> Result<Vec<u8>, OutOfMemory>
    requires { IsTidyVerdict verdict.now }
    ensures { IfOk result (λ v. v.items ≡ version_text Version.Tidy verdict.now) }
{
    let mut out = Vec::new(alloc);
    push_counted(&mut out, b"certificate ", u64::from(TIDY_VERSION))?;
    push_verdict(&mut out, verdict)?;
    Ok(out)
}

/// Appends a verdict.
fn push_verdict(out: &mut Vec<u8>, verdict: &Verdict) -> Result<(), AllocError>
    ensures { OnOk result (out.new.items ≡ out.old.items ++ lines_text (verdict_lines verdict.now)) }
{
    match verdict {
        Verdict::Equal(moves) => push_equal(out, moves.as_slice()),
        Verdict::Different {
            listed,
            first,
            second,
        } => push_different(out, listed, first.as_slice(), second.as_slice()),
        Verdict::UnknownBudget { budget } => push_budget(out, *budget),
        Verdict::UnknownExhausted { cap, admitted } => push_exhausted(out, *cap, *admitted),
    }
}

/// Appends the verdict `equal`.
fn push_equal(out: &mut Vec<u8>, moves: &[Move]) -> Result<(), AllocError>
    ensures { OnOk result (out.new.items ≡ out.old.items ++ lines_text (verdict_lines (Verdict.Equal moves.now))) }
{
    push_counted(out, b"equal ", moves.len() as u64)?;
    push_moves(out, moves)
}

/// Appends the verdict `different`.
fn push_different(
    out: &mut Vec<u8>,
    listed: &Listed,
    first: &[Colouring],
    second: &[Colouring],
) -> Result<(), AllocError>
    ensures { OnOk result (out.new.items ≡ out.old.items ++ lines_text (verdict_lines (Verdict.Different listed.now first.now second.now))) }
{
    push_quandle(out, b"different", listed)?;
    push_list(out, first)?;
    push_list(out, second)
}

/// Appends the verdict that a budget was used up.
fn push_budget(out: &mut Vec<u8>, budget: u32) -> Result<(), AllocError>
    ensures { OnOk result (out.new.items ≡ out.old.items ++ (codes "unknown budget " ++ (decimal budget ++ codes "\n"))) }
{
    push_counted(out, b"unknown budget ", u64::from(budget))
}

/// Appends the verdict that all diagrams within a cap were seen.
fn push_exhausted(out: &mut Vec<u8>, cap: u32, admitted: u32) -> Result<(), AllocError>
    ensures { OnOk result (out.new.items ≡ out.old.items ++ (codes "unknown exhausted " ++ (decimal cap ++ (codes " " ++ (decimal admitted ++ codes "\n"))))) }
{
    push_paired(
        out,
        b"unknown exhausted ",
        u64::from(cap),
        u64::from(admitted),
    )
}

/// Appends a line for each move.
fn push_moves(out: &mut Vec<u8>, moves: &[Move]) -> Result<(), AllocError>
    ensures { OnOk result (out.new.items ≡ out.old.items ++ lines_text (map move_tokens moves.now)) }
{
    for step in moves {
        push_move(out, *step)?;
    }
    Ok(())
}

/// Appends the line of a move.
fn push_move(out: &mut Vec<u8>, step: Move) -> Result<(), AllocError>
    ensures { OnOk result (out.new.items ≡ out.old.items ++ line_text (move_tokens step)) }
{
    match step {
        Move::ShiftColumns(k) => push_counted(out, b"shift columns ", u64::from(k)),
        Move::ShiftRows(k) => push_counted(out, b"shift rows ", u64::from(k)),
        Move::ExchangeColumns(c) => push_counted(out, b"exchange columns ", u64::from(c)),
        Move::ExchangeRows(r) => push_counted(out, b"exchange rows ", u64::from(r)),
        Move::SlideColumns(c) => push_counted(out, b"slide columns ", u64::from(c)),
        Move::SlideRows(r) => push_counted(out, b"slide rows ", u64::from(r)),
        Move::Stabilise {
            column,
            kind,
            corner,
        } => push_stabilise(out, column, kind, corner),
        Move::Destabilise { column, row } => {
            push_paired(out, b"destabilise ", u64::from(column), u64::from(row))
        }
    }
}

/// Appends the line of a stabilisation.
fn push_stabilise(
    out: &mut Vec<u8>,
    column: u8,
    kind: Kind,
    corner: Corner,
) -> Result<(), AllocError>
    ensures { OnOk result (out.new.items ≡ out.old.items ++ line_text (move_tokens (Move.Stabilise column kind corner))) }
{
    out.extend_from_slice(b"stabilise ")?;
    push_number(out, u64::from(column))?;
    out.extend_from_slice(b" ")?;
    out.extend_from_slice(kind_word(kind))?;
    out.extend_from_slice(b" ")?;
    out.extend_from_slice(corner_word(corner))?;
    out.extend_from_slice(b"\n")
}

/// The word of a kind of mark.
fn kind_word(kind: Kind) -> &'static [u8]
    ensures { result.now ≡ kind_word kind }
{
    match kind {
        Kind::Cross => b"x",
        Kind::Ring => b"o",
    }
}

/// The word of a corner.
fn corner_word(corner: Corner) -> &'static [u8]
    ensures { result.now ≡ corner_word corner }
{
    match corner {
        Corner::LowLeft => b"lowleft",
        Corner::LowRight => b"lowright",
        Corner::HighLeft => b"highleft",
        Corner::HighRight => b"highright",
    }
}

/// Appends a line of a word and the name of a quandle, and after it the lines of a table.
/// If memory runs out, a part of it may have been appended.
pub fn push_quandle(out: &mut Vec<u8>, word: &[u8], listed: &Listed) -> Result<(), AllocError>
    ensures text { OnOk result (out.new.items ≡ out.old.items ++ lines_text (quandle_lines word.now listed.now)) }
    ensures part { OnErr result (AppendsPart out.old.items out.new.items (lines_text (quandle_lines word.now listed.now))) }
{
    let quandle = listed.quandle().operations();
    push_named(out, word, listed.name(), &quandle)
}

/// Appends a line of a word and the name of a quandle of up to `MAX_LARGE_ORDER` colours, and after it the lines of a table.
/// If memory runs out, a part of it may have been appended.
pub fn push_large(out: &mut Vec<u8>, word: &[u8], listed: &LargeListed) -> Result<(), AllocError>
    ensures text { OnOk result (out.new.items ≡ out.old.items ++ lines_text (quandle_lines word.now listed.now)) }
    ensures part { OnErr result (AppendsPart out.old.items out.new.items (lines_text (quandle_lines word.now listed.now))) }
{
    let quandle = listed.operations();
    push_named(out, word, listed.name(), &quandle)
}

/// Appends a line of a word and a name, and after it, where the name is that of a table, the lines of these operations.
fn push_named(
    out: &mut Vec<u8>,
    word: &[u8],
    name: QuandleName,
    quandle: &Operations,
) -> Result<(), AllocError>
    ensures text { OnOk result (out.new.items ≡ out.old.items ++ lines_text (quandle_lines word.now (called name quandle.now))) }
    ensures part { OnErr result (AppendsPart out.old.items out.new.items (lines_text (quandle_lines word.now (called name quandle.now)))) }
{
    out.extend_from_slice(word)?;
    match name {
        QuandleName::Trivial(n) => push_counted(out, b" trivial ", u64::from(n)),
        QuandleName::Dihedral(n) => push_counted(out, b" dihedral ", u64::from(n)),
        QuandleName::Tetrahedral => out.extend_from_slice(b" tetrahedral\n"),
        QuandleName::Alexander(n, factor) => {
            push_paired(out, b" alexander ", u64::from(n), u64::from(factor))
        }
        QuandleName::Table => push_table(out, quandle),
    }
}

/// Appends `table` with the order of a quandle after a word, and its lines.
fn push_table(out: &mut Vec<u8>, quandle: &Operations) -> Result<(), AllocError>
    ensures text { OnOk result (out.new.items ≡ out.old.items ++ table_behind quandle.now) }
    ensures part { OnErr result (AppendsPart out.old.items out.new.items (table_behind quandle.now)) }
{
    push_counted(out, b" table ", u64::from(quandle.order()))?;
    push_rows(out, quandle)
}

/// Appends a line for each row of a table.
fn push_rows(out: &mut Vec<u8>, quandle: &Operations) -> Result<(), AllocError>
    ensures text { OnOk result (out.new.items ≡ out.old.items ++ lines_text (map (row_tokens quandle.now) (range_with_len 0 quandle.now.order))) }
    ensures part { OnErr result (AppendsPart out.old.items out.new.items (lines_text (map (row_tokens quandle.now) (range_with_len 0 quandle.now.order)))) }
{
    for x in 0..quandle.order() {
        push_number_line(out, row_of(quandle, x).as_slice())?;
    }
    Ok(())
}

/// A row of a table.
fn row_of(quandle: &Operations, x: u8) -> ArrayVec<u8, MAX_LARGE_ORDER>
    requires { x < quandle.now.order }
    ensures { result.items ≡ map (over quandle.now x) (range_with_len 0 quandle.now.order) }
{
    let mut row = ArrayVec::new();
    for y in 0..quandle.order() {
        row.push(quandle.over(x, y));
    }
    row
}

/// Appends `list` with how many colourings there are, and a line of colours by column for each.
/// If memory runs out, a part of it may have been appended.
pub fn push_list(out: &mut Vec<u8>, colourings: &[Colouring]) -> Result<(), AllocError>
    ensures text { OnOk result (out.new.items ≡ out.old.items ++ lines_text (list_lines colourings.now)) }
    ensures part { OnErr result (AppendsPart out.old.items out.new.items (lines_text (list_lines colourings.now))) }
{
    push_counted(out, b"list ", colourings.len() as u64)?;
    push_colourings(out, colourings)
}

/// Appends a line of colours for each colouring.
fn push_colourings(out: &mut Vec<u8>, colourings: &[Colouring]) -> Result<(), AllocError>
    ensures text { OnOk result (out.new.items ≡ out.old.items ++ lines_text (map (λ c. map decimal c.items) colourings.now)) }
    ensures part { OnErr result (AppendsPart out.old.items out.new.items (lines_text (map (λ c. map decimal c.items) colourings.now))) }
{
    for colours in colourings {
        push_colour_line(out, colours)?;
    }
    Ok(())
}
