//! Passages through crossings, as one follows the strands.
ghost use Rattle.std.specs.Prelude.{◌≡◌, ◌<◌, ◌+◌, ◌++◌, OnOk};
ghost use Rattle.grid_core.specs.Diagram.{size};
ghost use Rattle.crossing_codes.specs.Passages.{along_column, along_row, passages_from};
ghost use Rattle.crossing_codes.specs.Layout.{met_at};

use crate::components::component;
use crate::layout::Layout;
use grid_core::Span;
use std::alloc::AllocError;

/// Going through a crossing as one follows a strand.
#[derive(Clone, Copy, PartialEq, Eq)]
pub(crate) struct Passage {
    /// Over, along the column, or under, along the row.
    pub(crate) over: bool,
    /// The column of the crossing, from 0 on the left.
    pub(crate) column: u8,
    /// The row of the crossing, from 0 at the bottom.
    pub(crate) row: u8,
}

/// Appends the passages of a component, followed from the X of one of its columns.
pub(crate) fn push_round(
    out: &mut Vec<Passage>,
    layout: &Layout,
    start: u8,
) -> Result<(), AllocError>
    requires { start < size layout.now }
    ensures { OnOk result (out.new.items ≡ out.old.items ++ passages_from layout.now start) }
{
    let columns = component(layout, start);
    for column in columns.as_slice() {
        push_column(out, layout, *column)?;
        push_row(out, layout, layout.row_after(*column))?;
    }
    Ok(())
}

/// Appends the passages along a column, from its X to its O.
fn push_column(out: &mut Vec<Passage>, layout: &Layout, column: u8) -> Result<(), AllocError>
    requires { column < size layout.now }
    ensures { OnOk result (out.new.items ≡ out.old.items ++ along_column layout.now column) }
{
    let span = layout.column_span(column);
    let up = layout.is_up(column);
    for done in 0..span.high - span.low - 1 {
        let row = met(span, up, done);
        if layout.lies_across(row, column) {
            out.push(Passage {
                over: true,
                column,
                row,
            })?;
        }
    }
    Ok(())
}

/// Appends the passages along a row, from its O to its X.
fn push_row(out: &mut Vec<Passage>, layout: &Layout, row: u8) -> Result<(), AllocError>
    requires { row < size layout.now }
    ensures { OnOk result (out.new.items ≡ out.old.items ++ along_row layout.now row) }
{
    let span = layout.row_span(row);
    let right = layout.is_rightward(row);
    for done in 0..span.high - span.low - 1 {
        let column = met(span, right, done);
        if layout.covers(column, row) {
            out.push(Passage {
                over: false,
                column,
                row,
            })?;
        }
    }
    Ok(())
}

/// The number strictly within an interval that one meets after so many others, on the way up or on the way down.
fn met(span: Span, forward: bool, done: u8) -> u8
    requires { span.low + done + 1 < span.high }
    ensures met { result ≡ met_at forward span done }
    ensures within { (span.low < result) × (result < span.high) }
{
    if forward {
        span.low + 1 + done
    } else {
        span.high - 1 - done
    }
}
