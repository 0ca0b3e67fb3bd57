//! The input, item by item, up to the one that is bad.

use crate::braids::braid_reason;
use crate::grids::{crosses_of, rings_reason};
use crate::numbers::Numbers;
use crate::quandles::{quandle_line, table_reason};
use crate::reason::{Due, Reason, Which};
use crate::shape::{PROBLEM, Part, Shape};
use crate::shown::Shown;
use std::alloc::{AllocError, Global};
use text_items::{MAX_QUANDLES, TextFault, braid_item, grid_item, large_quandle_item};
use text_lines::{Line, Lines};

/// Why a line of a problem is bad, where it is the first bad one, or what is due where the text ends. Lines are counted from 1. Of a line
/// that is not the first bad one, or of none, the answer may not fit. It fails only if memory runs out.
pub fn reason_at<'a>(alloc: Global, bytes: &'a [u8], at: usize) -> Result<Reason<'a>, AllocError> {
    reason_in(alloc, PROBLEM, bytes, at, false)
}

/// Why a line of an input of any shape is bad. Of its further part no more is known than where it begins, and whether it is a limit
/// that the line exceeds. It fails only if memory runs out.
pub fn reason_in<'a>(
    alloc: Global,
    shape: Shape,
    bytes: &'a [u8],
    at: usize,
    is_limit: bool,
) -> Result<Reason<'a>, AllocError> {
    let mut lines = Lines::new(bytes);
    if let Some(reason) = bad_diagram(alloc, shape, &mut lines)? {
        return Ok(reason);
    }
    let mut quandles = 0;
    if let Some(reason) = bad_quandle(alloc, shape, &mut quandles, &mut lines)? {
        return Ok(reason);
    }
    let due = shape.due_behind(quandles);
    Ok(reason_behind(due, at, is_limit, &mut lines))
}

/// Why the first bad diagram is bad, if one is. It fails only if memory runs out.
fn bad_diagram<'a>(
    alloc: Global,
    shape: Shape,
    lines: &mut Lines<'a>,
) -> Result<Option<Reason<'a>>, AllocError> {
    for which in shape.diagrams() {
        let mut item = lines.again();
        if !has_diagram(alloc, shape.are_braids, lines)? {
            let reason = diagram_reason(*which, shape.are_braids, &mut item);
            return Ok(Some(reason));
        }
    }
    Ok(None)
}

/// Why the first bad quandle is bad, if one is; those before it are counted. It fails only if memory runs out.
fn bad_quandle<'a>(
    alloc: Global,
    shape: Shape,
    quandles: &mut usize,
    lines: &mut Lines<'a>,
) -> Result<Option<Reason<'a>>, AllocError> {
    for _quandle in 0..u64::MAX {
        if !shape.then.takes_quandle(*quandles) || !lines.begins(b"quandle") {
            break;
        }
        let mut item = lines.again();
        if *quandles >= MAX_QUANDLES || !has_quandle(alloc, shape, lines)? {
            let reason = quandle_reason(alloc, shape, *quandles, &mut item)?;
            return Ok(Some(reason));
        }
        *quandles += 1;
    }
    Ok(None)
}

/// Whether an item was read. It fails only if memory runs out.
fn was_read<T: Drop>(read: Result<T, TextFault>) -> Result<bool, AllocError> {
    match read {
        Ok(_) => Ok(true),
        Err(TextFault::Malformed { .. } | TextFault::Limit { .. }) => Ok(false),
        Err(TextFault::OutOfMemory) => Err(AllocError),
    }
}

/// Whether a diagram is next.
fn has_diagram(alloc: Global, is_braid: bool, lines: &mut Lines) -> Result<bool, AllocError> {
    if is_braid || lines.begins(b"braid") {
        was_read(braid_item(alloc, lines))
    } else {
        was_read(grid_item(lines))
    }
}

/// Whether a quandle is next.
fn has_quandle(alloc: Global, shape: Shape, lines: &mut Lines) -> Result<bool, AllocError> {
    let most = shape.then.most_of_table();
    was_read(large_quandle_item(alloc, most, lines))
}

/// Why no diagram is next.
fn diagram_reason<'a>(which: Which, is_braid: bool, lines: &mut Lines<'a>) -> Reason<'a> {
    let due = Due::Diagram { which, is_braid };
    let Some(mut line) = lines.next_line() else {
        return Reason::Ends { due };
    };
    let Some(token) = line.next_token() else {
        return Reason::Other { due };
    };
    if token == b"braid".as_slice() {
        braid_reason(&mut line, due)
    } else if token == b"x".as_slice() && !is_braid {
        grid_reason(which, &mut line, lines)
    } else {
        begins(due, token)
    }
}

/// Why a line of Xs, after its first word, or the next line is bad.
fn grid_reason<'a>(which: Which, line: &mut Line<'a>, lines: &mut Lines<'a>) -> Reason<'a> {
    match crosses_of(line) {
        Ok(crosses) => below_reason(&crosses, Due::Rings { which }, lines),
        Err(reason) => reason,
    }
}

/// Why no line of Os is next, below these Xs.
fn below_reason<'a>(crosses: &Numbers, due: Due, lines: &mut Lines<'a>) -> Reason<'a> {
    let Some(mut line) = lines.next_line() else {
        return Reason::Ends { due };
    };
    match line.next_token() {
        Some(token) if token == b"o".as_slice() => rings_reason(crosses, &mut line, due),
        Some(token) => begins(due, token),
        None => Reason::Other { due },
    }
}

/// Why no quandle is next, after so many quandles. It fails only if memory runs out.
fn quandle_reason<'a>(
    alloc: Global,
    shape: Shape,
    quandles: usize,
    lines: &mut Lines<'a>,
) -> Result<Reason<'a>, AllocError> {
    let due = shape.due_behind(quandles);
    let Some(mut line) = lines.next_line() else {
        return Ok(Reason::Ends { due });
    };
    let _word = line.next_token();
    let most = shape.then.most_of_table();
    match quandle_line(&mut line, quandles >= MAX_QUANDLES, most) {
        Ok(Some(order)) => table_reason(alloc, order, lines),
        Ok(None) => Ok(Reason::Other { due }),
        Err(reason) => Ok(reason),
    }
}

/// Why a line after the diagrams and the quandles is bad.
fn reason_behind<'a>(due: Due, at: usize, is_limit: bool, lines: &mut Lines<'a>) -> Reason<'a> {
    let Some(mut line) = lines.next_line() else {
        return Reason::Ends { due };
    };
    match (due, line.next_token()) {
        (Due::Begin { part }, _) if line.number() < at => {
            let ends = lines.ending() <= at;
            further_reason(part, line.number(), ends, is_limit)
        }
        (Due::Begin { part }, Some(token)) if part.begins(token) => {
            reason_of_part(part, due, is_limit)
        }
        (_, Some(token)) => begins(due, token),
        (_, None) => Reason::Other { due },
    }
}

/// Why a line of a part that began in an earlier one is bad, or that the text ends there.
fn further_reason<'a>(part: Part, line: usize, ends: bool, is_limit: bool) -> Reason<'a> {
    let due = Due::Behind { part, line };
    if ends {
        Reason::Ends { due }
    } else {
        reason_of_part(part, due, is_limit)
    }
}

/// That a line begins with another word than what is due.
fn begins<'a>(due: Due, token: &'a [u8]) -> Reason<'a> {
    Reason::Begins {
        due,
        token: Shown(token),
    }
}

/// Why a line of a part is bad: that it exceeds a limit, or that it isn't what is due.
fn reason_of_part<'a>(part: Part, due: Due, is_limit: bool) -> Reason<'a> {
    if is_limit {
        Reason::Limit { part }
    } else {
        Reason::Other { due }
    }
}
