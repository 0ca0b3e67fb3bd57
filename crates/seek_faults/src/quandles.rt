//! Why lines are no quandle.
ghost use Rattle.std.specs.Prelude.{◌≤◌};
ghost use Rattle.quandle_core.specs.declared.quandle.TheConstants.{MAX_ORDER};

use crate::numbers::Numbers;
use crate::reason::{Due, Reason};
use crate::shown::Shown;
use quandle_core::{LargeFault, LargeQuandle, MAX_LARGE_ORDER, MAX_ORDER, Quandle, QuandleFault};
use std::alloc::{AllocError, Global};
use std::fmt;
use text_items::MAX_QUANDLES;
use text_lines::{Line, Lines};

/// The families of quandles that have names.
#[derive(Clone, Copy, PartialEq, Eq)]
pub enum Family {
    Trivial,
    Dihedral,
    Tetrahedral,
    Alexander,
    Table,
}

/// Why a line is no quandle, or no row of its table.
#[derive(Clone, Copy, PartialEq, Eq)]
pub enum QuandleReason<'a> {
    /// Nothing follows `quandle`.
    NoName,
    /// No family is called so.
    Unknown { token: Shown<'a> },
    /// Another number of numbers is due after the name of the family.
    Count { family: Family, count: usize },
    /// The order is 0, or above `MAX_ORDER` where tables may not have more colours.
    Order { order: u32 },
    /// The order is above `MAX_ORDER`, and the quandle is not by a table, which might have more colours.
    NamedOrder { order: u32 },
    /// The order of a table is above `MAX_LARGE_ORDER`.
    TableOrder { order: u32 },
    /// The factor is not below the order.
    Factor { order: u32, factor: u32 },
    /// The factor has no inverse.
    NoInverse { order: u32, factor: u32 },
    /// There are too many quandles.
    Many,
    /// A row has another number of entries.
    RowLength { count: usize, order: usize },
    /// An entry is not below the order.
    Entry { entry: u32, order: usize },
    /// The table breaks a law.
    Law(QuandleFault),
}

impl Family {
    /// The family that is called so.
    fn named(token: &[u8]) -> Option<Family> {
        if token == b"trivial".as_slice() {
            Some(Family::Trivial)
        } else if token == b"dihedral".as_slice() {
            Some(Family::Dihedral)
        } else if token == b"tetrahedral".as_slice() {
            Some(Family::Tetrahedral)
        } else if token == b"alexander".as_slice() {
            Some(Family::Alexander)
        } else if token == b"table".as_slice() {
            Some(Family::Table)
        } else {
            None
        }
    }

    /// How many numbers are due after the name.
    fn numbers(self) -> usize {
        match self {
            Family::Tetrahedral => 0,
            Family::Trivial | Family::Dihedral | Family::Table => 1,
            Family::Alexander => 2,
        }
    }
}

impl fmt::Display for Family {
    fn fmt<W: fmt::Write>(&self, f: &mut fmt::Formatter<W>) -> fmt::Result {
        match self {
            Family::Trivial => write!(f, "`trivial` is followed by its order"),
            Family::Dihedral => write!(f, "`dihedral` is followed by its order"),
            Family::Tetrahedral => write!(f, "`tetrahedral` is followed by nothing"),
            Family::Alexander => write!(f, "`alexander` is followed by its order and its factor"),
            Family::Table => {
                f.write_str(
                    "`table` is followed by its order, and the rows have lines of their own",
                )
            }
        }
    }
}

impl<'a> fmt::Display for QuandleReason<'a> {
    fn fmt<W: fmt::Write>(&self, f: &mut fmt::Formatter<W>) -> fmt::Result {
        match self {
            QuandleReason::NoName => f.write_str(
                "the name of a quandle is due after `quandle`: trivial, dihedral, tetrahedral, alexander or table",
            ),
            QuandleReason::Unknown { token } => write!(
                f,
                "no quandle is called {token}: the names are trivial, dihedral, tetrahedral, alexander and table"
            ),
            QuandleReason::Count { family, count } => {
                write!(f, "{family}; numbers given here: {count}")
            }
            QuandleReason::Order { order: 0 } => write!(f, "the order of a quandle is 1 or more"),
            QuandleReason::Order { order } => write!(
                f,
                "the order {order} is above {MAX_ORDER}, the largest of a quandle here"
            ),
            QuandleReason::NamedOrder { order } => write!(
                f,
                "the order {order} is above {MAX_ORDER}, the largest of a quandle without a table"
            ),
            QuandleReason::TableOrder { order } => write!(
                f,
                "the order {order} is above {MAX_LARGE_ORDER}, the largest of a table here"
            ),
            QuandleReason::Factor { order, factor } => {
                write!(f, "the factor {factor} is not below the order {order}")
            }
            QuandleReason::NoInverse { order, factor } => {
                write!(f, "the factor {factor} has no inverse modulo {order}")
            }
            QuandleReason::Many => write!(
                f,
                "there are more than the {MAX_QUANDLES} quandles that an input may have"
            ),
            QuandleReason::RowLength { count, order } => write!(
                f,
                "a row of a table of order {order} has {order} entries, and this one has {count}"
            ),
            QuandleReason::Entry { entry, order } => {
                write!(f, "{entry} is not an element of a quandle of order {order}")
            }
            QuandleReason::Law(fault) => write_law(f, *fault),
        }
    }
}

/// Writes which law a table breaks.
fn write_law<W: fmt::Write>(f: &mut fmt::Formatter<W>, fault: QuandleFault) -> fmt::Result {
    match fault {
        QuandleFault::Idempotent { x } => {
            write!(f, "the table is no quandle: {x} ▷ {x} is not {x}")
        }
        QuandleFault::Collision { x, z, y } => write!(
            f,
            "the table is no quandle: {x} ▷ {y} and {z} ▷ {y} are the same"
        ),
        QuandleFault::Distributive { x, y, z } => write!(
            f,
            "the table is no quandle: ({x} ▷ {y}) ▷ {z} is not ({x} ▷ {z}) ▷ ({y} ▷ {z})"
        ),
        QuandleFault::Order
        | QuandleFault::Length
        | QuandleFault::Range { .. }
        | QuandleFault::NoInverse => write!(f, "the table is no quandle"),
    }
}

/// The order of the table that the line of a quandle begins, if it begins one, after its first word; or why the line is bad: by its
/// form, by a limit, or by what it says. One quandle more than an input may have exceeds a limit whatever it says. A table has an order of
/// at most `most`.
pub(crate) fn quandle_line<'a>(
    line: &mut Line<'a>,
    is_surplus: bool,
    most: usize,
) -> Result<Option<usize>, Reason<'a>> {
    let (family, numbers) = named_numbers(line)?;
    if is_surplus {
        return Err(Reason::Quandle(QuandleReason::Many));
    }
    if let Some(token) = numbers.long {
        return Err(Reason::Digits { token });
    }
    let numbers = numbers.first.as_slice();
    match (numbers_reason(family, numbers, most), family, numbers) {
        (Some(reason), _, _) => Err(Reason::Quandle(reason)),
        (None, Family::Table, [order]) => Ok(Some(*order as usize)),
        (None, _, _) => Ok(None),
    }
}

/// The family that a line names and the numbers after it, as many as are due, of any length; or why not.
fn named_numbers<'a>(line: &mut Line<'a>) -> Result<(Family, Numbers<'a>), Reason<'a>> {
    let Some(token) = line.next_token() else {
        return Err(Reason::Quandle(QuandleReason::NoName));
    };
    let Some(family) = Family::named(token) else {
        return Err(Reason::Quandle(QuandleReason::Unknown {
            token: Shown(token),
        }));
    };
    let numbers = Numbers::of_any_length(line)?;
    let count = numbers.count;
    if count != family.numbers() {
        return Err(Reason::Quandle(QuandleReason::Count { family, count }));
    }
    Ok((family, numbers))
}

/// Why there is no quandle of an order and, if there are two numbers, a factor. A table has an order of at most `most`.
fn numbers_reason<'a>(family: Family, numbers: &[u32], most: usize) -> Option<QuandleReason<'a>> {
    let order = *numbers.first()?;
    if order > 0 && most > MAX_ORDER {
        if let Some(reason) = large_reason(family, order, most) {
            return Some(reason);
        }
        if family == Family::Table {
            return None;
        }
    }
    if order < 1 || order as usize > MAX_ORDER {
        return Some(QuandleReason::Order { order });
    }
    let factor = *numbers.get(1)?;
    factor_reason(order, factor)
}

/// Why there is no quandle of an order and a factor.
fn factor_reason<'a>(order: u32, factor: u32) -> Option<QuandleReason<'a>>
    requires { (1 ≤ order) × (order ≤ MAX_ORDER) }
{
    if factor >= order {
        return Some(QuandleReason::Factor { order, factor });
    }
    match Quandle::alexander(order as u8, factor as u8) {
        Ok(_) => None,
        Err(_) => Some(QuandleReason::NoInverse { order, factor }),
    }
}

/// Why an order is too large where tables may have more elements than other quandles.
fn large_reason<'a>(family: Family, order: u32, most: usize) -> Option<QuandleReason<'a>> {
    match family {
        Family::Table if order as usize > most => Some(QuandleReason::TableOrder { order }),
        Family::Table => None,
        _ if order as usize > MAX_ORDER => Some(QuandleReason::NamedOrder { order }),
        _ => None,
    }
}

/// Why no table of this order is next. It fails only if memory runs out.
pub(crate) fn table_reason<'a>(
    alloc: Global,
    order: usize,
    lines: &mut Lines<'a>,
) -> Result<Reason<'a>, AllocError> {
    let mut entries = Vec::new(alloc);
    for row in 0..order {
        if let Some(reason) = push_row(&mut entries, order, row, lines)? {
            return Ok(reason);
        }
    }
    match LargeQuandle::new(alloc, order.min(255) as u8, entries.as_slice()) {
        Err(LargeFault::Broken { fault }) => Ok(Reason::Quandle(QuandleReason::Law(fault))),
        Err(LargeFault::OutOfMemory) => Err(AllocError),
        Ok(_) => Ok(Reason::Other {
            due: Due::Row { row: order },
        }),
    }
}

/// Appends the entries of the next row of a table of this order, or says why there are none. It fails only if memory runs out.
fn push_row<'a>(
    entries: &mut Vec<u8>,
    order: usize,
    row: usize,
    lines: &mut Lines<'a>,
) -> Result<Option<Reason<'a>>, AllocError> {
    let due = Due::Row { row };
    let Some(mut line) = lines.next_line() else {
        return Ok(Some(Reason::Ends { due }));
    };
    let numbers = match row_of(order, &mut line) {
        Ok(numbers) => numbers,
        Err(reason) => return Ok(Some(reason)),
    };
    for entry in numbers.first.as_slice() {
        entries.push((*entry).min(255) as u8)?;
    }
    Ok(None)
}

/// The entries of a row of a table of this order, or why they are none.
fn row_of<'a>(order: usize, line: &mut Line<'a>) -> Result<Numbers<'a>, Reason<'a>> {
    let numbers = Numbers::of(line)?;
    let count = numbers.count;
    if count != order {
        return Err(Reason::Quandle(QuandleReason::RowLength { count, order }));
    }
    match numbers.outside(order) {
        Some(entry) => Err(Reason::Quandle(QuandleReason::Entry { entry, order })),
        None => Ok(numbers),
    }
}
