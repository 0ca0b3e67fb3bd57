//! The lines of rulings on tables.
ghost use Rattle.std.specs.Prelude.{◌≡◌, ◌++◌, codes, IfOk, OnOk};
ghost use Rattle.std.specs.Fmt.{decimal};
ghost use Rattle.std.specs.List.{flat_map};
ghost use Rattle.text_lines.specs.Spelled.{spaced};
ghost use Rattle.reply_text.specs.Lines.{rejected_line};
ghost use Rattle.table_check.specs.Lines.{class_tokens, table_tokens, table_ruling_line};

use crate::cause::{ClassCause, TableCause, TableRuling};
use reply_text::lines::{push_spaced, push_why};
use std::alloc::{AllocError, Global};

/// Appends words, of which the last ends with a space, and two numbers.
fn push_two(out: &mut Vec<u8>, words: &[u8], a: u64, b: u64) -> Result<(), AllocError>
    ensures { OnOk result (out.new.items ≡ out.old.items ++ (words.now ++ (decimal a ++ spaced (decimal b)))) }
{
    push_spaced(out, words, a)?;
    push_spaced(out, b" ", b)
}

/// Appends why what is said of a class isn't shown, each token after a space.
fn push_class(out: &mut Vec<u8>, cause: ClassCause) -> Result<(), AllocError>
    ensures { OnOk result (out.new.items ≡ out.old.items ++ flat_map spaced (class_tokens cause)) }
{
    match cause {
        ClassCause::Outside { column } => push_spaced(out, b" outside ", u64::from(column)),
        ClassCause::Unsettled { column } => push_spaced(out, b" unsettled ", u64::from(column)),
        ClassCause::Wide { block } => push_spaced(out, b" wide ", block as u64),
        ClassCause::Numbers { block, place } => {
            push_two(out, b" numbers ", block as u64, place as u64)
        }
    }
}

/// Appends why a table doesn't hold, each token after a space.
fn push_table(out: &mut Vec<u8>, cause: TableCause) -> Result<(), AllocError>
    ensures { OnOk result (out.new.items ≡ out.old.items ++ flat_map spaced (table_tokens cause)) }
{
    match cause {
        TableCause::Class { class, cause } => {
            push_spaced(out, b" class ", class as u64)?;
            push_class(out, cause)
        }
        TableCause::Same { first, second } => {
            push_two(out, b" classes ", first as u64, second as u64)?;
            out.extend_from_slice(b" same")
        }
        TableCause::Row { row, why } => {
            push_spaced(out, b" row ", row as u64)?;
            push_why(out, why)
        }
    }
}

/// The line of a ruling on a table.
pub fn table_ruling_line(alloc: Global, ruling: TableRuling) -> Result<Vec<u8>, AllocError>
    ensures { IfOk result (λ v. v.items ≡ table_ruling_line ruling) }
{
    match ruling {
        TableRuling::Accepted => Vec::from_slice(alloc, b"accepted\n"),
        TableRuling::Rejected(cause) => table_line(alloc, cause),
    }
}

/// The line of a table that doesn't hold.
fn table_line(alloc: Global, cause: TableCause) -> Result<Vec<u8>, AllocError>
    ensures { IfOk result (λ v. v.items ≡ rejected_line (table_tokens cause)) }
{
    let mut out = Vec::from_slice(alloc, b"rejected")?;
    push_table(&mut out, cause)?;
    out.extend_from_slice(b"\n")?;
    Ok(out)
}
