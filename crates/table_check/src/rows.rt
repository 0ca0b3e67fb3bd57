//! The ruling on the rows of a table.
ghost use Rattle.std.specs.Prelude.{◌≡◌, None, IfSome, length};
ghost use Rattle.table_check.specs.TableHolds.{ClassesHold, PairsHold, RowAt, RowsHold};
ghost use Rattle.table_check.specs.Cause.{RowFails, IsTableCause};

use crate::cause::TableCause;
use crate::tables::KnotTable;
use cert_check::{Ruling, Why, check_moves};

/// Why the rows of a table, whose classes and pairs of classes hold, don't: the first cause, if there is one.
pub(crate) fn rows_cause(table: &KnotTable) -> Option<TableCause>
    requires classes { ClassesHold table.now (length table.now.classes) }
    requires pairs { PairsHold table.now (length table.now.classes) }
    ensures some { IfSome result (λ cause. IsTableCause table.now cause) }
    ensures none { result ≡ None → RowsHold table.now (length table.now.rows) }
{
    for row in 0..table.rows.as_slice().len() {
        if let Some(why) = row_at(table, row) {
            return Some(TableCause::Row { row, why });
        }
    }
    None
}

/// Why the row at this place doesn't hold.
fn row_at(table: &KnotTable, at: usize) -> Option<Why>
    ensures some { IfSome result (λ why. RowFails table.now at why) }
    ensures none { result ≡ None → RowAt table.now at }
{
    let Some(row) = table.rows.as_slice().get(at) else {
        return None;
    };
    let Some(class) = table.classes.as_slice().get(row.class as usize) else {
        return None;
    };
    match check_moves(
        &row.diagram.grid(),
        &class.diagram.grid(),
        row.moves.as_slice(),
    ) {
        Ruling::Accepted => None,
        Ruling::Rejected(why) => Some(why),
    }
}
