//! The answer to the bytes of a table.
ghost use Rattle.std.specs.Prelude.{◌≡◌, IfOk};
ghost use Rattle.table_check.specs.Tables.{knot_table_of, RowsHaveClasses};
ghost use Rattle.reply_text.specs.Reply.{plain_reply, AnswersRead};
ghost use Rattle.table_check.specs.Lines.{table_ruling_line};
ghost use Rattle.table_check.specs.Answer.{table_ruling_status, AnswersTable, IsTrueTable, IsTableCertificate};

use crate::cause::TableRuling;
use crate::lines::table_ruling_line;
use crate::ruling::rule;
use crate::tables::{KnotTable, read_table};
use knot_ports::Status;
use reply_text::PlainReply;
use std::alloc::{AllocError, Global};

/// The answer to the bytes of a table: `Done` where it was accepted, and is true, or `Rejected` with the first cause; or the reply that names
/// the first bad line. It returns an error if memory runs out.
pub fn answer_table(alloc: Global, bytes: &[u8]) -> Result<PlainReply, AllocError>
    ensures answer { IfOk result (λ reply. AnswersRead AnswersTable (knot_table_of bytes.now) reply) }
    ensures claim { IfOk result (λ reply. reply.status ≡ Status.Done → IsTableCertificate bytes.now) }
{
    match read_table(alloc, bytes) {
        Ok(table) => answer_read(alloc, &table),
        Err(fault) => PlainReply::to_fault(alloc, fault),
    }
}

/// The answer to a table that was read.
fn answer_read(alloc: Global, table: &KnotTable) -> Result<PlainReply, AllocError>
    requires known { RowsHaveClasses table.now }
    ensures answer { IfOk result (λ reply. AnswersTable table.now reply) }
    ensures claim { IfOk result (λ reply. reply.status ≡ Status.Done → IsTrueTable table.now) }
{
    match rule(alloc, table) {
        Ok(ruling) => answer_ruling(alloc, ruling),
        Err(_) => Err(AllocError),
    }
}

/// The answer with a ruling on a table.
fn answer_ruling(alloc: Global, ruling: TableRuling) -> Result<PlainReply, AllocError>
    ensures { IfOk result (λ reply. reply ≡ plain_reply (table_ruling_status ruling) (table_ruling_line ruling)) }
{
    let status = match ruling {
        TableRuling::Accepted => Status::Done,
        TableRuling::Rejected(_) => Status::Rejected,
    };
    Ok(PlainReply::new(status, table_ruling_line(alloc, ruling)?))
}
