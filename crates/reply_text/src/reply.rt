//! What a plain job answers, and the replies that several jobs have.
ghost use Rattle.std.specs.Prelude.{◌≡◌, IfOk};
ghost use Rattle.reply_text.specs.Reply.{plain_reply, too_long, IsFaultReply};

use crate::lines::{limit_bytes, limit_line, malformed_line};
use knot_ports::Status;
use memory_core::Items;
use std::alloc::{AllocError, Global};
use text_items::TextFault;

/// A status, and the text that is written with it.
#[derive(Drop)]
pub struct PlainReply {
    pub status: Status,
    pub text: Items<u8>,
}

impl PlainReply {
    /// The reply of this status and text.
    pub fn new(status: Status, text: Vec<u8>) -> PlainReply
        ensures { result ≡ plain_reply status text.items }
    {
        PlainReply {
            status,
            text: Items::from_vec(text),
        }
    }

    /// The reply to an input that is too long. It returns an error if memory runs out.
    pub fn too_long(alloc: Global) -> Result<PlainReply, AllocError>
        ensures { IfOk result (λ reply. reply ≡ too_long) }
    {
        Ok(PlainReply::new(Status::Limit, limit_bytes(alloc)?))
    }

    /// The reply to a first bad line. It returns an error if memory runs out, which may also be the fault.
    pub fn to_fault(alloc: Global, fault: TextFault) -> Result<PlainReply, AllocError>
        ensures { IfOk result (λ reply. IsFaultReply fault reply) }
    {
        match fault {
            TextFault::Malformed { line } => Ok(PlainReply::new(
                Status::Malformed,
                malformed_line(alloc, line)?,
            )),
            TextFault::Limit { line } => {
                Ok(PlainReply::new(Status::Limit, limit_line(alloc, line)?))
            }
            TextFault::OutOfMemory => Err(AllocError),
        }
    }
}
