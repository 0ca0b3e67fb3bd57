//! What a job replies: a plain reply, and the search that is kept with it.
ghost use Rattle.std.specs.Prelude.{◌≡◌, IfOk};
ghost use Rattle.reply_text.specs.Reply.{too_long, IsFaultReply};
ghost use Rattle.search_jobs.specs.Reply.{without_search, plainly};

use knot_ports::Status;
use memory_core::Items;
use reply_text::PlainReply;
use search_pool::Finding;
use std::alloc::{AllocError, Global};
use text_items::TextFault;

/// A status, the text that is written with it, and the search that is kept.
#[derive(Drop)]
pub struct Reply {
    pub status: Status,
    pub text: Items<u8>,
    pub kept: Option<Finding>,
}

impl Reply {
    /// A plain reply, for which nothing was searched.
    pub fn without_search(plain: PlainReply) -> Reply
        ensures { result ≡ without_search plain }
    {
        Reply {
            status: plain.status,
            text: plain.text,
            kept: None,
        }
    }

    /// The reply to an input that is too long.
    pub fn too_long(alloc: Global) -> Result<Reply, AllocError>
        ensures { IfOk result (λ reply. reply ≡ without_search too_long) }
    {
        Ok(Reply::without_search(PlainReply::too_long(alloc)?))
    }

    /// The reply to a first bad line.
    pub fn to_fault(alloc: Global, fault: TextFault) -> Result<Reply, AllocError>
        ensures { IfOk result (λ reply. plainly IsFaultReply fault reply) }
    {
        Ok(Reply::without_search(PlainReply::to_fault(alloc, fault)?))
    }
}
