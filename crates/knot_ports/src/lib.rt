//! The edge of a program. Bytes come in from a source and go out to a sink, each of which counts its faults; a contract may not know its bytes.
//! A whole read passes on all bytes up to the end and a whole write all that it is given, or the answer names what ended it: a fault, the length,
//! or memory that ran out. Words come from the system, and a call may be made on a stack of stated size.
#![tactic(auto)]

mod calls;
mod failure;
mod give;
mod given;
mod limits;
mod memory_sink;
mod memory_source;
mod quiet;
mod read;
mod sink;
mod source;
mod stack;
mod standard;
mod status;

pub use failure::Failed;
pub use give::give_all;
pub use given::{NO_WORDS, NoWords, system_words};
pub use limits::{MAX_CERTIFICATE, MAX_INPUT};
pub use memory_core::OutOfMemory;
pub use memory_sink::MemSink;
pub use memory_source::MemSource;
pub use quiet::{QuietSink, QuietSource};
pub use read::{ReadEnd, read_all};
pub use sink::Sink;
pub use source::Source;
pub use stack::on_stack;
pub use standard::{StdSink, StdSource};
pub use status::Status;
