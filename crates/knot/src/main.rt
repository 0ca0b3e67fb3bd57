//! The program: a call of `program` over the words and streams of the system, on a stack of stated size.
#![tactic(auto)]

mod call;
mod program;
mod tell;

use crate::program::program;
use crate::tell::Terminal;
use knot_jobs::Ports;
use knot_ports::{NoWords, StdSink, StdSource, on_stack, system_words};
use std::io::IsTerminal;
use std::process::ExitCode;

/// How many bytes the stack of a call has: several times what the deepest one takes.
const STACK: usize = 4_194_304;

fn main(rt: HostRuntime) -> ExitCode {
    on_stack(&rt, rt.alloc(), STACK, move || -> ExitCode {
        program(
            &rt,
            rt.alloc(),
            system_words(&rt),
            &mut Ports {
                source: StdSource::new(rt.stdin()),
                sink: StdSink::new(rt.stdout()),
                kept: None,
                input: Vec::new(rt.alloc()),
            },
            &Terminal {
                rt: &rt,
                alloc: rt.alloc(),
                is_read: rt.stdin().is_terminal(),
                is_written: rt.stderr().is_terminal(),
            },
        )
    })
    .unwrap_or(NoWords::Memory.exit_code())
}
