//! The program: a call of `program` over the words, files and streams of the system, on a stack of stated size.
#![tactic(auto)]

use knot_ports::{NoWords, StdSink, on_stack, system_words};
use seek_call::outlets::{Outlets, Terminals};
use seek_call::program::program;
use seek_parts::{DiskPlaces, SystemTexts};
use std::io::IsTerminal;
use std::process::ExitCode;

/// How many bytes the stack of a call has: several times what the deepest one takes.
const STACK: usize = 4_194_304;

fn main(rt: HostRuntime) -> ExitCode {
    let ended = on_stack(&rt, rt.alloc(), STACK, move || -> ExitCode {
        program(
            &rt,
            rt.alloc(),
            Terminals {
                input: rt.stdin().is_terminal(),
                messages: rt.stderr().is_terminal(),
            },
            system_words(&rt),
            &SystemTexts::new(&rt),
            &mut Outlets {
                places: DiskPlaces::new(&rt),
                output: StdSink::new(rt.stdout()),
            },
        )
    });
    match ended {
        Ok(code) => code,
        Err(_) => end_without_stack(&rt),
    }
}

/// Reports that there is no memory for the stack, as `program` reports that there is none for the words: the exit status.
fn end_without_stack(rt: &HostRuntime) -> ExitCode {
    let why = NoWords::Memory;
    let _told = eprintln!(rt; "seek: {why}");
    why.exit_code()
}
