//! The checker: rules on the evidence on standard input, and writes the ruling to standard output, as `knot check`.
#![tactic(auto)]

use check_job::program;
use knot_ports::{StdSink, StdSource, system_words};
use std::process::ExitCode;

fn main(rt: HostRuntime) -> ExitCode {
    program(
        rt.alloc(),
        system_words(&rt),
        &mut StdSource::new(rt.stdin()),
        &mut StdSink::new(rt.stdout()),
    )
}
