//! Reads lines that each hold a pattern, and writes for each line the pattern's canonical spelling, or why there is none.
//! Words on the command line ask for other replies: docs/PROGRAM.md has them.
#![tactic(auto)]

use rx_run::program::run_program;
use rx_run::standard::{StdArguments, StdSink, StdSource};
use std::process::ExitCode;

fn main(rt: HostRuntime) -> ExitCode {
    let arguments = StdArguments::new(&rt);
    let mut source = StdSource::new(rt.stdin());
    let mut sink = StdSink::new(rt.stdout());
    run_program(rt.alloc(), &arguments, &mut source, &mut sink)
}
