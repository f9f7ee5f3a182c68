//! The whole program but its `main`, over any arguments and any ends.
ghost use Rattle.std.specs.Prelude.{◌≡◌};
ghost use Rattle.std.specs.Process.{exit_status};
ghost use Rattle.rx_run.specs.declared.run.Status.{Status as Statuses};
ghost use Rattle.rx_run.specs.Program.{IsProgram};
ghost use Rattle.rx_run.specs.Run.{IsRun};
ghost use Rattle.rx_run.specs.Status.{number_of};

use crate::arguments::Arguments;
use crate::run::{Status, run};
use crate::words::words;
use rx_base::{Sink, Source};
use std::alloc::Global;
use std::process::ExitCode;

/// Reads the words of the command line, runs the program with them, and answers the code that the process ends with: the number of the status.
pub fn run_program<A: Arguments, S: Source, K: Sink>(
    alloc: Global,
    arguments: &A,
    source: &mut S,
    sink: &mut K,
) -> ExitCode
    ensures { (status : Statuses) × (exit_status result ≡ number_of status) × IsProgram (A.given arguments.now)
        (IsRun S.left S.drawn S.faults K.taken K.fixed K.faults source.old source.new sink.old sink.new)
        ((source.new ≡ source.old) × (sink.new ≡ sink.old)) status }
{
    let status = run_with_arguments(alloc, arguments, source, sink);
    ExitCode::from(status.number())
}

/// Runs the program with the words of its arguments.
fn run_with_arguments<A: Arguments, S: Source, K: Sink>(
    alloc: Global,
    arguments: &A,
    source: &mut S,
    sink: &mut K,
) -> Status
    ensures { IsProgram (A.given arguments.now)
        (IsRun S.left S.drawn S.faults K.taken K.fixed K.faults source.old source.new sink.old sink.new)
        ((source.new ≡ source.old) × (sink.new ≡ sink.old)) result }
{
    match words(arguments, alloc) {
        Ok(words) => run(alloc, words.as_slice(), source, sink),
        Err(status) => status,
    }
}
