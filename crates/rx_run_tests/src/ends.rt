//! What the program does where its ends fail.
use crate::runs::RUNS;
use rx_base::List;
use rx_rows::agree;
use rx_run::arguments::MemoryArguments;
use rx_run::program::run_program;
use rx_run::standard::{StdSink, StdSource};
use std::io::{self, ErrorKind, Read, Write};
use std::process::ExitCode;
use std::test::Fail;

/// Two lines, of which the second is bad. Each call that can fails in turn.
const FAILING: &str = r"regexp | L«9»u«9»AB«A»X«A» | 3 1 2 0 99 => 3 []
regexp | L«9»u«9»AB«A»X«A» | 3 4 2 0 99 => 3 [ok«9»unicode«9»AB«A»bad«A»]
regexp | L«9»u«9»AB«A»X«A» | 3 0 2 1 99 => 4 []
regexp | L«9»u«9»AB«A»X«A» | 3 0 2 3 99 => 4 [ok«9»u]
regexp | L«9»u«9»AB«A»X«A» | 3 0 2 0 8 => 4 [ok«9»unico]
regexp | L«9»u«9»\x41B«A»X«A» | 3 1 1 0 18 => 3 []
regexp | L«9»u«9»\x41B«A»X«A» | 3 2 1 0 18 => 3 []
regexp | L«9»u«9»\x41B«A»X«A» | 3 3 1 0 18 => 3 []
regexp | L«9»u«9»\x41B«A»X«A» | 3 4 1 0 18 => 3 []
regexp | L«9»u«9»\x41B«A»X«A» | 3 5 1 0 18 => 3 [ok«9»unicode«9»AB«A»bad«A»]
regexp | L«9»u«9»\x41B«A»X«A» | 3 0 1 0 18 => 1 [ok«9»unicode«9»AB«A»bad«A»]
regexp | L«9»u«9»\x41B«A»X«A» | 3 0 1 1 18 => 4 []
regexp | L«9»u«9»\x41B«A»X«A» | 3 0 1 2 18 => 4 [o]
regexp | L«9»u«9»\x41B«A»X«A» | 3 0 1 3 18 => 4 [ok]
regexp | L«9»u«9»\x41B«A»X«A» | 3 0 1 4 18 => 4 [ok«9»]
regexp | L«9»u«9»\x41B«A»X«A» | 3 0 1 5 18 => 4 [ok«9»u]
regexp | L«9»u«9»\x41B«A»X«A» | 3 0 1 6 18 => 4 [ok«9»un]
regexp | L«9»u«9»\x41B«A»X«A» | 3 0 1 7 18 => 4 [ok«9»uni]
regexp | L«9»u«9»\x41B«A»X«A» | 3 0 1 8 18 => 4 [ok«9»unic]
regexp | L«9»u«9»\x41B«A»X«A» | 3 0 1 9 18 => 4 [ok«9»unico]
regexp | L«9»u«9»\x41B«A»X«A» | 3 0 1 10 18 => 4 [ok«9»unicod]
regexp | L«9»u«9»\x41B«A»X«A» | 3 0 1 11 18 => 4 [ok«9»unicode]
regexp | L«9»u«9»\x41B«A»X«A» | 3 0 1 12 18 => 4 [ok«9»unicode«9»]
regexp | L«9»u«9»\x41B«A»X«A» | 3 0 1 13 18 => 4 [ok«9»unicode«9»A]
regexp | L«9»u«9»\x41B«A»X«A» | 3 0 1 14 18 => 4 [ok«9»unicode«9»AB]
regexp | L«9»u«9»\x41B«A»X«A» | 3 0 1 15 18 => 4 [ok«9»unicode«9»AB«A»]
regexp | L«9»u«9»\x41B«A»X«A» | 3 0 1 16 18 => 4 [ok«9»unicode«9»AB«A»b]
regexp | L«9»u«9»\x41B«A»X«A» | 3 0 1 17 18 => 4 [ok«9»unicode«9»AB«A»ba]
regexp | L«9»u«9»\x41B«A»X«A» | 3 0 1 18 18 => 4 [ok«9»unicode«9»AB«A»bad]";

#[test]
fn each_call_that_fails_ends_the_run(rt: HostRuntime) -> Result<(), Fail> {
    agree(rt.alloc(), &RUNS, FAILING)
}

/// A reader and writer of bytes that gives an error where the bytes end, and takes nothing.
#[derive(Drop)]
struct Broken<'a> {
    bytes: &'a [u8],
}

impl Read for Broken<'_> {
    fn read(&mut self, buf: &mut [u8]) -> io::Result<usize> {
        if self.bytes.is_empty() {
            return Err(io::Error::from(ErrorKind::BrokenPipe));
        }
        self.bytes.read(buf)
    }
}

impl Write for Broken<'_> {
    fn write(&mut self, _: &[u8]) -> io::Result<usize> {
        Ok(0)
    }

    fn flush(&mut self) -> io::Result<()> {
        Ok(())
    }
}

#[test]
fn standard_ends_have_faults(rt: HostRuntime) {
    let line = b"X\n".as_slice();
    let arguments = MemoryArguments::new(List::new(rt.alloc()));
    let read = run_program(
        rt.alloc(),
        &arguments,
        &mut StdSource::new(Broken { bytes: line }),
        &mut StdSink::new(io::sink()),
    );
    let write = run_program(
        rt.alloc(),
        &arguments,
        &mut StdSource::new(line),
        &mut StdSink::new(Broken { bytes: b"" }),
    );
    assert_eq!(rt; [read, write], [ExitCode::from(3), ExitCode::from(4)]);
}
