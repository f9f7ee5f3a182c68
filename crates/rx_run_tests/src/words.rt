//! The words of the command line, and the program over arguments that are no text.
use crate::runs::{push_argument, run_over, sink_of, source_of};
use rx_base::{List, OutOfMemory, Text};
use rx_run::arguments::{Arguments, MemoryArguments};
use rx_run::run::Status;
use rx_run::standard::StdArguments;
use rx_run::words::words;
use std::alloc::Global;
use std::env::{Env, FillError};
use std::test::Fail;

/// Longer than the first buffers that a word is copied to.
const LONG: [u8; 100000] = [b'w'; 100000];

fn arguments_of(alloc: Global, arguments: &[&[u8]]) -> Result<MemoryArguments, OutOfMemory> {
    let mut list = List::new(alloc);
    for argument in arguments {
        push_argument(&mut list, argument)?;
    }
    Ok(MemoryArguments::new(list))
}

/// An environment with arguments alone.
#[derive(Drop)]
struct ArgumentsAlone(MemoryArguments);

impl Env for ArgumentsAlone {
    fn arg(&self, i: usize, buf: &mut [u8]) -> Result<usize, FillError> {
        self.0.argument(i, buf)
    }

    fn var(&self, _: &str, _: &mut [u8]) -> Result<usize, FillError> {
        Err(FillError::NotPresent)
    }

    fn var_at(&self, _: usize, _: &mut [u8]) -> Result<usize, FillError> {
        Err(FillError::NotPresent)
    }
}

/// Whether the arguments have these words.
fn have_words<A: Arguments>(
    alloc: Global,
    arguments: &A,
    wanted: &[&[u8]],
) -> Result<bool, Status> {
    let taken = words(arguments, alloc)?;
    Ok(are_words(taken.as_slice(), wanted))
}

fn are_words(words: &[Text], wanted: &[&[u8]]) -> bool {
    let mut are_alike = words.len() == wanted.len();
    for (word, bytes) in words.iter().zip(wanted) {
        are_alike &= word.as_str().as_bytes() == *bytes;
    }
    are_alike
}

/// Whether these arguments have these words, in memory and in an environment.
fn both_have_words(
    alloc: Global,
    given: &[&[u8]],
    wanted: &[&[u8]],
) -> Result<[Result<bool, Status>; 2], OutOfMemory> {
    let arguments = arguments_of(alloc, given)?;
    let in_memory = have_words(alloc, &arguments, wanted);
    let environment = StdArguments::new(ArgumentsAlone(arguments));
    Ok([in_memory, have_words(alloc, &environment, wanted)])
}

#[test]
fn words_are_taken(rt: HostRuntime) -> Result<(), Fail> {
    let alloc = rt.alloc();
    let given = [b"\xff".as_slice(), b"foo", &LONG, b"", "é".as_bytes()];
    let wanted = [b"foo".as_slice(), &LONG, b"", "é".as_bytes()];
    let taken = [
        both_have_words(alloc, &given, &wanted)?,
        both_have_words(alloc, &[b"name"], &[])?,
        both_have_words(alloc, &[], &[])?,
    ];
    let refused = [
        both_have_words(alloc, &[b"name", b"foo", b"\xff"], &[])?,
        both_have_words(alloc, &[b"name", b"\xff"], &[])?,
    ];
    assert_eq!(rt;
        (taken, refused),
        ([[Ok(true); 2]; 3], [[Err(Status::Usage); 2]; 2])
    );
    Ok(())
}

#[test]
fn an_argument_that_is_no_text_is_refused(rt: HostRuntime) -> Result<(), Fail> {
    let arguments = arguments_of(rt.alloc(), &[b"name", b"\xff"])?;
    let mut source = source_of(rt.alloc(), b"L\tu\tb\n", 9, 0)?;
    let mut sink = sink_of(rt.alloc(), 99, 9, 0)?;
    let outcome = run_over(rt.alloc(), &arguments, &mut source, &mut sink, 6)?;
    assert_eq!(rt; outcome.as_str(), "2 unread []");
    Ok(())
}
