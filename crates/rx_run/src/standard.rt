//! Standard input and standard output as ends of the program, and the arguments of the process.
ghost use Rattle.std.specs.Prelude.{◌≡◌, ◌<◌, ◌≤◌, ◌+◌, ◌^◌, ◌↔◌, ◌⊎◌, ℕ, None, Ok, IsNone, IfSome, IsErr, IsOkAnd, IfOk, OnOk, OnErr, MatchResult, length, take};
ghost use Rattle.std.specs.Io.{ReadsAtMost, WritesAtMost};
ghost use Rattle.std.specs.Io.KnownBytes.{Keeps, Consumes, IsAtEnd, WriteAppends};
ghost use Rattle.rx_base.specs.FaultCounts.{CountsFaults};
ghost use Rattle.rx_base.specs.Memory.{next_number};

use crate::arguments::Arguments;
use rx_base::{Failed, Sink, Source};
use std::env::{Env, FillError};
use std::io::{self, Read, Write};

/// A reader as a source. It does not tell what is left.
#[derive(Drop)]
pub struct StdSource<R: Read + Drop> {
    reader: R,
    drawn: u64,
    faults: u64,
}

impl<R: Read + Drop> StdSource<R> {
    pub fn new(reader: R) -> StdSource<R>
        ensures { result ≡ record { reader = reader; drawn = 0; faults = 0 } }
    {
        StdSource {
            reader,
            drawn: 0,
            faults: 0,
        }
    }
}

/// What a reader's answer is after n bytes: the number of bytes read, and that of all. None where the reader had an error, and
/// where the number of all would pass its last value.
fn read_count(drawn: u64, answer: io::Result<usize>) -> Option<(usize, u64)>
    ensures none { IsNone result ↔ (IsErr answer ⊎ IsOkAnd answer (λ count. 2 ^ 64 ≤ drawn + count)) }
    ensures some { IfSome result (λ counts. (answer ≡ Ok counts.0) × (counts.1 ≡ drawn + counts.0)) }
{
    let count = answer.ok()?;
    let all = drawn.checked_add(count as u64)?;
    Some((count, all))
}

/// A read by which the count of bytes would pass its last value is a fault too.
impl<R: Read + Drop> Source for StdSource<R> {
    ghost left = { λ _. None };

    ghost drawn = { λ s. s.drawn };

    ghost faults = { λ s. s.faults };

    fn read(&mut self, buf: &mut [u8]) -> Result<usize, Failed>
        ensures bound { ReadsAtMost result buf.new }
        ensures count { MatchResult result (λ count. self.new.drawn ≡ self.old.drawn + count) (λ _. self.new.drawn ≡ self.old.drawn) }
        ensures cause { CountsFaults self.old.faults self.new.faults result }

        // Each fault is counted, and nothing else is.
        ensures fault { OnErr result (self.new.faults ≡ next_number self.old.faults) }
        ensures no_fault { OnOk result (self.new.faults ≡ self.old.faults) }

        // Where the reader's bytes are known: an Ok gives the next of them, and none only at their end; an Err loses none, unless the
        // count of all bytes would have passed its last value.
        ensures given { IfOk result (λ count. Consumes (R.remaining self.old.reader) (R.remaining self.new.reader) (take count buf.new)) }
        ensures end { IfOk result (λ count. count ≡ 0 → 0 < length buf.old → IsAtEnd (R.remaining self.new.reader)) }
        ensures kept { OnErr result (Keeps (R.remaining self.old.reader) (R.remaining self.new.reader)
            ⊎ ((count : ℕ) × (count ≤ length buf.old) × (2 ^ 64 ≤ self.old.drawn + count)
            × Consumes (R.remaining self.old.reader) (R.remaining self.new.reader) (take count buf.new))) }
    {
        match read_count(self.drawn, self.reader.read(buf)) {
            Some((count, drawn)) => {
                self.drawn = drawn;
                Ok(count)
            }
            None => {
                self.faults = self.faults.saturating_add(1);
                Err(Failed)
            }
        }
    }
}

/// A writer as a sink. It does not tell what it took.
#[derive(Drop)]
pub struct StdSink<W: Write + Drop> {
    writer: W,
    faults: u64,
}

impl<W: Write + Drop> StdSink<W> {
    pub fn new(writer: W) -> StdSink<W>
        ensures { result ≡ record { writer = writer; faults = 0 } }
    {
        StdSink { writer, faults: 0 }
    }
}

/// How many bytes of a piece a writer took, by its answer. None where the writer had an error, and where it took nothing of a piece
/// that is not empty.
fn write_count(piece: &[u8], answer: io::Result<usize>) -> Option<usize>
    ensures none { IsNone result ↔ (IsErr answer ⊎ ((answer ≡ Ok 0) × (0 < length piece.now))) }
    ensures some { IfSome result (λ count. answer ≡ Ok count) }
{
    let count = answer.ok()?;
    if count == 0 && !piece.is_empty() {
        return None;
    }
    Some(count)
}

/// A write of some bytes that takes none is a fault too.
impl<W: Write + Drop> Sink for StdSink<W> {
    ghost taken = { λ _. None };

    ghost faults = { λ s. s.faults };

    fn write(&mut self, piece: &[u8]) -> Result<usize, Failed>
        ensures bound { WritesAtMost result piece.now }
        ensures moves { 0 < length piece.now → IfOk result (λ count. 0 < count) }
        ensures cause { CountsFaults self.old.faults self.new.faults result }

        // Each fault is counted, and nothing else is.
        ensures fault { OnErr result (self.new.faults ≡ next_number self.old.faults) }
        ensures no_fault { OnOk result (self.new.faults ≡ self.old.faults) }

        // Where the writer's bytes are known: an Ok added the front of the piece that it tells, an Err added nothing.
        ensures added { WriteAppends (W.contents self.old.writer) (W.contents self.new.writer) result piece.now }
    {
        match write_count(piece, self.writer.write(piece)) {
            Some(count) => Ok(count),
            None => {
                self.faults = self.faults.saturating_add(1);
                Err(Failed)
            }
        }
    }
}

/// The arguments of the process. It does not tell them.
#[derive(Drop)]
pub struct StdArguments<E: Env + Drop> {
    env: E,
}

impl<E: Env + Drop> StdArguments<E> {
    pub fn new(env: E) -> StdArguments<E>
        ensures { result ≡ record { env = env } }
    {
        StdArguments { env }
    }
}

impl<E: Env + Drop> Arguments for StdArguments<E> {
    ghost given = { λ _. None };

    fn argument(&self, index: usize, buffer: &mut [u8]) -> Result<usize, FillError> {
        self.env.arg(index, buffer)
    }
}
