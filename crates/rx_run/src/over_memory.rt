//! The program over memory: what its statuses say there.
ghost use Rattle.std.specs.Prelude.{◌≡◌, ◌≢◌, ◌<◌, ℕ, List as Sequence, true, false, IfOk, length, ◌++◌};
ghost use Rattle.std.specs.List.{AllZip, concat};
ghost use Rattle.rx_run.specs.Outcome.{IsAnswered};
ghost use Rattle.rx_run.specs.Lines.{lines_of};
ghost use Rattle.rx_run.specs.Reply.{IsReply, answers, without_words};

use crate::run::{Status, run};
use rx_base::{CleanSink, CleanSource, List, MemorySink, OutOfMemory, Text};
use std::alloc::Global;

/// Over ends that never fail no fault is answered.
pub fn run_clean(alloc: Global, words: &[Text], input: &[u8]) -> Status
    ensures read { result ≢ Status.ReadFault }
    ensures write { result ≢ Status.WriteFault }
{
    let mut source = CleanSource::new(input);
    let mut sink = CleanSink::new();
    run(alloc, words, &mut source, &mut sink)
}

/// The replies to a text in memory, in a room of n bytes.
pub fn replies(
    alloc: Global,
    input: &[u8],
    room: usize,
) -> Result<(Status, MemorySink), OutOfMemory>
    ensures all_ok { IfOk result (λ p. p.0 ≡ Status.AllOk → IsAnswered (answers without_words) input.now p.1.taken true) }
    ensures some_refused { IfOk result (λ p. p.0 ≡ Status.SomeRefused → IsAnswered (answers without_words) input.now p.1.taken false) }
    ensures usage { IfOk result (λ p. p.0 ≢ Status.Usage) }
    ensures read_fault { IfOk result (λ p. p.0 ≢ Status.ReadFault) }
    ensures too_much { IfOk result (λ p. p.0 ≡ Status.TooMuch → 67108864 < length input.now) }

    // The replies to the first lines take more than the room.
    ensures write_fault { IfOk result (λ p. p.0 ≡ Status.WriteFault → (read left : Sequence ℕ) × (lines later replies : Sequence (Sequence ℕ))
        × (input.now ≡ read ++ left) × (lines_of read ≡ lines ++ later) × AllZip (IsReply without_words) lines replies × (room < length (concat replies))) }
{
    let words: List<Text> = List::new(alloc);
    let mut source = CleanSource::new(input);
    let mut sink = MemorySink::new(alloc, room, List::new(alloc), 4096)?;
    let status = run(alloc, words.as_slice(), &mut source, &mut sink);

    // Its contract says that a fault comes only where all room is taken.
    let _ = sink.bytes();
    Ok((status, sink))
}
