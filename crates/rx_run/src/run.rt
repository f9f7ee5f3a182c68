ghost use Rattle.std.specs.Prelude.{◌≡◌, ◌≢◌, ◌≤◌, ◌<◌, ◌+◌, ◌↔◌, ℕ, [], true, OnOk, IfErr, IsErrOf};
ghost use Rattle.std.specs.Io.KnownBytes.{IsAtEnd};
ghost use Rattle.rx_base.specs.FaultCounts.{Rose};
ghost use Rattle.rx_command.specs.declared.service.Service.{Service as Services};
ghost use Rattle.rx_command.specs.declared.notice.Notice.{Notice as Notices};
ghost use Rattle.rx_command.specs.Command.{IsCommand, IsGen, IsStated};
ghost use Rattle.rx_command.specs.Notices.{notice_text};
ghost use Rattle.rx_json_reply.specs.Answers.{IsJsonReply};
ghost use Rattle.rx_run.specs.Faults.{TellsFaults};
ghost use Rattle.rx_run.specs.Generator.{IsGenOutput};
ghost use Rattle.rx_run.specs.Limits.{IsPast, IsReadOut, most_read};
ghost use Rattle.rx_run.specs.Outcome.{ReadsAndWrites};
ghost use Rattle.rx_run.specs.Reply.{answers};
ghost use Rattle.rx_run.specs.Serving.{LooksAtFronts, Progress};
ghost use Rattle.rx_run.specs.Status.{Outcome, IsFinished, PrintOutcome, Prints, number_of};
ghost use Rattle.rx_run.specs.WholeInput.{IsServed, status_of as served_status};

use crate::generator::generate;
use crate::input::{INPUT_LIMIT, Input, InputFault};
use crate::replies::Replies;
use crate::replying::Replying;
use crate::server::{ReplyFault, Server};
use rx_base::{Failed, OutOfMemory, Sink, Source, Text, write_all};
use rx_command::Command;
use rx_json_reply::Replies as JsonReplies;
use std::alloc::Global;

/// How much is read at once, in bytes.
const CHUNK: usize = 65536;

/// Why the input was not answered to its end.
#[derive(Clone, Copy)]
pub enum Interruption {
    /// There was not enough memory for the buffer.
    OutOfMemory,
    Input(InputFault),
    Reply(ReplyFault),
}

impl From<OutOfMemory> for Interruption {
    ghost use Rattle.std.specs.Prelude.{◌≡◌};
    ghost use Rattle.rx_run.specs.declared.run.Interruption.TheVariants as interruption;

    ghost from_gives = { λ _ e. e ≡ interruption.OutOfMemory };

    fn from(_: OutOfMemory) -> Interruption {
        Interruption::OutOfMemory
    }
}

impl From<InputFault> for Interruption {
    ghost use Rattle.std.specs.Prelude.{◌≡◌};
    ghost use Rattle.rx_run.specs.declared.run.Interruption.TheVariants as interruption;

    ghost from_gives = { λ fault e. e ≡ interruption.Input fault };

    fn from(fault: InputFault) -> Interruption {
        Interruption::Input(fault)
    }
}

impl From<ReplyFault> for Interruption {
    ghost use Rattle.std.specs.Prelude.{◌≡◌};
    ghost use Rattle.rx_run.specs.declared.run.Interruption.TheVariants as interruption;

    ghost from_gives = { λ fault e. e ≡ interruption.Reply fault };

    fn from(fault: ReplyFault) -> Interruption {
        Interruption::Reply(fault)
    }
}

/// How a run of the program ended.
#[derive(Clone, Copy, Debug, PartialEq, Eq)]
pub enum Status {
    /// The input was read to its end, every reply was written, and every reply begins with `ok`, or as JSON has the status `ok`. Of the commands
    /// that read nothing: what they write was written.
    AllOk,

    /// The input was read to its end, every reply was written, and some reply does not count as ok. Not of the
    /// commands that read nothing.
    SomeRefused,

    /// The words are none of the stated lists.
    Usage,

    /// The source had a fault.
    ReadFault,

    /// The sink had a fault.
    WriteFault,

    /// There was not enough memory.
    OutOfMemory,

    /// The input is longer than is read. Not of `json`.
    TooMuch,
}

impl Status {
    /// The number that the process ends with.
    pub fn number(self) -> u8
        ensures { result ≡ number_of self }
    {
        match self {
            Status::AllOk => 0,
            Status::SomeRefused => 1,
            Status::Usage => 2,
            Status::ReadFault => 3,
            Status::WriteFault => 4,
            Status::OutOfMemory => 5,
            Status::TooMuch => 6,
        }
    }
}

impl From<OutOfMemory> for Status {
    ghost use Rattle.std.specs.Prelude.{◌≡◌};
    ghost use Rattle.rx_run.specs.declared.run.Status.TheVariants as status;

    ghost from_gives = { λ _ e. e ≡ status.OutOfMemory };

    fn from(_: OutOfMemory) -> Status {
        Status::OutOfMemory
    }
}

/// Reads the input to its end, and answers each line that ends with LF.
fn feed_all<With, R: Replying<With>, S: Source, K: Sink>(
    server: &mut Server<R>,
    with: &With,
    input: &mut Input,
    source: &mut S,
    sink: &mut K,
) -> Result<(), Interruption>
    requires fronts { LooksAtFronts (R.answers with.now) }
    requires line { server.old.line.bytes ≡ [] }
    requires waiting { R.waiting server.old.replies ≡ [] }
    requires so_far { R.so_far server.old.replies ≡ true }
    ensures ok { OnOk result (Progress (R.answers with.now) (S.left source.old) (S.left source.new) (S.drawn source.old) (S.drawn source.new)
        (K.taken sink.old) (K.taken sink.new) server.new.line.bytes (R.so_far server.new.replies)) }
    ensures done { OnOk result (R.waiting server.new.replies ≡ []) }
    ensures end { OnOk result (IsReadOut (S.left source.new) (S.drawn source.old) (S.drawn source.new)) }
    ensures err { IfErr result (λ fault. ReadsAndWrites (S.left source.old) (S.left source.new) (S.drawn source.old) (S.drawn source.new)
        (K.taken sink.old) (K.taken sink.new) (IsServed (R.answers with.now) (Err fault))) }
    ensures faults { TellsFaults S.faults K.faults K.fixed source.old source.new sink.old sink.new
        (IsErrOf result (Interruption.Input InputFault.Read)) (IsErrOf result (Interruption.Reply ReplyFault.Write)) }
    ensures too_much { IsErrOf result (Interruption.Input InputFault.TooMuch) ↔ IsPast (most_read (S.drawn source.old) input.old.limit) (S.drawn source.new) }
{
    'chunks: for _ in 0..u64::MAX {
        let count = input.fill(source)?;
        if count == 0 {
            return Ok(());
        }
        server.feed(with, input.bytes(count), sink)?;
    }
    Ok(())
}

/// Reads the input to its end, answers each line, and says whether each reply counts as ok.
fn serve<With, R: Replying<With>, S: Source, K: Sink>(
    mut server: Server<R>,
    with: &With,
    limit: Option<u64>,
    source: &mut S,
    sink: &mut K,
) -> Result<bool, Interruption>
    requires fronts { LooksAtFronts (R.answers with.now) }
    requires line { server.line.bytes ≡ [] }
    requires waiting { R.waiting server.replies ≡ [] }
    requires so_far { R.so_far server.replies ≡ true }
    ensures content { ReadsAndWrites (S.left source.old) (S.left source.new) (S.drawn source.old) (S.drawn source.new)
        (K.taken sink.old) (K.taken sink.new) (IsServed (R.answers with.now) result) }
    ensures end { OnOk result (IsReadOut (S.left source.new) (S.drawn source.old) (S.drawn source.new)) }
    ensures faults { TellsFaults S.faults K.faults K.fixed source.old source.new sink.old sink.new
        (IsErrOf result (Interruption.Input InputFault.Read)) (IsErrOf result (Interruption.Reply ReplyFault.Write)) }
    ensures too_much { IsErrOf result (Interruption.Input InputFault.TooMuch) ↔ IsPast (most_read (S.drawn source.old) limit) (S.drawn source.new) }
{
    let mut input = Input::new(server.line.allocator(), CHUNK, limit)?;
    feed_all(&mut server, with, &mut input, source, sink)?;
    let all_ok = server.finish(with, sink)?;
    Ok(all_ok)
}

/// Answers the lines of the input.
fn run_lines<With, R: Replying<With>, S: Source, K: Sink>(
    server: Server<R>,
    with: &With,
    limit: Option<u64>,
    source: &mut S,
    sink: &mut K,
) -> Status
    requires fronts { LooksAtFronts (R.answers with.now) }
    requires line { server.line.bytes ≡ [] }
    requires waiting { R.waiting server.replies ≡ [] }
    requires so_far { R.so_far server.replies ≡ true }
    ensures content { ReadsAndWrites (S.left source.old) (S.left source.new) (S.drawn source.old) (S.drawn source.new)
        (K.taken sink.old) (K.taken sink.new) (Outcome (R.answers with.now) result) }
    ensures end { IsFinished result → IsReadOut (S.left source.new) (S.drawn source.old) (S.drawn source.new) }
    ensures usage { result ≢ Status.Usage }
    ensures faults { TellsFaults S.faults K.faults K.fixed source.old source.new sink.old sink.new (result ≡ Status.ReadFault) (result ≡ Status.WriteFault) }
    ensures too_much { (result ≡ Status.TooMuch) ↔ IsPast (most_read (S.drawn source.old) limit) (S.drawn source.new) }
{
    status_of(serve(server, with, limit, source, sink))
}

/// The status that says how an answering of the whole input ended.
fn status_of(served: Result<bool, Interruption>) -> Status
    ensures { result ≡ served_status served }
{
    match served {
        Ok(true) => Status::AllOk,
        Ok(false) => Status::SomeRefused,
        Err(Interruption::OutOfMemory) => Status::OutOfMemory,
        Err(Interruption::Input(InputFault::Read)) => Status::ReadFault,
        Err(Interruption::Input(InputFault::TooMuch)) => Status::TooMuch,
        Err(Interruption::Reply(ReplyFault::Write)) => Status::WriteFault,
        Err(Interruption::Reply(ReplyFault::OutOfMemory)) => Status::OutOfMemory,
    }
}

/// Makes patterns and writes what came of them, as the program does with the words of `gen`.
fn run_generate<K: Sink>(alloc: Global, seed: u32, count: u32, sink: &mut K) -> Status
    requires { count ≤ 20000 }
    ensures written { PrintOutcome (IsGenOutput seed count) result (K.taken sink.old) (K.taken sink.new) }
    ensures fixed { K.fixed sink.new ≡ K.fixed sink.old }
    ensures write_fault { result ≡ Status.WriteFault → Rose (K.faults sink.old) (K.faults sink.new) }
    ensures no_write_fault { result ≢ Status.WriteFault → K.faults sink.new ≡ K.faults sink.old }
{
    match generate(alloc, seed, count, sink) {
        Ok(()) => Status::AllOk,
        Err(ReplyFault::Write) => Status::WriteFault,
        Err(ReplyFault::OutOfMemory) => Status::OutOfMemory,
    }
}

/// Writes a text.
fn run_print<K: Sink>(text: &str, sink: &mut K) -> Status
    ensures written { PrintOutcome (λ written. written ≡ text.now) result (K.taken sink.old) (K.taken sink.new) }
    ensures memory { result ≢ Status.OutOfMemory }
    ensures fixed { K.fixed sink.new ≡ K.fixed sink.old }
    ensures write_fault { result ≡ Status.WriteFault → Rose (K.faults sink.old) (K.faults sink.new) }
    ensures no_write_fault { result ≢ Status.WriteFault → K.faults sink.new ≡ K.faults sink.old }
{
    match write_all(sink, text.as_bytes()) {
        Ok(()) => Status::AllOk,
        Err(Failed) => Status::WriteFault,
    }
}

/// Does all that the program does, for the words after its name. The stated lists of words are none, `display`, `support LIST`, `match BUDGET TEXT`,
/// `steps TEXT MOST`, `paint`, `paint color`, `lint`, `rewrite` and `rewrite LIST`, each also after `strict` or `standard`; and `json`, `gen SEED COUNT`,
/// `--help` and `--version`.
pub fn run<S: Source, K: Sink>(
    alloc: Global,
    words: &[Text],
    source: &mut S,
    sink: &mut K,
) -> Status
    // What was read and written where the lines are answered: where the input was read to its end, one reply to each line, in order, and
    // nothing else; else the front of the replies to the first lines.
    ensures content { (service : Services) → IsCommand words.now (Command.Serve service)
        → ReadsAndWrites (S.left source.old) (S.left source.new) (S.drawn source.old) (S.drawn source.new)
        (K.taken sink.old) (K.taken sink.new) (Outcome (answers service) result) }
    ensures end { (service : Services) → IsCommand words.now (Command.Serve service) → IsFinished result → IsAtEnd (S.left source.new) }

    // The same where they are answered as JSON, with no limit to the input.
    ensures json { IsCommand words.now Command.Json
        → ReadsAndWrites (S.left source.old) (S.left source.new) (S.drawn source.old) (S.drawn source.new)
        (K.taken sink.old) (K.taken sink.new) (Outcome IsJsonReply result) }
    ensures json_end { IsCommand words.now Command.Json → IsFinished result → IsReadOut (S.left source.new) (S.drawn source.old) (S.drawn source.new) }
    ensures no_limit { IsCommand words.now Command.Json → result ≢ Status.TooMuch }

    // With the words of `gen` nothing is read, and the line is written, or a front of it, or nothing.
    ensures generated { (seed count : ℕ) → IsGen words.now seed count → Prints K.taken source.old source.new sink.old sink.new (IsGenOutput seed count) result }

    // With `--help` and `--version` nothing is read, and the text is written, or after a fault a front of it; no memory is taken.
    ensures printed { (notice : Notices) → IsCommand words.now (Command.Print notice)
        → Prints K.taken source.old source.new sink.old sink.new (λ text. text ≡ notice_text notice) result × (result ≢ Status.OutOfMemory) }

    // When each status comes. Where a status says nothing of a fault, there was none. So where none of these facts holds, memory ran out, or the input was
    // answered, or the line written.
    ensures usage { (result ≡ Status.Usage) ↔ ¬ IsStated words.now }
    ensures untouched { result ≡ Status.Usage → (source.new ≡ source.old) × (sink.new ≡ sink.old) }
    ensures faults { TellsFaults S.faults K.faults K.fixed source.old source.new sink.old sink.new (result ≡ Status.ReadFault) (result ≡ Status.WriteFault) }
    ensures too_much { ¬ IsCommand words.now Command.Json → (result ≡ Status.TooMuch) ↔ (S.drawn source.old + 67108864 < S.drawn source.new) }
{
    match Command::parse(words) {
        None => Status::Usage,
        Some(Command::Serve(service)) => {
            let server = Server::new(alloc, Replies::new(alloc));
            run_lines(server, &service, Some(INPUT_LIMIT), source, sink)
        }
        Some(Command::Json) => {
            let server = Server::new(alloc, JsonReplies::new(alloc));
            run_lines(server, &alloc, None, source, sink)
        }
        Some(Command::Generate { seed, count }) => run_generate(alloc, seed, count, sink),
        Some(Command::Print(notice)) => run_print(notice.text(), sink),
    }
}
