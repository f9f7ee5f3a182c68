ghost use Rattle.std.specs.Prelude.{◌≡◌, ◌≤◌, ◌∷◌, ◌++◌, ℕ, Bool, List as Sequence, [], IsTrue, ◌&&◌, OnOk, IfOk, IfErr, IsErrOf};
ghost use Rattle.std.specs.Io.KnownBytes.{Appends};
ghost use Rattle.rx_base.specs.Ascii as ascii;
ghost use Rattle.rx_base.specs.FaultCounts.{Rose};
ghost use Rattle.rx_run.specs.Lines.{lacks};
ghost use Rattle.rx_run.specs.Serving.{LooksAtFronts, Serves, Halts, Ends};
ghost use Rattle.rx_run.specs.WholeInput.{least_missing};

use crate::line::Line;
use crate::pieces::split_at_byte;
use crate::replying::Replying;
use rx_base::{Failed, OutOfMemory, Sink};
use std::alloc::Global;

/// Why the replies were not written whole.
#[derive(Clone, Copy)]
pub enum ReplyFault {
    /// The sink had a fault.
    Write,

    /// There was not enough memory.
    OutOfMemory,
}

impl From<Failed> for ReplyFault {
    ghost use Rattle.std.specs.Prelude.{◌≡◌};
    ghost use Rattle.rx_run.specs.declared.server.ReplyFault.TheVariants as fault;

    ghost from_gives = { λ _ e. e ≡ fault.Write };

    fn from(_: Failed) -> ReplyFault {
        ReplyFault::Write
    }
}

impl From<OutOfMemory> for ReplyFault {
    ghost use Rattle.std.specs.Prelude.{◌≡◌};
    ghost use Rattle.rx_run.specs.declared.server.ReplyFault.TheVariants as fault;

    ghost from_gives = { λ _ e. e ≡ fault.OutOfMemory };

    fn from(_: OutOfMemory) -> ReplyFault {
        ReplyFault::OutOfMemory
    }
}

/// The line that is being read, and the replies.
#[derive(Drop)]
pub struct Server<R> {
    pub line: Line,
    pub replies: R,
}

impl<R> Server<R> {
    /// Takes no memory.
    pub fn new(alloc: Global, replies: R) -> Server<R>
        ensures line { result.line.bytes ≡ [] }
        ensures replies { result.replies ≡ replies }
    {
        Server {
            line: Line::new(alloc),
            replies,
        }
    }

    /// Takes the last piece of a line, and answers the line.
    fn end_line<With>(&mut self, with: &With, piece: &[u8]) -> Result<(), OutOfMemory>
    where
        R: Replying<With>,
        requires fronts { LooksAtFronts (R.answers with.now) }
        requires piece { IsTrue (lacks ascii.line_feed piece.now) }
        ensures { OnOk result ((new : Sequence ℕ) × (R.waiting self.new.replies ≡ R.waiting self.old.replies ++ new)
            × Serves (R.answers with.now) self.old.line.bytes (R.so_far self.old.replies) (piece.now ++ ascii.line_feed ∷ []) new self.new.line.bytes (R.so_far self.new.replies)) }
    {
        if self.line.is_empty() {
            return self.replies.add(with, piece);
        }
        self.line.keep(piece)?;
        self.answer(with)
    }

    /// Answers the line, and begins the next.
    fn answer<With>(&mut self, with: &With) -> Result<(), OutOfMemory>
    where
        R: Replying<With>,
        ensures reply { OnOk result ((reply : Sequence ℕ) × (ok : Bool) × R.answers with.now self.old.line.bytes reply ok
            × (R.waiting self.new.replies ≡ R.waiting self.old.replies ++ reply)
            × (R.so_far self.new.replies ≡ (R.so_far self.old.replies && ok))) }
        ensures line { OnOk result (self.new.line.bytes ≡ []) }
    {
        self.replies.add(with, self.line.bytes.as_slice())?;
        self.line.clear();
        Ok(())
    }

    /// Takes the next bytes of the input, and answers each line that ends in them.
    fn answer_lines<With>(&mut self, with: &With, bytes: &[u8]) -> Result<(), OutOfMemory>
    where
        R: Replying<With>,
        requires { LooksAtFronts (R.answers with.now) }
        ensures { OnOk result ((new : Sequence ℕ) × (R.waiting self.new.replies ≡ R.waiting self.old.replies ++ new)
            × Serves (R.answers with.now) self.old.line.bytes (R.so_far self.old.replies) bytes.now new self.new.line.bytes (R.so_far self.new.replies)) }
    {
        let mut rest = bytes;
        'lines: while let Some((piece, after)) = split_at_byte(b'\n', rest) {
            self.end_line(with, piece)?;
            rest = after;
        }
        self.line.keep(rest)
    }

    /// Takes the next bytes of the input, and writes the replies to the lines that end in them.
    pub fn feed<With, K: Sink>(
        &mut self,
        with: &With,
        bytes: &[u8],
        sink: &mut K,
    ) -> Result<(), ReplyFault>
    where
        R: Replying<With>,
        requires fronts { LooksAtFronts (R.answers with.now) }
        requires waiting { R.waiting self.old.replies ≡ [] }
        ensures ok { OnOk result ((new : Sequence ℕ) × Appends (K.taken sink.old) (K.taken sink.new) new
            × Serves (R.answers with.now) self.old.line.bytes (R.so_far self.old.replies) bytes.now new self.new.line.bytes (R.so_far self.new.replies)) }
        ensures done { OnOk result (R.waiting self.new.replies ≡ []) }
        ensures err { IfErr result (λ fault. (part : Sequence ℕ) × Appends (K.taken sink.old) (K.taken sink.new) part
            × Halts (R.answers with.now) self.old.line.bytes bytes.now part (least_missing fault)) }
        ensures fixed { K.fixed sink.new ≡ K.fixed sink.old }
        ensures later { K.faults sink.old ≤ K.faults sink.new }
        ensures same { ¬ IsErrOf result ReplyFault.Write → K.faults sink.new ≡ K.faults sink.old }
        ensures write { IsErrOf result ReplyFault.Write → Rose (K.faults sink.old) (K.faults sink.new) }
    {
        self.answer_lines(with, bytes)?;
        self.replies.write(sink)?;
        Ok(())
    }

    /// Answers a last line with no LF, and says whether every reply counts as ok.
    pub fn finish<With, K: Sink>(&mut self, with: &With, sink: &mut K) -> Result<bool, ReplyFault>
    where
        R: Replying<With>,
        requires fronts { LooksAtFronts (R.answers with.now) }
        requires waiting { R.waiting self.old.replies ≡ [] }
        ensures ok { IfOk result (λ ok. (new : Sequence ℕ) × Appends (K.taken sink.old) (K.taken sink.new) new
            × Ends (R.answers with.now) self.old.line.bytes (R.so_far self.old.replies) new ok) }
        ensures err { IfErr result (λ fault. (part : Sequence ℕ) × Appends (K.taken sink.old) (K.taken sink.new) part
            × Halts (R.answers with.now) self.old.line.bytes [] part (least_missing fault)) }
        ensures fixed { K.fixed sink.new ≡ K.fixed sink.old }
        ensures later { K.faults sink.old ≤ K.faults sink.new }
        ensures same { ¬ IsErrOf result ReplyFault.Write → K.faults sink.new ≡ K.faults sink.old }
        ensures write { IsErrOf result ReplyFault.Write → Rose (K.faults sink.old) (K.faults sink.new) }
    {
        if self.line.is_empty() {
            return Ok(self.replies.are_ok());
        }
        self.answer(with)?;
        self.replies.write(sink)?;
        Ok(self.replies.are_ok())
    }
}
