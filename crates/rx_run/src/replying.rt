ghost use Rattle.std.specs.Prelude.{◌≡◌, ◌&&◌, ◌++◌, ℕ, Bool, List, [], OnOk};
ghost use Rattle.rx_base.specs.Writing.{Written};

use rx_base::{Failed, OutOfMemory, Sink};

/// Replies to lines, which are gathered and then written. They are made with a line and with what `With` is.
///
/// `answers` says what a reply to a line is, and whether it counts as ok. `waiting` is the replies that are to be written next, and
/// `so_far` says whether all so far count as ok.
pub trait Replying<With>: Drop {
    ghost answers: { With → List ℕ → List ℕ → Bool → Type 0 };

    ghost waiting: { Self → List ℕ };

    ghost so_far: { Self → Bool };

    /// Adds the reply to a line. After an error nothing is said of what waits.
    fn add(&mut self, with: &With, line: &[u8]) -> Result<(), OutOfMemory>
        ensures { OnOk result ((reply : List ℕ) × (ok : Bool) × answers with.now line.now reply ok
            × (waiting self.new ≡ waiting self.old ++ reply) × (so_far self.new ≡ (so_far self.old && ok))) };

    /// Writes the replies that were added since the last write.
    fn write<K: Sink>(&mut self, sink: &mut K) -> Result<(), Failed>
        ensures written { Written K.taken K.fixed K.faults sink.old sink.new result (waiting self.old) }
        ensures so_far { so_far self.new ≡ so_far self.old }
        ensures waiting { waiting self.new ≡ [] };

    /// Whether all replies so far count as ok.
    fn are_ok(&self) -> bool
        ensures { result ≡ so_far self.now };
}
