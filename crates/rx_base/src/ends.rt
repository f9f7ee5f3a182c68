ghost use Rattle.std.specs.Prelude.{◌≡◌, ◌+◌, ◌<◌, ℕ, List, [], Option, length, IfOk, OnErr, MatchResult};
ghost use Rattle.std.specs.Io.{ReadsAtMost, WritesAtMost};
ghost use Rattle.std.specs.Io.KnownBytes.{ReadConsumes, WriteAppends};
ghost use Rattle.rx_base.specs.FaultCounts.{CountsFaults};

/// A source or a sink had a fault, which its count of faults shows.
#[derive(Clone, Copy, Debug, PartialEq, Eq)]
pub struct Failed;

/// Where bytes come from.
///
/// `left` is the bytes still to come, where the source tells them. `drawn` is the number of bytes given so far, which every source
/// tells. `faults` is a number that never falls. It *rose* in a call if it is higher at the end of the call, or is
/// 18446744073709551615 then. A call that does not fail leaves it as it was.
pub trait Source {
    ghost left: { Self → Option (List ℕ) };

    ghost drawn: { Self → ℕ };

    ghost faults: { Self → ℕ };

    /// Puts the next bytes at the front of the buffer, and says how many. No bytes for a buffer that is not empty means the end.
    /// Answers `Failed` only if `faults` rose, and then gives no bytes.
    fn read(&mut self, buf: &mut [u8]) -> Result<usize, Failed>
        ensures bound { ReadsAtMost result buf.new }
        ensures bytes { ReadConsumes (left self.old) (left self.new) result buf.new }
        ensures count { MatchResult result (λ count. drawn self.new ≡ drawn self.old + count) (λ _. drawn self.new ≡ drawn self.old) }
        ensures kept { OnErr result (left self.new ≡ left self.old) }
        ensures cause { CountsFaults (faults self.old) (faults self.new) result };
}

/// Where bytes go.
///
/// `taken` is the bytes accepted so far, where the sink tells them. `faults` is like that of a source. `fixed` is what no write
/// changes, such as the room of a sink.
pub trait Sink {
    ghost taken: { Self → Option (List ℕ) };

    // Why: docs/DECISIONS.md, 5.
    ghost fixed: { Self → List ℕ } = { λ _. [] };

    ghost faults: { Self → ℕ };

    /// Takes the front of the piece, at least one byte unless it is empty, and says how many bytes. Answers `Failed` only if
    /// `faults` rose, and then takes none.
    fn write(&mut self, piece: &[u8]) -> Result<usize, Failed>
        ensures bound { WritesAtMost result piece.now }
        ensures moves { 0 < length piece.now → IfOk result (λ count. 0 < count) }
        ensures bytes { WriteAppends (taken self.old) (taken self.new) result piece.now }
        ensures kept { OnErr result (taken self.new ≡ taken self.old) }
        ensures fixed { fixed self.new ≡ fixed self.old }
        ensures cause { CountsFaults (faults self.old) (faults self.new) result };
}
