ghost use Rattle.std.specs.Prelude.{◌≡◌, ◌≤◌, ◌<◌, ◌+◌, ℕ, List as Sequence, take, vec_len, IfOk, IfErr, OnOk, OnErr, IsErrOf};
ghost use Rattle.std.specs.Io.KnownBytes.{IsAtEnd};
ghost use Rattle.rx_base.specs.FaultCounts.{Rose};
ghost use Rattle.rx_run.specs.Limits.{IsPast, most_read};
ghost use Rattle.rx_run.specs.Outcome.{Reads};

use rx_base::{Failed, OutOfMemory, Source};
use std::alloc::Global;

/// The longest input that is read, in bytes.
pub const INPUT_LIMIT: u64 = 67108864;

/// Why no bytes came.
#[derive(Clone, Copy)]
pub enum InputFault {
    /// The source had a fault.
    Read,

    /// The source gave more bytes than the limit.
    TooMuch,
}

impl From<Failed> for InputFault {
    ghost use Rattle.std.specs.Prelude.{◌≡◌};
    ghost use Rattle.rx_run.specs.declared.input.InputFault.TheVariants as fault;

    ghost from_gives = { λ _ e. e ≡ fault.Read };

    fn from(_: Failed) -> InputFault {
        InputFault::Read
    }
}

/// A buffer for the bytes that come next, and how many bytes may still come, where there is a limit.
#[derive(Drop)]
pub struct Input {
    buffer: Vec<u8>,
    limit: Option<u64>,
    ghost has_room: { 0 < vec_len buffer },
}

impl Input {
    /// Takes memory for n bytes, and no more later.
    pub fn new(alloc: Global, size: usize, limit: Option<u64>) -> Result<Input, OutOfMemory>
        requires { 0 < size }
        ensures { IfOk result (λ input. input.limit ≡ limit) }
    {
        Ok(Input {
            buffer: vec![in alloc; 0u8; size]?,
            limit,
        })
    }

    /// Reads the next bytes to the front of the buffer, none at the end of the input, and says how many.
    pub fn fill<S: Source>(&mut self, source: &mut S) -> Result<usize, InputFault>
        ensures ok { IfOk result (λ count. (count ≤ vec_len self.new.buffer)
            × Reads (S.left source.old) (S.left source.new) (S.drawn source.old) (S.drawn source.new) (take count self.new.buffer.items)
            × (S.drawn source.new ≡ S.drawn source.old + count)) }
        ensures end { IfOk result (λ count. count ≡ 0 → IsAtEnd (S.left source.new)) }
        ensures limit { OnOk result (most_read (S.drawn source.new) self.new.limit ≡ most_read (S.drawn source.old) self.old.limit) }
        ensures within { OnOk result (¬ IsPast (most_read (S.drawn source.old) self.old.limit) (S.drawn source.new)) }
        ensures err { OnErr result ((bytes : Sequence ℕ)
            × Reads (S.left source.old) (S.left source.new) (S.drawn source.old) (S.drawn source.new) bytes) }
        ensures read { IsErrOf result InputFault.Read → (S.drawn source.new ≡ S.drawn source.old) × Rose (S.faults source.old) (S.faults source.new) }
        ensures too_much { IsErrOf result InputFault.TooMuch → IsPast (most_read (S.drawn source.old) self.old.limit) (S.drawn source.new) }
        ensures later { S.faults source.old ≤ S.faults source.new }
        ensures same { ¬ IsErrOf result InputFault.Read → S.faults source.new ≡ S.faults source.old }
    {
        let count = source.read(self.buffer.as_mut_slice())?;
        self.count(count as u64)?;
        Ok(count)
    }

    /// Counts bytes that came, or finds that they are too many.
    fn count(&mut self, came: u64) -> Result<(), InputFault>
        ensures buffer { self.new.buffer ≡ self.old.buffer }
        ensures ok { (drawn : ℕ) → OnOk result (most_read (drawn + came) self.new.limit ≡ most_read drawn self.old.limit) }
        ensures within { (drawn : ℕ) → OnOk result (¬ IsPast (most_read drawn self.old.limit) (drawn + came)) }
        ensures err { (drawn : ℕ) → OnErr result (IsPast (most_read drawn self.old.limit) (drawn + came)) }
        ensures too_much { IfErr result (λ fault. fault ≡ InputFault.TooMuch) }
    {
        match self.limit {
            None => Ok(()),
            Some(limit) if came > limit => Err(InputFault::TooMuch),
            Some(limit) => {
                self.limit = Some(limit - came);
                Ok(())
            }
        }
    }

    /// The first of the bytes that were read.
    pub fn bytes(&self, count: usize) -> &[u8]
        requires { count ≤ vec_len self.now.buffer }
        ensures { result.now ≡ take count self.now.buffer.items }
    {
        &self.buffer[..count]
    }
}
