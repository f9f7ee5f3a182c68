ghost use Rattle.std.specs.Prelude.{◌≡◌, ◌≤◌, ◌<◌, ◌+◌, ◌-◌, ◌↔◌, ◌⊎◌, ◌++◌, ◌∷◌, [], min, length, take, drop, Some, Contains, IfOk, OnErr, IsErr, IsTrue, MatchResult};
ghost use Rattle.std.specs.Io.KnownBytes.{ReadConsumes};
ghost use Rattle.rx_base.specs.FaultCounts.{CountsFaults};
ghost use Rattle.rx_base.specs.Memory.{next_number};

use crate::fill::{append, fill};
use crate::{Failed, List, OutOfMemory, Sink, Source};
use std::alloc::Global;
use std::marker::Model;

/// Which calls are to fail, by their numbers, and the counts of calls and of faults so far.
#[derive(Drop)]
struct Plan {
    fails: List<u64>,
    calls: u64,
    faults: u64,
}

impl Plan {
    fn new(fails: List<u64>) -> Plan
        ensures { result ≡ record { fails = fails; calls = 0; faults = 0 } }
    {
        Plan {
            fails,
            calls: 0,
            faults: 0,
        }
    }

    /// Numbers a call, and says whether it is to fail.
    fn begin(&mut self) -> bool
        ensures due { IsTrue result ↔ Contains self.old.fails (next_number self.old.calls) }
        ensures numbered { self.new ≡ record self.old { calls = next_number self.old.calls } }
    {
        self.calls = self.calls.saturating_add(1);
        self.fails.as_slice().contains(&self.calls)
    }

    /// Counts a fault.
    fn fail(&mut self)
        ensures counted { self.new ≡ record self.old { faults = next_number self.old.faults } }
        ensures later { self.old.faults ≤ self.new.faults }
    {
        self.faults = self.faults.saturating_add(1);
    }
}

/// Bytes in memory as a source. Some of its calls are to fail.
#[derive(Drop)]
pub struct MemorySource {
    bytes: List<u8>,
    at: usize,
    step: usize,
    plan: Plan,
}

impl Model for MemorySource {
    ghost use Rattle.std.specs.Prelude.{◌≤◌, ◌<◌, length, drop};
    ghost use Rattle.rx_base.specs.Memory.{MemoryInput};

    ghost Value = { MemoryInput };

    ghost view = { λ s. record {
      left = drop s.at s.bytes;
      drawn = s.at;
      step = s.step;
      fails = s.plan.fails;
      calls = s.plan.calls;
      faults = s.plan.faults;
    } };

    ghost invariant = { λ s. (s.at ≤ length s.bytes) × (0 < s.step) };
}

impl MemorySource {
    /// `fails` holds the numbers of the calls that are to fail, from 1 on, and `step`, at least 1, is the most bytes that one call
    /// gives.
    pub fn new(bytes: List<u8>, fails: List<u64>, step: usize) -> MemorySource
        requires { 0 < step }
        ensures { result ≡ record { left = bytes; drawn = 0; step = step; fails = fails; calls = 0; faults = 0 } }
    {
        MemorySource {
            bytes,
            at: 0,
            step,
            plan: Plan::new(fails),
        }
    }
}

/// Tells what is left.
impl Source for MemorySource {
    ghost left = { λ s. Some s.left };

    ghost drawn = { λ s. s.drawn };

    ghost faults = { λ s. s.faults };

    fn read(&mut self, buf: &mut [u8]) -> Result<usize, Failed>
        ensures bytes { ReadConsumes (Some self.old.left) (Some self.new.left) result buf.new }
        ensures cause { CountsFaults self.old.faults self.new.faults result }
        ensures fails { IsErr result ↔ Contains self.old.fails (next_number self.old.calls) }
        ensures moved { IfOk result (λ count. count ≡ min self.old.step (min (length buf.old) (length self.old.left))) }
        ensures filled { MatchResult result (λ count. buf.new ≡ take count self.old.left ++ drop count buf.old) (λ _. buf.new ≡ buf.old) }
        ensures changed { MatchResult result
            (λ count. self.new ≡ record self.old { left = drop count self.old.left; drawn = self.old.drawn + count; calls = next_number self.old.calls })
            (λ _. self.new ≡ record self.old { calls = next_number self.old.calls; faults = next_number self.old.faults }) }
    {
        if self.plan.begin() {
            self.plan.fail();
            return Err(Failed);
        }
        let count = fill(buf, &self.bytes.as_slice()[self.at..], self.step);
        self.at += count;
        Ok(count)
    }
}

/// A sink with room for so many bytes. Some of its calls are to fail.
#[derive(Drop)]
pub struct MemorySink {
    room: Vec<u8>,
    len: usize,
    step: usize,
    plan: Plan,
}

impl Model for MemorySink {
    ghost use Rattle.std.specs.Prelude.{◌≡◌, ◌≤◌, ◌<◌, [], take, vec_len};
    ghost use Rattle.rx_base.specs.Memory.{MemoryOutput};

    ghost Value = { MemoryOutput };

    ghost view = { λ s. record {
      taken = take s.len s.room.items;
      room = vec_len s.room;
      step = s.step;
      fails = s.plan.fails;
      calls = s.plan.calls;
      faults = s.plan.faults;
    } };

    ghost invariant = { λ s. (s.len ≤ vec_len s.room) × (0 < s.step) × (s.plan.fails ≡ [] → 0 < s.plan.faults → s.len ≡ vec_len s.room) };
}

impl MemorySink {
    /// Takes the memory for `room` bytes: no write takes any. `fails` holds the numbers of the calls that are to fail, from 1 on, and
    /// `step`, at least 1, is the most bytes that one call takes.
    pub fn new(
        alloc: Global,
        room: usize,
        fails: List<u64>,
        step: usize,
    ) -> Result<MemorySink, OutOfMemory>
        requires { 0 < step }
        ensures { IfOk result (λ s. s ≡ record { taken = []; room = room; step = step; fails = fails; calls = 0; faults = 0 }) }
    {
        Ok(MemorySink {
            room: vec![in alloc; 0u8; room]?,
            len: 0,
            step,
            plan: Plan::new(fails),
        })
    }

    /// What was taken. Where no call was to fail, there is a fault only where all room was taken.
    pub fn bytes(&self) -> &[u8]
        ensures taken { result.now ≡ self.now.taken }
        ensures within { length self.now.taken ≤ self.now.room }
        ensures full { self.now.fails ≡ [] → 0 < self.now.faults → length self.now.taken ≡ self.now.room }
    {
        &self.room[..self.len]
    }
}

/// Tells what was taken.
impl Sink for MemorySink {
    ghost taken = { λ s. Some s.taken };

    ghost fixed = { λ s. s.room ∷ s.fails };

    ghost faults = { λ s. s.faults };

    fn write(&mut self, piece: &[u8]) -> Result<usize, Failed>
        ensures moves { 0 < length piece.now → IfOk result (λ count. 0 < count) }
        ensures cause { CountsFaults self.old.faults self.new.faults result }
        ensures fails { IsErr result ↔ (Contains self.old.fails (next_number self.old.calls)
            ⊎ ((0 < length piece.now) × (length self.old.taken ≡ self.old.room))) }
        ensures moved { IfOk result (λ count. count ≡ min self.old.step (min (length piece.now) (self.old.room - length self.old.taken))) }
        ensures changed { MatchResult result
            (λ count. self.new ≡ record self.old { taken = self.old.taken ++ take count piece.now; calls = next_number self.old.calls })
            (λ _. self.new ≡ record self.old { calls = next_number self.old.calls; faults = next_number self.old.faults }) }
    {
        let due = self.plan.begin();
        if due || (!piece.is_empty() && self.len == self.room.len()) {
            self.plan.fail();
            return Err(Failed);
        }
        let count = append(&mut self.room, self.len, piece, self.step);
        self.len += count;
        Ok(count)
    }
}
