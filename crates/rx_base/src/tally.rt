ghost use Rattle.std.specs.Prelude.{◌≡◌, ◌-◌, ◌^◌, min};

use crate::{Counter, Steps};
use std::marker::Model;
use std::sync::ledger::{Blank, Ledger};

/// A counter that can be read when the program runs.
#[derive(Drop)]
pub struct Tally<L: Ledger> {
    steps: Steps<L>,

    /// The steps, or the greatest `u64` where there were more.
    told: u64,
}

impl<L: Ledger> Model for Tally<L> {
    ghost use Rattle.std.specs.Prelude.{◌≡◌, ◌-◌, ◌^◌, ℕ, min};

    ghost Value = { ℕ };

    ghost view = { λ t. t.steps };

    ghost invariant = { λ t. t.told ≡ min t.steps (2 ^ 64 - 1) };
}

impl<L: Ledger> Tally<L> {
    /// A counter at 0, made of `Blank::new(1)` in a function over `L`.
    pub fn new(blank: Blank) -> Tally<L>
        requires name { blank.name ≡ L.name }
        requires parts { blank.parts ≡ L.parts }
        requires one { blank.parts ≡ 1 }
        ensures { result ≡ 0 }
    {
        Tally {
            steps: Steps::new(blank),
            told: 0,
        }
    }

    /// How many steps were counted, or the greatest `u64` where there were more.
    pub fn total(&self) -> u64
        ensures { result ≡ min self.now (2 ^ 64 - 1) }
    {
        self.told
    }
}

impl<L: Ledger> Counter for Tally<L> {
    ghost count = { λ t. t };

    fn add(&mut self, steps: usize) {
        self.steps.add(steps);
        self.told = self.told.saturating_add(steps as u64);
    }
}
