ghost use Rattle.std.specs.Prelude.{◌≡◌};

use std::marker::Model;
use std::sync::ledger::{Blank, Book, Ledger, Share};

/// What counts the steps of a reader: each unit that it moves over, and each turn of a loop that looks ahead.
// Why: docs/DECISIONS.md, 59.
pub trait Counter {
    ghost use Rattle.std.specs.Prelude.{◌≡◌, ◌+◌, ℕ};

    /// How many steps were counted.
    ghost count: { Self → ℕ };

    /// Counts this many more steps.
    fn add(&mut self, steps: usize)
        ensures { Self.count self.new ≡ Self.count self.old + steps };

    /// Counts one more step.
    fn tick(&mut self)
        ensures { Self.count self.new ≡ Self.count self.old + 1 }
    {
        self.add(1);
    }
}

/// A counter that contracts alone see. It takes no bytes, and counting does nothing when the program runs.
// Why: docs/DECISIONS.md, 60.
#[derive(Drop)]
pub struct Steps<L: Ledger> {
    book: Book<L>,
    share: Share<L>,
}

impl<L: Ledger> Model for Steps<L> {
    ghost use Rattle.std.specs.Prelude.{◌<◌, ℕ};

    ghost Value = { ℕ };

    ghost view = { λ s. s.book.total };

    ghost invariant = { λ s. 0 < s.share.parts };
}

impl<L: Ledger> Steps<L> {
    /// A counter at 0, made of `Blank::new(1)` in a function over `L`.
    pub fn new(blank: Blank) -> Steps<L>
        requires name { blank.name ≡ L.name }
        requires parts { blank.parts ≡ L.parts }
        requires one { blank.parts ≡ 1 }
        ensures { result ≡ 0 }
    {
        let (book, share) = blank.open();
        Steps { book, share }
    }
}

impl<L: Ledger> Counter for Steps<L> {
    ghost count = { λ s. s };

    #[inline]
    fn add(&mut self, steps: usize) {
        self.book.add(&mut self.share, steps as u64);
    }
}
