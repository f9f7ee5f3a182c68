use crate::note::{Note, note_of};
use rx_base::{List, OutOfMemory};
use rx_tools::visit::{RegExpAstKind, Visit};
use std::alloc::Global;

/// The notes of the nodes that were entered.
#[derive(Drop)]
pub struct Notes {
    pub notes: List<Note>,

    /// Whether there was not enough memory for a note.
    pub is_short: bool,
}

impl Notes {
    ghost use Rattle.std.specs.Prelude.{◌≡◌, [], false};

    pub fn new(alloc: Global) -> Notes
        ensures { result ≡ record { notes = []; is_short = false } }
    {
        Notes {
            notes: List::new(alloc),
            is_short: false,
        }
    }
}

impl Visit for Notes {
    ghost use Rattle.std.specs.Prelude.{◌≡◌};
    ghost use Rattle.rx_linter_example.specs.Visitor.{TakesNote};

    ghost entered = { λ v node answer w. TakesNote v node answer w };

    ghost left = { λ v node w. w ≡ v };

    /// Once there was not enough memory, nothing more is visited.
    fn enter_node(&mut self, kind: RegExpAstKind<'_>) -> bool {
        if let Some(note) = note_of(kind) {
            self.is_short = self.is_short || self.notes.push(note).is_err();
        }
        !self.is_short
    }

    fn leave_node(&mut self, _kind: RegExpAstKind<'_>) {}
}
