ghost use Rattle.std.specs.Prelude.{◌≡◌};
ghost use Rattle.rx_program.specs.Steps.{test_holds as test_holds_it};

use crate::characters::{escape_holds, is_line_terminator};
use crate::checks::{ClassRow, row_holds};
use rx_ast::{BoundaryAssertionKind, CharacterClassEscapeKind, LookAroundAssertionKind};

/// Which units a term holds.
#[derive(Clone, Copy)]
pub enum Test<'a> {
    Character(u32),
    Dot { dot_all: bool },
    Escape(CharacterClassEscapeKind),
    Class(&'a ClassRow),
    Never,
}

/// How often a body is repeated, and which slots each turn unsets.
#[derive(Clone, Copy)]
pub struct Turns {
    pub min: u64,
    pub max: Option<u64>,
    pub greedy: bool,
    pub from: usize,
    pub count: usize,
}

/// A step of a program. The steps that it names stand before it.
#[derive(Clone, Copy)]
pub enum Step<'a> {
    /// The end of a body: the continuation goes on.
    Accept,
    Reject,
    Consume {
        test: Test<'a>,
        next: usize,
    },
    Assert {
        kind: BoundaryAssertionKind,
        multiline: bool,
        next: usize,
    },
    Refer {
        number: usize,
        next: usize,
    },
    /// A reference to the first of some groups that is set. Groups count from 0.
    ReferByName {
        numbers: &'a [usize],
        next: usize,
    },
    EnterGroup {
        next: usize,
    },
    Choose {
        first: usize,
        other: usize,
    },
    Sequence {
        first: usize,
        second: usize,
    },
    Capture {
        group: usize,
        body: usize,
        next: usize,
    },
    LookAround {
        kind: LookAroundAssertionKind,
        body: usize,
        next: usize,
    },
    Repeat {
        turns: Turns,
        body: usize,
        next: usize,
    },
}

/// Whether a term holds a unit.
pub fn test_holds(test: Test<'_>, c: u32) -> bool
    ensures { result ≡ test_holds_it test.entry c }
{
    match test {
        Test::Character(value) => c == value,
        Test::Dot { dot_all } => dot_all || !is_line_terminator(c),
        Test::Escape(kind) => escape_holds(kind, c),
        Test::Class(row) => row_holds(row, c),
        Test::Never => false,
    }
}
