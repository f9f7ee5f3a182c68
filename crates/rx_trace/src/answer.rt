use rx_base::{List, OutOfMemory, Span};

/// How a pattern is matched.
#[derive(Clone, Copy, Debug)]
pub struct MatchFlags {
    pub ignore_case: bool,
    pub multiline: bool,
    pub dot_all: bool,
    /// Whether the units of the input are characters: for `units_of`. A match does not look at it.
    pub unicode_mode: bool,
}

/// What a capturing group matched, from one place of the input to another.
#[derive(Clone, Copy, Debug, PartialEq, Eq)]
pub enum Slot {
    Unset,
    Set { start: usize, end: usize },
}

/// A match: where it stands, and what each capturing group matched.
#[derive(Debug, Drop)]
pub struct Found {
    pub start: usize,
    pub end: usize,
    pub groups: List<Slot>,
}

/// Why there is no answer.
#[derive(Clone, Copy, Debug)]
pub enum MatchFault {
    OutOfMemory,
    IgnoreCase,
    Unsupported { span: Span },
    Spent,
}

impl From<OutOfMemory> for MatchFault {
    ghost use Rattle.std.specs.Prelude.{◌≡◌};
    ghost use Rattle.rx_trace.specs.declared.answer.MatchFault.TheVariants as fault;

    ghost from_gives = { λ _ e. e ≡ fault.OutOfMemory };

    fn from(_fault: OutOfMemory) -> MatchFault {
        MatchFault::OutOfMemory
    }
}
