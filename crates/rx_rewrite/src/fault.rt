use rx_base::{OutOfMemory, Span};

/// Why a pattern is not rewritten.
#[derive(Clone, Copy, Debug, PartialEq, Eq)]
pub enum RewriteFault {
    /// There was not enough memory.
    OutOfMemory,
    /// Names are to go, and two groups have the same one: `second` is the span of the first group whose name stood before, and `first` that of the first group of this name.
    NameUsedTwice { first: Span, second: Span },
}

impl From<OutOfMemory> for RewriteFault {
    ghost use Rattle.std.specs.Prelude.{◌≡◌};
    ghost use Rattle.rx_rewrite.specs.declared.fault.RewriteFault.TheVariants as fault;

    ghost from_gives = { λ _ e. e ≡ fault.OutOfMemory };

    fn from(_fault: OutOfMemory) -> RewriteFault {
        RewriteFault::OutOfMemory
    }
}
