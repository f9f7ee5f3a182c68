use crate::{Diagnostic, OutOfMemory};

/// Why a pattern was not read.
// Why: docs/DECISIONS.md, 15.
#[derive(Debug, Drop)]
pub enum Fault {
    /// There was not enough memory.
    OutOfMemory,

    /// The pattern is refused.
    Diagnostic(Diagnostic),
}

impl From<OutOfMemory> for Fault {
    ghost use Rattle.std.specs.Prelude.{◌≡◌};
    ghost use Rattle.rx_base.specs.declared.fault.Fault.TheVariants as fault;

    ghost from_gives = { λ _ e. e ≡ fault.OutOfMemory };

    fn from(_: OutOfMemory) -> Fault {
        Fault::OutOfMemory
    }
}

impl From<Diagnostic> for Fault {
    ghost use Rattle.std.specs.Prelude.{◌≡◌};
    ghost use Rattle.rx_base.specs.declared.fault.Fault.TheVariants as fault;

    ghost from_gives = { λ diagnostic e. e ≡ fault.Diagnostic diagnostic };

    fn from(diagnostic: Diagnostic) -> Fault {
        Fault::Diagnostic(diagnostic)
    }
}
