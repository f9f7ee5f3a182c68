use crate::string_literal_parser::StringFault;
use crate::template_literal_parser::TemplateFault;
use rx_base::OutOfMemory;
use thiserror::Error;

/// Why a source text was not read.
// Why: docs/DECISIONS.md, 92.
#[derive(Clone, Copy, Debug, PartialEq, Eq, Error)]
pub enum ReaderFault {
    /// There was not enough memory.
    #[error("Out of memory")]
    OutOfMemory,

    /// The text is no string.
    #[error(transparent)]
    String(StringFault),

    /// The text begins with a grave accent, and is no template without substitutions.
    #[error(transparent)]
    Template(TemplateFault),
}

impl From<OutOfMemory> for ReaderFault {
    ghost use Rattle.std.specs.Prelude.{◌≡◌};
    ghost use Rattle.rx_units.specs.declared.reader_fault.ReaderFault.TheVariants as fault;

    ghost from_gives = { λ _ e. e ≡ fault.OutOfMemory };

    fn from(_: OutOfMemory) -> ReaderFault {
        ReaderFault::OutOfMemory
    }
}

impl From<StringFault> for ReaderFault {
    ghost use Rattle.std.specs.Prelude.{◌≡◌};
    ghost use Rattle.rx_units.specs.Sources.{string_refusal};

    ghost from_gives = { λ fault e. e ≡ string_refusal fault };

    fn from(fault: StringFault) -> ReaderFault {
        match fault {
            StringFault::OutOfMemory => ReaderFault::OutOfMemory,
            fault => ReaderFault::String(fault),
        }
    }
}

impl From<TemplateFault> for ReaderFault {
    ghost use Rattle.std.specs.Prelude.{◌≡◌};
    ghost use Rattle.rx_units.specs.Sources.{template_refusal};

    ghost from_gives = { λ fault e. e ≡ template_refusal fault };

    fn from(fault: TemplateFault) -> ReaderFault {
        match fault {
            TemplateFault::OutOfMemory => ReaderFault::OutOfMemory,
            fault => ReaderFault::Template(fault),
        }
    }
}
