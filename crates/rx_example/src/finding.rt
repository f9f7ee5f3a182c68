ghost use Rattle.std.specs.Prelude.{◌≡◌, ◌<◌, ◌^◌, max, length, IfOk};
ghost use Rattle.std.specs.Str.{chars};
ghost use Rattle.rx_parser.specs.Inputs.{flags_chars, flags_length};
ghost use Rattle.rx_example.specs.Shown.{IsFinding, Shows, literal};

use crate::capturing_groups;
use rx_base::{Diagnostic, Fault, OutOfMemory, Span, Text};
use rx_tools::{Form, Options, canonical};
use std::alloc::Global;

/// What is shown of a pattern that is refused.
#[derive(Drop)]
pub struct Refused {
    pub name: &'static str,
    pub first: Span,
    pub second: Option<Span>,
    pub message: String,
}

/// What is found out about a literal.
#[derive(Drop)]
pub enum Finding {
    /// The pattern is read: how many of its groups capture, and its canonical spelling.
    Read { groups: u64, spelling: Text },

    /// The pattern is refused.
    Refused(Refused),
}

/// Reads the text between a literal's slashes, under its flags. Fails only where there is not enough memory.
pub fn inspect(alloc: Global, pattern: &str, flags: Option<&str>) -> Result<Finding, OutOfMemory>
    requires pattern { max (length pattern.now) 4 < 2 ^ 32 }
    requires flags { flags_length flags < 2 ^ 32 }
    ensures { IfOk result (IsFinding (literal (chars pattern.now) (flags_chars flags.entry))) }
{
    match canonical(alloc, Form::Literal, pattern, flags, Options::default()) {
        Ok(it) => Ok(Finding::Read {
            groups: capturing_groups(alloc, &it.pattern)?,
            spelling: it.text,
        }),
        Err(Fault::Diagnostic(cause)) => Ok(Finding::Refused(show_refusal(alloc, &cause)?)),
        Err(Fault::OutOfMemory) => Err(OutOfMemory),
    }
}

/// What is shown of a refusal.
fn show_refusal(alloc: Global, cause: &Diagnostic) -> Result<Refused, OutOfMemory>
    ensures { IfOk result (λ it. Shows it cause.now) }
{
    Ok(Refused {
        name: cause.name(),
        first: cause.first_span(),
        second: cause.second_span(),
        message: format!(in alloc; "{cause}")?,
    })
}
