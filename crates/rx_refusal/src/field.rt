//! In which of its two texts an input is refused.
ghost use Rattle.std.specs.Prelude.{◌≡◌, ◌+◌, ◌<◌, ◌^◌, IfOk, None, length, true};
ghost use Rattle.std.specs.Str.{chars};
ghost use Rattle.rx_base.specs.declared.diagnostic.Diagnostic.{Diagnostic as Refusal};
ghost use Rattle.rx_parser.specs.Texts.{GivesUnits, seen_input};
ghost use Rattle.rx_refusal.specs.Fields.{IsFieldOf, field_name, named_field, offset_in as added, text_in as text_of};

use rx_base::{Diagnostic, OutOfMemory};
use rx_model::Form;
use rx_parser::Input;
use rx_units::{Reader, ReaderFault};
use std::alloc::Global;

/// The text in which the spans of a refusal lie.
#[derive(Clone, Copy, Debug, PartialEq, Eq)]
pub enum Field {
    Flags,
    Pattern,
}

impl Field {
    pub fn name(self) -> &'static str
        ensures { result.now ≡ field_name self }
    {
        match self {
            Field::Flags => "flags",
            Field::Pattern => "pattern",
        }
    }
}

/// In which text of an input the spans of its refusal lie.
pub fn field_of(
    alloc: Global,
    input: &Input<'_>,
    refusal: &Diagnostic,
) -> Result<Field, OutOfMemory>
    ensures { IfOk result (IsFieldOf (seen_input input.now) refusal.now) }
{
    match refusal {
        Diagnostic::UnknownFlag { .. }
        | Diagnostic::DuplicatedFlags { .. }
        | Diagnostic::InvalidUnicodeFlags { .. } => Ok(Field::Flags),
        Diagnostic::InvalidInput { .. } => spoilt_field(alloc, input),
        _ => Ok(Field::Pattern),
    }
}

/// The text of that field, with nothing for flags that are absent.
pub fn text_in<'a>(input: &Input<'a>, field: Field) -> &'a str
    ensures text { chars result.now ≡ text_of (seen_input input.now) field }
    ensures fits { added (seen_input input.now) field + length result.now < 2 ^ 32 }
{
    match field {
        Field::Flags => input.flags_text.unwrap_or(""),
        Field::Pattern => input.pattern_text,
    }
}

/// What is added to the places in it.
pub fn offset_in(input: &Input<'_>, field: Field) -> u32
    ensures { result ≡ added (seen_input input.now) field }
{
    match field {
        Field::Flags => input.options.flags_span_offset,
        Field::Pattern => input.options.pattern_span_offset,
    }
}

/// Which of two texts in quotes is not decoded: the flags, or where they are the pattern.
fn spoilt_field(alloc: Global, input: &Input<'_>) -> Result<Field, OutOfMemory>
    ensures { (refusal : Refusal) → named_field refusal ≡ None → IfOk result (IsFieldOf (seen_input input.now) refusal) }
{
    let Some(flags) = input.flags_text else {
        return Ok(Field::Pattern);
    };
    match flag_units(alloc, input, flags) {
        Ok(_) => Ok(Field::Pattern),
        Err(ReaderFault::OutOfMemory) => Err(OutOfMemory),
        Err(ReaderFault::String(_)) => Ok(Field::Flags),
        Err(ReaderFault::Template(_)) => Ok(Field::Flags),
    }
}

fn flag_units<'a>(
    alloc: Global,
    input: &Input<'a>,
    flags: &'a str,
) -> Result<Reader<'a>, ReaderFault>
    requires { length flags.now < 2 ^ 32 }
    ensures { GivesUnits input.now.options.standard_strings true (chars flags.now) input.now.form result }
{
    match input.form {
        Form::Literal => Reader::initialize(alloc, flags, true, false),
        Form::Constructor if input.options.standard_strings => {
            Reader::initialize_standard(alloc, flags, true)
        }
        Form::Constructor => Reader::initialize(alloc, flags, true, true),
    }
}
