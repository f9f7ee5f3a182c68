//! What refusals hold besides their spans and their kind.
ghost use Rattle.std.specs.Prelude.{[], ◌∷◌, OnOk, codes, map};
ghost use Rattle.rx_base.specs.DiagnosticMessage.{flag_text};
ghost use Rattle.rx_json.specs.Adding.{Adds};
ghost use Rattle.rx_json.specs.Refusals.{values_of};
ghost use Rattle.rx_json.specs.Values.{field_tokens, list_of, text, value_tokens};

use crate::member::{write_characters, write_number, write_text};
use json::Writer;
use rx_base::{Diagnostic, OutOfMemory, Text};
use rx_refusal::text_of_flag;
use std::alloc::Global;

/// Writes the members that a refusal's values are.
#[tactic(auto, using(crate::proofs::Adding::adds_nothing))]
pub fn write_values(
    alloc: Global,
    writer: &mut Writer,
    refusal: &Diagnostic,
) -> Result<(), OutOfMemory>
    ensures { OnOk result (Adds writer.old writer.new (field_tokens (values_of refusal.now))) }
{
    match refusal {
        Diagnostic::UnknownFlag { flag, .. } => write_flag(alloc, writer, *flag),
        Diagnostic::DuplicatedFlags { flag, .. } => write_flag(alloc, writer, *flag),
        Diagnostic::InvalidIndexedReference { max, .. } => {
            write_number(writer, "max", u64::from(*max))
        }
        Diagnostic::InvalidNamedReference { names, .. } => write_names(writer, names.as_slice()),
        Diagnostic::InvalidUnicodePropertyNameNegativeStrings { name, .. } => {
            write_characters(writer, "name", name)
        }
        Diagnostic::InvalidUnicodePropertyOfStrings { name, .. } => {
            write_characters(writer, "name", name)
        }
        _ => Ok(()),
    }
}

/// A flag is written as in the message.
fn write_flag(alloc: Global, writer: &mut Writer, flag: u32) -> Result<(), OutOfMemory>
    ensures { OnOk result (Adds writer.old writer.new (field_tokens ((codes "flag", text (flag_text flag)) ∷ []))) }
{
    let text = text_of_flag(alloc, flag)?;
    write_text(writer, "flag", text.as_str())
}

fn write_names(writer: &mut Writer, names: &[Text]) -> Result<(), OutOfMemory>
    ensures { OnOk result (Adds writer.old writer.new (field_tokens ((codes "names", list_of (map text names.now)) ∷ []))) }
{
    writer.key("names")?;
    writer.begin_array()?;
    write_each_name(writer, names)?;
    writer.end_array()?;
    Ok(())
}

fn write_each_name(writer: &mut Writer, names: &[Text]) -> Result<(), OutOfMemory>
    ensures { OnOk result (Adds writer.old writer.new (value_tokens (map text names.now))) }
{
    for name in names {
        writer.string(name.as_str())?;
    }
    Ok(())
}
