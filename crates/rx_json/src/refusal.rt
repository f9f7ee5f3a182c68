ghost use Rattle.std.specs.Prelude.{◌∷◌, [], OnOk, codes};
ghost use Rattle.std.specs.Str.{chars};
ghost use Rattle.rx_base.specs.DiagnosticMessage.{message_of};
ghost use Rattle.json.specs.Tree.{json_tokens};
ghost use Rattle.rx_json.specs.Adding.{Adds};
ghost use Rattle.rx_json.specs.Located.{place_fields};
ghost use Rattle.rx_json.specs.Refusals.{refusal_fields, second_spans, spans_of};
ghost use Rattle.rx_json.specs.Values.{field_tokens, object_of, text, value_tokens};

use crate::member::{write_place, write_text, write_text_or_null};
use crate::values::write_values;
use json::Writer;
use rx_base::{Diagnostic, OutOfMemory, Span};
use rx_model::Form;
use rx_places::Places;
use rx_refusal::{Field, help_for, kind_of};
use std::alloc::Global;

/// Writes the members that tell of a refusal. The places are those of the text in which its spans lie, which stands in this form.
pub fn write_refusal(
    alloc: Global,
    writer: &mut Writer,
    places: &Places<'_>,
    form: Form,
    field: Field,
    refusal: &Diagnostic,
) -> Result<(), OutOfMemory>
    ensures { OnOk result (Adds writer.old writer.new (field_tokens (refusal_fields form places.now.text.now places.now.offset field refusal.now))) }
{
    write_text(writer, "name", refusal.name())?;
    write_text_or_null(writer, "kind", kind_of(refusal))?;
    writer.key("values")?;
    writer.begin_object()?;
    write_values(alloc, writer, refusal)?;
    writer.end_object()?;
    write_message(alloc, writer, refusal)?;
    write_text(writer, "field", field.name())?;
    write_spans(writer, places, refusal)?;
    write_text_or_null(
        writer,
        "help",
        help_for(form, places.text, places.offset, refusal),
    )
}

fn write_message(
    alloc: Global,
    writer: &mut Writer,
    refusal: &Diagnostic,
) -> Result<(), OutOfMemory>
    ensures { OnOk result (Adds writer.old writer.new (field_tokens ((codes "message", text (message_of refusal.now)) ∷ []))) }
{
    let message = format!(in alloc; "{refusal}")?;
    write_text(writer, "message", message.as_str())
}

fn write_spans(
    writer: &mut Writer,
    places: &Places<'_>,
    refusal: &Diagnostic,
) -> Result<(), OutOfMemory>
    ensures { OnOk result (Adds writer.old writer.new (field_tokens ((codes "spans", spans_of (place_fields (chars places.now.text.now) places.now.offset) refusal.now) ∷ []))) }
{
    writer.key("spans")?;
    writer.begin_array()?;
    write_span(writer, places, refusal.first_span())?;
    write_second_span(writer, places, refusal.second_span())?;
    writer.end_array()?;
    Ok(())
}

fn write_second_span(
    writer: &mut Writer,
    places: &Places<'_>,
    second: Option<Span>,
) -> Result<(), OutOfMemory>
    ensures { OnOk result (Adds writer.old writer.new (value_tokens (second_spans (place_fields (chars places.now.text.now) places.now.offset) second))) }
{
    match second {
        Some(span) => write_span(writer, places, span),
        None => Ok(()),
    }
}

fn write_span(writer: &mut Writer, places: &Places<'_>, span: Span) -> Result<(), OutOfMemory>
    ensures { OnOk result (Adds writer.old writer.new (json_tokens (object_of (place_fields (chars places.now.text.now) places.now.offset span)))) }
{
    writer.begin_object()?;
    write_place(writer, places, span)?;
    writer.end_object()?;
    Ok(())
}
