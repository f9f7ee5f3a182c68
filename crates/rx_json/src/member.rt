ghost use Rattle.std.specs.Prelude.{[], ◌∷◌, OnOk};
ghost use Rattle.std.specs.Option.{option_copied};
ghost use Rattle.std.specs.Str.{chars};
ghost use Rattle.json.specs.Json.{boolean, string};
ghost use Rattle.rx_json.specs.Adding.{Adds};
ghost use Rattle.rx_json.specs.Located.{place_fields};
ghost use Rattle.rx_json.specs.Values.{bytes_or_null, field_tokens, number, number_or_null, text, text_or_null};

use json::Writer;
use rx_base::{OutOfMemory, Span, Text};
use rx_places::Places;

/// Writes a member whose value is a text.
pub fn write_text(writer: &mut Writer, name: &str, value: &str) -> Result<(), OutOfMemory>
    ensures { OnOk result (Adds writer.old writer.new (field_tokens ((name.now, string value.now) ∷ []))) }
{
    writer.key(name)?;
    writer.string(value)?;
    Ok(())
}

/// Writes a member whose value is a text or null.
pub fn write_text_or_null(
    writer: &mut Writer,
    name: &str,
    value: Option<&str>,
) -> Result<(), OutOfMemory>
    ensures { OnOk result (Adds writer.old writer.new (field_tokens ((name.now, bytes_or_null (option_copied value.entry)) ∷ []))) }
{
    writer.key(name)?;
    match value {
        Some(value) => writer.string(value)?,
        None => writer.null()?,
    }
    Ok(())
}

/// Writes a member whose value is a text that contracts see as its characters.
pub fn write_characters(writer: &mut Writer, name: &str, value: &Text) -> Result<(), OutOfMemory>
    ensures { OnOk result (Adds writer.old writer.new (field_tokens ((name.now, text value.now) ∷ []))) }
{
    write_text(writer, name, value.as_str())
}

/// Writes a member whose value is such a text, or null.
pub fn write_characters_or_null(
    writer: &mut Writer,
    name: &str,
    value: &Option<Text>,
) -> Result<(), OutOfMemory>
    ensures { OnOk result (Adds writer.old writer.new (field_tokens ((name.now, text_or_null value.now) ∷ []))) }
{
    match value {
        Some(value) => write_characters(writer, name, value),
        None => write_text_or_null(writer, name, None),
    }
}

/// Writes a member whose value is a number.
pub fn write_number(writer: &mut Writer, name: &str, n: u64) -> Result<(), OutOfMemory>
    ensures { OnOk result (Adds writer.old writer.new (field_tokens ((name.now, number n) ∷ []))) }
{
    writer.key(name)?;
    writer.u64(n)?;
    Ok(())
}

/// Writes a member whose value is a number or null.
pub fn write_number_or_null(
    writer: &mut Writer,
    name: &str,
    n: Option<u64>,
) -> Result<(), OutOfMemory>
    ensures { OnOk result (Adds writer.old writer.new (field_tokens ((name.now, number_or_null n) ∷ []))) }
{
    writer.key(name)?;
    match n {
        Some(n) => writer.u64(n)?,
        None => writer.null()?,
    }
    Ok(())
}

/// Writes a member whose value is true or false.
pub fn write_truth(writer: &mut Writer, name: &str, truth: bool) -> Result<(), OutOfMemory>
    ensures { OnOk result (Adds writer.old writer.new (field_tokens ((name.now, boolean truth) ∷ []))) }
{
    writer.key(name)?;
    writer.boolean(truth)?;
    Ok(())
}

/// Writes the members that say where a span lies.
pub fn write_place(writer: &mut Writer, places: &Places<'_>, span: Span) -> Result<(), OutOfMemory>
    ensures { OnOk result (Adds writer.old writer.new (field_tokens (place_fields (chars places.now.text.now) places.now.offset span))) }
{
    write_number(writer, "start", u64::from(span.start))?;
    write_number(writer, "end", u64::from(span.end))?;
    write_number(writer, "start16", u64::from(places.in_utf16(span.start)))?;
    write_number(writer, "end16", u64::from(places.in_utf16(span.end)))
}
