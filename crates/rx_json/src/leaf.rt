//! Nodes in which no node is written after what they begin with.
ghost use Rattle.std.specs.Prelude.{[], ◌∷◌, OnOk, codes};
ghost use Rattle.json.specs.Token.{begin_object};
ghost use Rattle.rx_ast.specs.Kinds.{boundary_assertion, character, class_escape, class_range, dot, indexed_reference, named_reference, property_escape};
ghost use Rattle.rx_json.specs.Adding.{Adds};
ghost use Rattle.rx_json.specs.Located.{located};
ghost use Rattle.rx_json.specs.Nodes.{beginning, character_fields, modifiers_json};
ghost use Rattle.rx_json.specs.Openings.{Opens};
ghost use Rattle.rx_json.specs.Values.{field_tokens, object_of};

use crate::close::{Close, end_object};
use crate::kinds::{boundary_kind, character_kind, class_escape_kind};
use crate::member::{
    write_characters, write_characters_or_null, write_number, write_place, write_text,
    write_text_or_null, write_truth,
};
use json::Writer;
use rx_ast::parts::letters;
use rx_ast::{
    BoundaryAssertion, Character, CharacterClassEscape, CharacterClassRange, Dot, IndexedReference,
    Modifiers, NamedReference, UnicodePropertyEscape,
};
use rx_base::{OutOfMemory, Span};
use rx_places::Places;

/// Writes what each node begins with.
pub fn begin_node(
    writer: &mut Writer,
    places: &Places<'_>,
    name: &str,
    span: Span,
) -> Result<(), OutOfMemory>
    ensures { OnOk result (Adds writer.old writer.new (begin_object ∷ field_tokens (beginning (located places.now) name.now span))) }
{
    writer.begin_object()?;
    write_text(writer, "type", name)?;
    write_place(writer, places, span)
}

pub fn open_boundary(
    writer: &mut Writer,
    places: &Places<'_>,
    it: &BoundaryAssertion,
) -> Result<Close, OutOfMemory>
    ensures { Opens result writer.old writer.new (located places.now) (boundary_assertion it.now) }
{
    begin_node(writer, places, "BoundaryAssertion", it.span)?;
    write_text(writer, "kind", boundary_kind(it.kind))?;
    Ok(Close::Object)
}

pub fn open_character(
    writer: &mut Writer,
    places: &Places<'_>,
    it: &Character,
) -> Result<Close, OutOfMemory>
    ensures { Opens result writer.old writer.new (located places.now) (character it.now) }
{
    begin_node(writer, places, "Character", it.span)?;
    write_text(writer, "kind", character_kind(it.kind))?;
    write_number(writer, "value", u64::from(it.value))?;
    Ok(Close::Object)
}

pub fn open_dot(writer: &mut Writer, places: &Places<'_>, it: &Dot) -> Result<Close, OutOfMemory>
    ensures { Opens result writer.old writer.new (located places.now) (dot it.now) }
{
    begin_node(writer, places, "Dot", it.span)?;
    Ok(Close::Object)
}

pub fn open_class_escape(
    writer: &mut Writer,
    places: &Places<'_>,
    it: &CharacterClassEscape,
) -> Result<Close, OutOfMemory>
    ensures { Opens result writer.old writer.new (located places.now) (class_escape it.now) }
{
    begin_node(writer, places, "CharacterClassEscape", it.span)?;
    write_text(writer, "kind", class_escape_kind(it.kind))?;
    Ok(Close::Object)
}

pub fn open_property(
    writer: &mut Writer,
    places: &Places<'_>,
    it: &UnicodePropertyEscape,
) -> Result<Close, OutOfMemory>
    ensures { Opens result writer.old writer.new (located places.now) (property_escape it.now) }
{
    begin_node(writer, places, "UnicodePropertyEscape", it.span)?;
    write_truth(writer, "negative", it.negative)?;
    write_truth(writer, "strings", it.strings)?;
    write_characters(writer, "name", &it.name)?;
    write_characters_or_null(writer, "value", &it.value)?;
    Ok(Close::Object)
}

pub fn open_indexed_reference(
    writer: &mut Writer,
    places: &Places<'_>,
    it: &IndexedReference,
) -> Result<Close, OutOfMemory>
    ensures { Opens result writer.old writer.new (located places.now) (indexed_reference it.now) }
{
    begin_node(writer, places, "IndexedReference", it.span)?;
    write_number(writer, "index", u64::from(it.index))?;
    Ok(Close::Object)
}

pub fn open_named_reference(
    writer: &mut Writer,
    places: &Places<'_>,
    it: &NamedReference,
) -> Result<Close, OutOfMemory>
    ensures { Opens result writer.old writer.new (located places.now) (named_reference it.now) }
{
    begin_node(writer, places, "NamedReference", it.span)?;
    write_characters(writer, "name", &it.name)?;
    Ok(Close::Object)
}

/// Its two characters are written with it.
pub fn open_range(
    writer: &mut Writer,
    places: &Places<'_>,
    it: &CharacterClassRange,
) -> Result<Close, OutOfMemory>
    ensures { Opens result writer.old writer.new (located places.now) (class_range it.now) }
{
    begin_node(writer, places, "CharacterClassRange", it.span)?;
    write_character(writer, places, "min", &it.min)?;
    write_character(writer, places, "max", &it.max)?;
    Ok(Close::Object)
}

/// Writes a member whose value is a character.
fn write_character(
    writer: &mut Writer,
    places: &Places<'_>,
    name: &str,
    it: &Character,
) -> Result<(), OutOfMemory>
    ensures { OnOk result (Adds writer.old writer.new (field_tokens ((name.now, object_of (character_fields (located places.now) it.now)) ∷ []))) }
{
    writer.key(name)?;
    open_character(writer, places, it)?.write(writer)
}

/// Writes the member that holds the modifiers of a group, or null.
pub fn write_modifiers(
    writer: &mut Writer,
    places: &Places<'_>,
    modifiers: &Option<Modifiers>,
) -> Result<(), OutOfMemory>
    ensures { OnOk result (Adds writer.old writer.new (field_tokens ((codes "modifiers", modifiers_json (located places.now) modifiers.now) ∷ []))) }
{
    let Some(it) = modifiers else {
        return write_text_or_null(writer, "modifiers", None);
    };
    writer.key("modifiers")?;
    begin_node(writer, places, "Modifiers", it.span)?;
    write_text(writer, "enabling", letters(it.enabling))?;
    write_text(writer, "disabling", letters(it.disabling))?;
    end_object(writer)
}
