//! What nodes are written with before the nodes in them.
ghost use Rattle.std.specs.Prelude.{◌≡◌, [], ◌∷◌, IfOk, codes};
ghost use Rattle.json.specs.Token.{begin_array, key};
ghost use Rattle.rx_ast.specs.ClassTree.{mirror_class};
ghost use Rattle.rx_ast.specs.Kinds.{alternative, class, class_string, disjunction, pattern, string_disjunction};
ghost use Rattle.rx_ast.specs.MirrorKinds.{capturing_kind, ignore_kind, look_kind, mirror_kind, quantifier_kind};
ghost use Rattle.rx_ast.specs.Tree.{mirror, mirror_alternative, mirror_disjunction};
ghost use Rattle.rx_json.specs.Adding.{Adds};
ghost use Rattle.rx_json.specs.Located.{located};
ghost use Rattle.rx_json.specs.Nodes.{list_body, one_body};
ghost use Rattle.rx_json.specs.Openings.{Opens, closed_by};

use crate::close::Close;
use crate::kinds::{contents_kind, look_kind as look_name};
use crate::leaf::{
    begin_node, open_boundary, open_character, open_class_escape, open_dot, open_indexed_reference,
    open_named_reference, open_property, open_range, write_modifiers,
};
use crate::member::{
    write_characters_or_null, write_number, write_number_or_null, write_text, write_truth,
};
use json::Writer;
use rx_ast::{
    Alternative, CapturingGroup, CharacterClass, ClassString, ClassStringDisjunction, Disjunction,
    IgnoreGroup, LookAroundAssertion, Pattern, Quantifier, RegExpAstKind,
};
use rx_base::OutOfMemory;
use rx_places::Places;

/// Writes what a node begins with, up to the nodes in it.
pub fn open_node(
    writer: &mut Writer,
    places: &Places<'_>,
    node: RegExpAstKind<'_>,
) -> Result<Close, OutOfMemory>
    ensures { Opens result writer.old writer.new (located places.now) (mirror_kind node.entry) }
{
    match node {
        RegExpAstKind::Pattern(it) => open_pattern(writer, places, it),
        RegExpAstKind::Disjunction(it) => open_disjunction(writer, places, it),
        RegExpAstKind::Alternative(it) => open_alternative(writer, places, it),
        RegExpAstKind::Term(_) => Ok(Close::Nothing),
        RegExpAstKind::LookAroundAssertion(it) => open_look_around(writer, places, it),
        RegExpAstKind::Quantifier(it) => open_quantifier(writer, places, it),
        RegExpAstKind::CapturingGroup(it) => open_capturing_group(writer, places, it),
        RegExpAstKind::IgnoreGroup(it) => open_ignore_group(writer, places, it),
        RegExpAstKind::BoundaryAssertion(it) => open_boundary(writer, places, it),
        RegExpAstKind::Character(it) => open_character(writer, places, it),
        RegExpAstKind::Dot(it) => open_dot(writer, places, it),
        RegExpAstKind::CharacterClassEscape(it) => open_class_escape(writer, places, it),
        RegExpAstKind::UnicodePropertyEscape(it) => open_property(writer, places, it),
        RegExpAstKind::CharacterClass(it) => open_class(writer, places, it),
        RegExpAstKind::CharacterClassContents(_) => Ok(Close::Nothing),
        RegExpAstKind::CharacterClassRange(it) => open_range(writer, places, it),
        RegExpAstKind::CharacterClassStringDisjunction(it) => open_strings(writer, places, it),
        RegExpAstKind::CharacterClassString(it) => open_string(writer, places, it),
        RegExpAstKind::IndexedReference(it) => open_indexed_reference(writer, places, it),
        RegExpAstKind::NamedReference(it) => open_named_reference(writer, places, it),
    }
}

fn open_body(writer: &mut Writer) -> Result<Close, OutOfMemory>
    ensures { IfOk result (λ close. Adds writer.old writer.new (key (codes "body") ∷ []) × (close ≡ closed_by one_body)) }
{
    writer.key("body")?;
    Ok(Close::Object)
}

fn open_list(writer: &mut Writer) -> Result<Close, OutOfMemory>
    ensures { IfOk result (λ close. Adds writer.old writer.new (key (codes "body") ∷ begin_array ∷ []) × (close ≡ closed_by list_body)) }
{
    writer.key("body")?;
    writer.begin_array()?;
    Ok(Close::List)
}

fn open_pattern(
    writer: &mut Writer,
    places: &Places<'_>,
    it: &Pattern,
) -> Result<Close, OutOfMemory>
    ensures { Opens result writer.old writer.new (located places.now) (pattern (mirror it.now)) }
{
    begin_node(writer, places, "Pattern", it.span)?;
    open_body(writer)
}

fn open_disjunction(
    writer: &mut Writer,
    places: &Places<'_>,
    it: &Disjunction,
) -> Result<Close, OutOfMemory>
    ensures { Opens result writer.old writer.new (located places.now) (disjunction (mirror_disjunction it.now)) }
{
    begin_node(writer, places, "Disjunction", it.span)?;
    open_list(writer)
}

fn open_alternative(
    writer: &mut Writer,
    places: &Places<'_>,
    it: &Alternative,
) -> Result<Close, OutOfMemory>
    ensures { Opens result writer.old writer.new (located places.now) (alternative (mirror_alternative it.now)) }
{
    begin_node(writer, places, "Alternative", it.span)?;
    open_list(writer)
}

fn open_look_around(
    writer: &mut Writer,
    places: &Places<'_>,
    it: &LookAroundAssertion,
) -> Result<Close, OutOfMemory>
    ensures { Opens result writer.old writer.new (located places.now) (look_kind it.now) }
{
    begin_node(writer, places, "LookAroundAssertion", it.span)?;
    write_text(writer, "kind", look_name(it.kind))?;
    open_body(writer)
}

fn open_quantifier(
    writer: &mut Writer,
    places: &Places<'_>,
    it: &Quantifier,
) -> Result<Close, OutOfMemory>
    ensures { Opens result writer.old writer.new (located places.now) (quantifier_kind it.now) }
{
    begin_node(writer, places, "Quantifier", it.span)?;
    write_number(writer, "min", it.min)?;
    write_number_or_null(writer, "max", it.max)?;
    write_truth(writer, "greedy", it.greedy)?;
    open_body(writer)
}

fn open_capturing_group(
    writer: &mut Writer,
    places: &Places<'_>,
    it: &CapturingGroup,
) -> Result<Close, OutOfMemory>
    ensures { Opens result writer.old writer.new (located places.now) (capturing_kind it.now) }
{
    begin_node(writer, places, "CapturingGroup", it.span)?;
    write_characters_or_null(writer, "name", &it.name)?;
    open_body(writer)
}

fn open_ignore_group(
    writer: &mut Writer,
    places: &Places<'_>,
    it: &IgnoreGroup,
) -> Result<Close, OutOfMemory>
    ensures { Opens result writer.old writer.new (located places.now) (ignore_kind it.now) }
{
    begin_node(writer, places, "IgnoreGroup", it.span)?;
    write_modifiers(writer, places, &it.modifiers)?;
    open_body(writer)
}

fn open_class(
    writer: &mut Writer,
    places: &Places<'_>,
    it: &CharacterClass,
) -> Result<Close, OutOfMemory>
    ensures { Opens result writer.old writer.new (located places.now) (class (mirror_class it.now)) }
{
    begin_node(writer, places, "CharacterClass", it.span)?;
    write_truth(writer, "negative", it.negative)?;
    write_truth(writer, "strings", it.strings)?;
    write_text(writer, "kind", contents_kind(it.kind))?;
    open_list(writer)
}

fn open_strings(
    writer: &mut Writer,
    places: &Places<'_>,
    it: &ClassStringDisjunction,
) -> Result<Close, OutOfMemory>
    ensures { Opens result writer.old writer.new (located places.now) (string_disjunction it.now) }
{
    begin_node(writer, places, "ClassStringDisjunction", it.span)?;
    write_truth(writer, "strings", it.strings)?;
    open_list(writer)
}

fn open_string(
    writer: &mut Writer,
    places: &Places<'_>,
    it: &ClassString,
) -> Result<Close, OutOfMemory>
    ensures { Opens result writer.old writer.new (located places.now) (class_string it.now) }
{
    begin_node(writer, places, "ClassString", it.span)?;
    write_truth(writer, "strings", it.strings)?;
    open_list(writer)
}
