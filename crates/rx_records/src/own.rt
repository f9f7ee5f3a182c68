//! What the record of a node says of that node alone.
ghost use Rattle.std.specs.Prelude.{◌≡◌, ◌++◌, IfOk, OnOk, length};
ghost use Rattle.std.specs.String.{string_bytes};
ghost use Rattle.rx_ast.specs.ClassTree.{mirror_class};
ghost use Rattle.rx_ast.specs.Kinds.{alternative, boundary_assertion, character, class, class_escape, class_string, disjunction, indexed_reference, named_reference, property_escape, string_disjunction};
ghost use Rattle.rx_ast.specs.MirrorKinds.{capturing_kind, ignore_kind, look_kind, mirror_kind, quantifier_kind};
ghost use Rattle.rx_ast.specs.Tree.{mirror_alternative, mirror_disjunction};
ghost use Rattle.rx_records.specs.Made.{AddsNode};
ghost use Rattle.rx_records.specs.Nodes.{bytes_of, optional_range, own};
ghost use Rattle.rx_records.specs.Records.{before_all};

use crate::codes::{
    ALTERNATIVE, BOUNDARY_ASSERTION, CAPTURING_GROUP, CHARACTER, CHARACTER_CLASS,
    CHARACTER_CLASS_ESCAPE, CHARACTER_CLASS_RANGE, CLASS_STRING, CLASS_STRING_DISJUNCTION,
    DISJUNCTION, DOT, IGNORE_GROUP, INDEXED_REFERENCE, LOOK_AROUND_ASSERTION, NAMED_REFERENCE,
    NO_NODE, PATTERN, QUANTIFIER, UNICODE_PROPERTY_ESCAPE,
};
use crate::node::{Node, Range};
use crate::records::{Links, Records, as_u32, one_more};
use rx_ast::{
    Alternative, BoundaryAssertion, CapturingGroup, Character, CharacterClass,
    CharacterClassEscape, ClassString, ClassStringDisjunction, Disjunction, IgnoreGroup,
    IndexedReference, LookAroundAssertion, NamedReference, Quantifier, RegExpAstKind,
    UnicodePropertyEscape,
};
use rx_base::{GetSpan, OutOfMemory, Text};
use rx_kinds::{boundary_code, character_code, class_escape_code, contents_code, look_code};

impl Records {
    /// Adds the record of a node, with where it leads. Its names are added, and its index if it is a capturing group.
    // Why: each arm adds by itself, since a record that all arms answer is put together field by field.
    #[tactic(auto, using(rx_ast::proofs::Equations::mirrors, rx_ast::proofs::KindSpans::kind_spans))]
    pub(crate) fn add(&mut self, node: RegExpAstKind<'_>, links: Links) -> Result<(), OutOfMemory>
        ensures { OnOk result (AddsNode self.old self.new (mirror_kind node.entry) links.children links.next) }
    {
        match node {
            RegExpAstKind::Pattern(it) => self.push(Node::plain(PATTERN, it.span), links),
            RegExpAstKind::Disjunction(it) => self.push(disjunction_record(it), links),
            RegExpAstKind::Alternative(it) => self.push(alternative_record(it), links),
            RegExpAstKind::Term(it) => self.push(Node::plain(NO_NODE, it.span()), links),
            RegExpAstKind::LookAroundAssertion(it) => self.push(look_record(it), links),
            RegExpAstKind::Quantifier(it) => self.push(quantifier_record(it), links),
            RegExpAstKind::CapturingGroup(it) => self.add_capturing_group(it, links),
            RegExpAstKind::IgnoreGroup(it) => self.push(ignore_record(it), links),
            RegExpAstKind::BoundaryAssertion(it) => self.push(boundary_record(it), links),
            RegExpAstKind::Character(it) => self.push(character_record(it), links),
            RegExpAstKind::Dot(it) => self.push(Node::plain(DOT, it.span), links),
            RegExpAstKind::CharacterClassEscape(it) => self.push(class_escape_record(it), links),
            RegExpAstKind::UnicodePropertyEscape(it) => self.add_property_escape(it, links),
            RegExpAstKind::CharacterClass(it) => self.push(class_record(it), links),
            RegExpAstKind::CharacterClassContents(it) => {
                self.push(Node::plain(NO_NODE, it.span()), links)
            }
            RegExpAstKind::CharacterClassRange(it) => {
                self.push(Node::plain(CHARACTER_CLASS_RANGE, it.span), links)
            }
            RegExpAstKind::CharacterClassStringDisjunction(it) => {
                self.push(string_disjunction_record(it), links)
            }
            RegExpAstKind::CharacterClassString(it) => self.push(string_record(it), links),
            RegExpAstKind::IndexedReference(it) => self.push(indexed_record(it), links),
            RegExpAstKind::NamedReference(it) => self.add_named_reference(it, links),
        }
    }

    fn add_capturing_group(&mut self, it: &CapturingGroup, links: Links) -> Result<(), OutOfMemory>
        ensures { OnOk result (AddsNode self.old self.new (capturing_kind it.now) links.children links.next) }
    {
        let at = as_u32(self.nodes.len())?;
        let number = one_more(self.groups.len())?;
        let name = self.add_optional_text(&it.name)?;
        self.groups.push(at)?;
        let node = Node {
            number,
            has_name: it.name.is_some(),
            name,
            ..Node::plain(CAPTURING_GROUP, it.span)
        };
        self.push(node, links)
    }

    fn add_property_escape(
        &mut self,
        it: &UnicodePropertyEscape,
        links: Links,
    ) -> Result<(), OutOfMemory>
        ensures { OnOk result (AddsNode self.old self.new (property_escape it.now) links.children links.next) }
    {
        let name = self.add_text(&it.name)?;
        let property_value = self.add_optional_text(&it.value)?;
        let node = Node {
            negative: it.negative,
            strings: it.strings,
            has_name: true,
            name,
            has_property_value: it.value.is_some(),
            property_value,
            ..Node::plain(UNICODE_PROPERTY_ESCAPE, it.span)
        };
        self.push(node, links)
    }

    fn add_named_reference(&mut self, it: &NamedReference, links: Links) -> Result<(), OutOfMemory>
        ensures { OnOk result (AddsNode self.old self.new (named_reference it.now) links.children links.next) }
    {
        let name = self.add_text(&it.name)?;
        let node = Node {
            has_name: true,
            name,
            ..Node::plain(NAMED_REFERENCE, it.span)
        };
        self.push(node, links)
    }

    /// Adds the bytes of a text where there is one, and answers where they stand.
    fn add_optional_text(&mut self, text: &Option<Text>) -> Result<Range, OutOfMemory>
        ensures range { IfOk result (λ range. range ≡ optional_range (length (string_bytes self.old.texts)) text.now) }
        ensures texts { OnOk result (string_bytes self.new.texts ≡ string_bytes self.old.texts ++ bytes_of text.now) }
        ensures groups { self.new.groups.items ≡ self.old.groups.items }
        ensures nodes { self.new.nodes.items ≡ self.old.nodes.items }
    {
        match text {
            Some(text) => self.add_text(text),
            None => Ok(Range::default()),
        }
    }
}

#[tactic(auto, using(rx_ast::proofs::Equations::mirrors))]
fn disjunction_record(it: &Disjunction) -> Node
    ensures { result ≡ own before_all (disjunction (mirror_disjunction it.now)) }
{
    Node::plain(DISJUNCTION, it.span)
}

#[tactic(auto, using(rx_ast::proofs::Equations::mirrors))]
fn alternative_record(it: &Alternative) -> Node
    ensures { result ≡ own before_all (alternative (mirror_alternative it.now)) }
{
    Node::plain(ALTERNATIVE, it.span)
}

fn look_record(it: &LookAroundAssertion) -> Node
    ensures { result ≡ own before_all (look_kind it.now) }
{
    Node::plain(LOOK_AROUND_ASSERTION, it.span).of_kind(look_code(it.kind))
}

fn boundary_record(it: &BoundaryAssertion) -> Node
    ensures { result ≡ own before_all (boundary_assertion it.now) }
{
    Node::plain(BOUNDARY_ASSERTION, it.span).of_kind(boundary_code(it.kind))
}

fn class_escape_record(it: &CharacterClassEscape) -> Node
    ensures { result ≡ own before_all (class_escape it.now) }
{
    Node::plain(CHARACTER_CLASS_ESCAPE, it.span).of_kind(class_escape_code(it.kind))
}

#[inline(always)]
pub(crate) fn character_record(it: &Character) -> Node
    ensures { result ≡ own before_all (character it.now) }
{
    Node {
        kind: character_code(it.kind),
        number: it.value,
        ..Node::plain(CHARACTER, it.span)
    }
}

fn indexed_record(it: &IndexedReference) -> Node
    ensures { result ≡ own before_all (indexed_reference it.now) }
{
    Node {
        number: it.index,
        ..Node::plain(INDEXED_REFERENCE, it.span)
    }
}

fn quantifier_record(it: &Quantifier) -> Node
    ensures { result ≡ own before_all (quantifier_kind it.now) }
{
    Node {
        min: it.min,
        has_max: it.max.is_some(),
        max: it.max.unwrap_or(0),
        greedy: it.greedy,
        ..Node::plain(QUANTIFIER, it.span)
    }
}

#[tactic(auto, using(rx_ast::proofs::ClassEquations::class_mirrors))]
fn class_record(it: &CharacterClass) -> Node
    ensures { result ≡ own before_all (class (mirror_class it.now)) }
{
    Node {
        kind: contents_code(it.kind),
        negative: it.negative,
        strings: it.strings,
        ..Node::plain(CHARACTER_CLASS, it.span)
    }
}

fn string_disjunction_record(it: &ClassStringDisjunction) -> Node
    ensures { result ≡ own before_all (string_disjunction it.now) }
{
    Node::plain(CLASS_STRING_DISJUNCTION, it.span).with_strings(it.strings)
}

fn string_record(it: &ClassString) -> Node
    ensures { result ≡ own before_all (class_string it.now) }
{
    Node::plain(CLASS_STRING, it.span).with_strings(it.strings)
}

fn ignore_record(it: &IgnoreGroup) -> Node
    ensures { result ≡ own before_all (ignore_kind it.now) }
{
    let plain = Node::plain(IGNORE_GROUP, it.span);
    match &it.modifiers {
        Some(modifiers) => Node {
            has_modifiers: true,
            enabling: modifiers.enabling.bits(),
            disabling: modifiers.disabling.bits(),
            modifiers: Range::of(modifiers.span),
            ..plain
        },
        None => plain,
    }
}
