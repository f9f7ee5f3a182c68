ghost use Rattle.std.specs.Prelude.{◌≡◌, []};
ghost use Rattle.rx_ast.specs.Kinds.{boundary_assertion, character, dot, class_escape, property_escape, indexed_reference, named_reference, children};
ghost use Rattle.rx_ast.specs.MirrorKinds.{mirror_kind};
ghost use Rattle.rx_visit.specs.Visits.{Visited};

use crate::visit::Visit;
use rx_ast::{
    BoundaryAssertion, Character, CharacterClassEscape, Dot, IndexedReference, NamedReference,
    RegExpAstKind, UnicodePropertyEscape,
};

/// Visits a node with no node in it.
fn visit_leaf<V: Visit>(visitor: &mut V, kind: RegExpAstKind<'_>)
    requires { children (mirror_kind kind) ≡ [] }
    ensures { Visited V.entered V.left visitor.old (mirror_kind kind.entry) visitor.new }
{
    visitor.enter_node(kind);
    visitor.leave_node(kind);
}

pub fn walk_boundary_assertion<V: Visit>(visitor: &mut V, it: &BoundaryAssertion)
    ensures { Visited V.entered V.left visitor.old (boundary_assertion it.now) visitor.new }
{
    visit_leaf(visitor, RegExpAstKind::BoundaryAssertion(it));
}

pub fn walk_character<V: Visit>(visitor: &mut V, it: &Character)
    ensures { Visited V.entered V.left visitor.old (character it.now) visitor.new }
{
    visit_leaf(visitor, RegExpAstKind::Character(it));
}

pub fn walk_dot<V: Visit>(visitor: &mut V, it: &Dot)
    ensures { Visited V.entered V.left visitor.old (dot it.now) visitor.new }
{
    visit_leaf(visitor, RegExpAstKind::Dot(it));
}

pub fn walk_character_class_escape<V: Visit>(visitor: &mut V, it: &CharacterClassEscape)
    ensures { Visited V.entered V.left visitor.old (class_escape it.now) visitor.new }
{
    visit_leaf(visitor, RegExpAstKind::CharacterClassEscape(it));
}

pub fn walk_unicode_property_escape<V: Visit>(visitor: &mut V, it: &UnicodePropertyEscape)
    ensures { Visited V.entered V.left visitor.old (property_escape it.now) visitor.new }
{
    visit_leaf(visitor, RegExpAstKind::UnicodePropertyEscape(it));
}

pub fn walk_indexed_reference<V: Visit>(visitor: &mut V, it: &IndexedReference)
    ensures { Visited V.entered V.left visitor.old (indexed_reference it.now) visitor.new }
{
    visit_leaf(visitor, RegExpAstKind::IndexedReference(it));
}

pub fn walk_named_reference<V: Visit>(visitor: &mut V, it: &NamedReference)
    ensures { Visited V.entered V.left visitor.old (named_reference it.now) visitor.new }
{
    visit_leaf(visitor, RegExpAstKind::NamedReference(it));
}
