ghost use Rattle.std.specs.Prelude.{◌≡◌, ◌∷◌, []};
ghost use Rattle.rx_ast.specs.Kinds.{pattern, disjunction, alternative, term, in_term, children};
ghost use Rattle.rx_ast.specs.MirrorKinds.{mirror_kind, look_kind, quantifier_kind, capturing_kind, ignore_kind};
ghost use Rattle.rx_ast.specs.Tree.{mirror, mirror_term, mirror_alternative, mirror_disjunction};
ghost use Rattle.rx_visit.specs.Visits.{Visited};

use crate::class::walk_character_class;
use crate::leaf::{
    walk_boundary_assertion, walk_character, walk_character_class_escape, walk_dot,
    walk_indexed_reference, walk_named_reference, walk_unicode_property_escape,
};
use crate::visit::Visit;
use rx_ast::{
    Alternative, CapturingGroup, Disjunction, IgnoreGroup, LookAroundAssertion, Pattern,
    Quantifier, RegExpAstKind, Term,
};

/// Visits a whole pattern. This and the other walks call themselves for what nests, so they take a deeper stack for a deeper tree.
pub fn walk_pattern<V: Visit>(visitor: &mut V, it: &Pattern)
    ensures { Visited V.entered V.left visitor.old (pattern (mirror it.now)) visitor.new }
{
    visit_around(visitor, RegExpAstKind::Pattern(it), &it.body);
}

/// Visits a node in which nothing stands but a disjunction.
#[cycle(term)]
#[inline(always)]
fn visit_around<V: Visit>(visitor: &mut V, kind: RegExpAstKind<'_>, body: &Disjunction)
    requires { children (mirror_kind kind) ≡ disjunction (mirror_disjunction body.now) ∷ [] }
    ensures { Visited V.entered V.left visitor.old (mirror_kind kind.entry) visitor.new }
{
    if visitor.enter_node(kind) {
        walk_disjunction(visitor, body);
    }
    visitor.leave_node(kind);
}

#[cycle(term)]
pub fn walk_disjunction<V: Visit>(visitor: &mut V, it: &Disjunction)
    ensures { Visited V.entered V.left visitor.old (disjunction (mirror_disjunction it.now)) visitor.new }
{
    let kind = RegExpAstKind::Disjunction(it);
    let alternatives = it.body.as_slice();
    if visitor.enter_node(kind) {
        for alternative in alternatives {
            walk_alternative(visitor, alternative);
        }
    }
    visitor.leave_node(kind);
}

#[cycle(term)]
pub fn walk_alternative<V: Visit>(visitor: &mut V, it: &Alternative)
    ensures { Visited V.entered V.left visitor.old (alternative (mirror_alternative it.now)) visitor.new }
{
    let kind = RegExpAstKind::Alternative(it);
    let terms = it.body.as_slice();
    if visitor.enter_node(kind) {
        for term in terms {
            walk_term(visitor, term);
        }
    }
    visitor.leave_node(kind);
}

#[cycle(term)]
pub fn walk_term<V: Visit>(visitor: &mut V, it: &Term)
    ensures { Visited V.entered V.left visitor.old (term (mirror_term it.now)) visitor.new }
{
    let kind = RegExpAstKind::Term(it);
    if visitor.enter_node(kind) {
        walk_in_term(visitor, it);
    }
    visitor.leave_node(kind);
}

/// Visits the node that a term is.
#[cycle(term)]
#[inline(always)]
#[tactic(auto, using(rx_ast::proofs::Sizes::sizes, rx_ast::proofs::Equations::mirrors))]
fn walk_in_term<V: Visit>(visitor: &mut V, it: &Term)
    ensures { Visited V.entered V.left visitor.old (in_term (mirror_term it.now)) visitor.new }
{
    match it {
        Term::BoundaryAssertion(it) => walk_boundary_assertion(visitor, it),
        Term::LookAroundAssertion(it) => walk_lookaround_assertion(visitor, it),
        Term::Quantifier(it) => walk_quantifier(visitor, it),
        Term::Character(it) => walk_character(visitor, it),
        Term::Dot(it) => walk_dot(visitor, it),
        Term::CharacterClassEscape(it) => walk_character_class_escape(visitor, it),
        Term::UnicodePropertyEscape(it) => walk_unicode_property_escape(visitor, it),
        Term::CharacterClass(it) => walk_character_class(visitor, it),
        Term::CapturingGroup(it) => walk_capturing_group(visitor, it),
        Term::IgnoreGroup(it) => walk_ignore_group(visitor, it),
        Term::IndexedReference(it) => walk_indexed_reference(visitor, it),
        Term::NamedReference(it) => walk_named_reference(visitor, it),
    }
}

#[cycle(term)]
pub fn walk_lookaround_assertion<V: Visit>(visitor: &mut V, it: &LookAroundAssertion)
    ensures { Visited V.entered V.left visitor.old (look_kind it.now) visitor.new }
{
    visit_around(visitor, RegExpAstKind::LookAroundAssertion(it), &it.body);
}

#[cycle(term)]
pub fn walk_quantifier<V: Visit>(visitor: &mut V, it: &Quantifier)
    ensures { Visited V.entered V.left visitor.old (quantifier_kind it.now) visitor.new }
{
    let kind = RegExpAstKind::Quantifier(it);
    if visitor.enter_node(kind) {
        walk_term(visitor, &it.body);
    }
    visitor.leave_node(kind);
}

#[cycle(term)]
pub fn walk_capturing_group<V: Visit>(visitor: &mut V, it: &CapturingGroup)
    ensures { Visited V.entered V.left visitor.old (capturing_kind it.now) visitor.new }
{
    visit_around(visitor, RegExpAstKind::CapturingGroup(it), &it.body);
}

#[cycle(term)]
pub fn walk_ignore_group<V: Visit>(visitor: &mut V, it: &IgnoreGroup)
    ensures { Visited V.entered V.left visitor.old (ignore_kind it.now) visitor.new }
{
    visit_around(visitor, RegExpAstKind::IgnoreGroup(it), &it.body);
}
