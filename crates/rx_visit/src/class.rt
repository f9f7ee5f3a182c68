ghost use Rattle.rx_ast.specs.ClassTree.{mirror_class, mirror_contents};
ghost use Rattle.rx_ast.specs.Kinds.{class as class_kind, class_contents, class_range, string_disjunction, class_string, in_contents};
ghost use Rattle.rx_visit.specs.Visits.{Visited};

use crate::leaf::{walk_character, walk_character_class_escape, walk_unicode_property_escape};
use crate::visit::Visit;
use rx_ast::{
    CharacterClass, CharacterClassContents, CharacterClassRange, ClassString,
    ClassStringDisjunction, RegExpAstKind,
};

#[cycle(class)]
pub fn walk_character_class<V: Visit>(visitor: &mut V, it: &CharacterClass)
    ensures { Visited V.entered V.left visitor.old (class_kind (mirror_class it.now)) visitor.new }
{
    let kind = RegExpAstKind::CharacterClass(it);
    let all_contents = it.body.as_slice();
    if visitor.enter_node(kind) {
        for contents in all_contents {
            walk_character_class_contents(visitor, contents);
        }
    }
    visitor.leave_node(kind);
}

#[cycle(class)]
pub fn walk_character_class_contents<V: Visit>(visitor: &mut V, it: &CharacterClassContents)
    ensures { Visited V.entered V.left visitor.old (class_contents (mirror_contents it.now)) visitor.new }
{
    let kind = RegExpAstKind::CharacterClassContents(it);
    if visitor.enter_node(kind) {
        walk_in_contents(visitor, it);
    }
    visitor.leave_node(kind);
}

/// Visits the node that the contents of a class are.
#[cycle(class)]
#[inline(always)]
#[tactic(auto, using(rx_ast::proofs::ClassSizes::class_sizes, rx_ast::proofs::ClassEquations::class_mirrors))]
fn walk_in_contents<V: Visit>(visitor: &mut V, it: &CharacterClassContents)
    ensures { Visited V.entered V.left visitor.old (in_contents (mirror_contents it.now)) visitor.new }
{
    match it {
        CharacterClassContents::CharacterClassRange(it) => walk_character_class_range(visitor, it),
        CharacterClassContents::CharacterClassEscape(it) => walk_character_class_escape(
            visitor, it,
        ),
        CharacterClassContents::UnicodePropertyEscape(it) => {
            walk_unicode_property_escape(visitor, it)
        }
        CharacterClassContents::Character(it) => walk_character(visitor, it),
        CharacterClassContents::NestedCharacterClass(it) => walk_character_class(visitor, it),
        CharacterClassContents::ClassStringDisjunction(it) => {
            walk_character_class_string_disjunction(visitor, it)
        }
    }
}

pub fn walk_character_class_range<V: Visit>(visitor: &mut V, it: &CharacterClassRange)
    ensures { Visited V.entered V.left visitor.old (class_range it.now) visitor.new }
{
    let kind = RegExpAstKind::CharacterClassRange(it);
    if visitor.enter_node(kind) {
        walk_character(visitor, &it.min);
        walk_character(visitor, &it.max);
    }
    visitor.leave_node(kind);
}

pub fn walk_character_class_string_disjunction<V: Visit>(
    visitor: &mut V,
    it: &ClassStringDisjunction,
)
    ensures { Visited V.entered V.left visitor.old (string_disjunction it.now) visitor.new }
{
    let kind = RegExpAstKind::CharacterClassStringDisjunction(it);
    let strings = it.body.as_slice();
    if visitor.enter_node(kind) {
        for string in strings {
            walk_character_class_string(visitor, string);
        }
    }
    visitor.leave_node(kind);
}

pub fn walk_character_class_string<V: Visit>(visitor: &mut V, it: &ClassString)
    ensures { Visited V.entered V.left visitor.old (class_string it.now) visitor.new }
{
    let kind = RegExpAstKind::CharacterClassString(it);
    let characters = it.body.as_slice();
    if visitor.enter_node(kind) {
        for character in characters {
            walk_character(visitor, character);
        }
    }
    visitor.leave_node(kind);
}
