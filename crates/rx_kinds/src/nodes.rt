//! How many nodes stand in a node, and which node a term is.
ghost use Rattle.std.specs.Prelude.{◌≡◌, [], MatchOption, true, length};
ghost use Rattle.rx_ast.specs.Kinds.{character, children};
ghost use Rattle.rx_ast.specs.MirrorKinds.{mirror_kind};
ghost use Rattle.rx_kinds.specs.Inner.{IsNoCharacter, node_of};
ghost use Rattle.rx_kinds.specs.Leaves.{is_leaf};
ghost use Rattle.rx_visit.specs.Siblings.{in_order};

use rx_ast::{Character, CharacterClassContents, RegExpAstKind, Term};
use rx_visit::{Siblings, children_of};

/// How many nodes stand one after the other.
pub fn count(siblings: Siblings<'_>) -> usize
    ensures { result ≡ length (in_order siblings.entry) }
{
    match siblings {
        Siblings::Nothing => 0,
        Siblings::Node(_) => 1,
        Siblings::Alternatives(alternatives) => alternatives.len(),
        Siblings::Terms(terms) => terms.len(),
        Siblings::Contents(contents) => contents.len(),
        Siblings::Ends(_) => 2,
        Siblings::Strings(strings) => strings.len(),
        Siblings::Characters(characters) => characters.len(),
    }
}

/// The node that a term or an item of a class is; any other node is itself.
pub fn node_in<'a>(node: RegExpAstKind<'a>) -> RegExpAstKind<'a>
    ensures { mirror_kind result ≡ node_of (mirror_kind node.entry) }
{
    match node {
        RegExpAstKind::Term(_) | RegExpAstKind::CharacterClassContents(_) => {
            match children_of(node).split_first() {
                Some((inner, _)) => inner,
                None => unreachable!(),
            }
        }
        _ => node,
    }
}

/// The character that a node, a term or an item of a class is, or none where it is no character. Most nodes are characters, and are found so without more ado.
#[inline(always)]
#[tactic(auto, using(rx_ast::proofs::Equations::mirrors, rx_ast::proofs::ClassEquations::class_mirrors))]
pub fn character_in<'a>(node: RegExpAstKind<'a>) -> Option<&'a Character>
    ensures { MatchOption result (IsNoCharacter (mirror_kind node.entry)) (λ it. node_of (mirror_kind node.entry) ≡ character it.now) }
{
    match node {
        RegExpAstKind::Character(it) => Some(it),
        RegExpAstKind::Term(term) => match term {
            Term::Character(it) => Some(it),
            _ => None,
        },
        RegExpAstKind::CharacterClassContents(contents) => match contents {
            CharacterClassContents::Character(it) => Some(it),
            _ => None,
        },
        _ => None,
    }
}

/// Whether nothing can stand in a node of this type.
#[inline(always)]
pub fn is_leaf(node: RegExpAstKind<'_>) -> bool
    ensures exact { result ≡ is_leaf (mirror_kind node.entry) }
    ensures empty { result ≡ true → children (mirror_kind node.entry) ≡ [] }
{
    match node {
        RegExpAstKind::BoundaryAssertion(_)
        | RegExpAstKind::Character(_)
        | RegExpAstKind::Dot(_)
        | RegExpAstKind::CharacterClassEscape(_)
        | RegExpAstKind::UnicodePropertyEscape(_)
        | RegExpAstKind::IndexedReference(_)
        | RegExpAstKind::NamedReference(_) => true,
        _ => false,
    }
}
