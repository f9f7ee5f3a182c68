ghost use Rattle.std.specs.Prelude.{◌≡◌};
ghost use Rattle.std.specs.Option.{option_map};
ghost use Rattle.rx_ast.specs.MirrorKinds.{mirror_kind};
ghost use Rattle.rx_ast.specs.Parts.{modifiers_in};
ghost use Rattle.rx_paint.specs.Paints.{own_paint, character_paint};

use crate::token::Kind;
use rx_ast::{CharacterKind, RegExpAstKind};
use rx_base::Span;

/// What a character is painted as, by the way it is written.
fn paint_of_character(kind: CharacterKind) -> Kind
    ensures { result ≡ character_paint kind }
{
    match kind {
        CharacterKind::Symbol => Kind::Char,
        _ => Kind::Escape,
    }
}

/// What the offsets that a node owns are painted as, or none where it counts as the node in it.
pub(crate) fn paint_of(node: RegExpAstKind<'_>) -> Option<Kind>
    ensures { result ≡ own_paint (mirror_kind node.entry) }
{
    match node {
        RegExpAstKind::Pattern(_) => Some(Kind::Other),
        RegExpAstKind::Disjunction(_) => Some(Kind::Bar),
        RegExpAstKind::Alternative(_) => Some(Kind::Other),
        RegExpAstKind::Term(_) => None,
        RegExpAstKind::LookAroundAssertion(_) => Some(Kind::Group),
        RegExpAstKind::Quantifier(_) => Some(Kind::Quantifier),
        RegExpAstKind::CapturingGroup(_) => Some(Kind::Group),
        RegExpAstKind::IgnoreGroup(_) => Some(Kind::Group),
        RegExpAstKind::BoundaryAssertion(_) => Some(Kind::Assert),
        RegExpAstKind::Character(it) => Some(paint_of_character(it.kind)),
        RegExpAstKind::Dot(_) => Some(Kind::Dot),
        RegExpAstKind::CharacterClassEscape(_) => Some(Kind::Set),
        RegExpAstKind::UnicodePropertyEscape(_) => Some(Kind::Set),
        RegExpAstKind::CharacterClass(_) => Some(Kind::Class),
        RegExpAstKind::CharacterClassContents(_) => None,
        RegExpAstKind::CharacterClassRange(_) => Some(Kind::Class),
        RegExpAstKind::CharacterClassStringDisjunction(_) => Some(Kind::Class),
        RegExpAstKind::CharacterClassString(_) => Some(Kind::Class),
        RegExpAstKind::IndexedReference(_) => Some(Kind::Reference),
        RegExpAstKind::NamedReference(_) => Some(Kind::Reference),
    }
}

/// The span of the modifiers of a group that has some.
pub(crate) fn modifiers_of(node: RegExpAstKind<'_>) -> Option<Span>
    ensures { result ≡ option_map (λ m. m.span) (modifiers_in (mirror_kind node.entry)) }
{
    match node {
        RegExpAstKind::IgnoreGroup(it) => it.modifiers.as_ref().map(|modifiers| modifiers.span),
        _ => None,
    }
}
