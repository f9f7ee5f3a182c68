use crate::class::{
    CharacterClass, CharacterClassContents, CharacterClassRange, ClassString,
    ClassStringDisjunction,
};
use crate::leaf::{
    BoundaryAssertion, Character, CharacterClassEscape, Dot, IndexedReference, NamedReference,
    UnicodePropertyEscape,
};
use crate::term::{
    Alternative, CapturingGroup, Disjunction, IgnoreGroup, LookAroundAssertion, Pattern,
    Quantifier, Term,
};
use rx_base::{GetSpan, Span};

/// Any node of a tree, by a reference to it.
#[derive(Clone, Copy)]
pub enum RegExpAstKind<'a> {
    Pattern(&'a Pattern),
    Disjunction(&'a Disjunction),
    Alternative(&'a Alternative),
    Term(&'a Term),
    LookAroundAssertion(&'a LookAroundAssertion),
    Quantifier(&'a Quantifier),
    CapturingGroup(&'a CapturingGroup),
    IgnoreGroup(&'a IgnoreGroup),
    BoundaryAssertion(&'a BoundaryAssertion),
    Character(&'a Character),
    Dot(&'a Dot),
    CharacterClassEscape(&'a CharacterClassEscape),
    UnicodePropertyEscape(&'a UnicodePropertyEscape),
    CharacterClass(&'a CharacterClass),
    CharacterClassContents(&'a CharacterClassContents),
    CharacterClassRange(&'a CharacterClassRange),
    CharacterClassStringDisjunction(&'a ClassStringDisjunction),
    CharacterClassString(&'a ClassString),
    IndexedReference(&'a IndexedReference),
    NamedReference(&'a NamedReference),
}

impl GetSpan for RegExpAstKind<'_> {
    ghost use Rattle.rx_ast.specs.Kinds.{kind_span};
    ghost use Rattle.rx_ast.specs.MirrorKinds.{mirror_kind};

    ghost place = { λ kind. kind_span (mirror_kind kind) };

    #[tactic(auto, using(crate::proofs::KindSpans::kind_spans))]
    fn span(&self) -> Span {
        match self {
            RegExpAstKind::Pattern(it) => it.span,
            RegExpAstKind::Disjunction(it) => it.span,
            RegExpAstKind::Alternative(it) => it.span,
            RegExpAstKind::Term(it) => it.span(),
            RegExpAstKind::LookAroundAssertion(it) => it.span,
            RegExpAstKind::Quantifier(it) => it.span,
            RegExpAstKind::CapturingGroup(it) => it.span,
            RegExpAstKind::IgnoreGroup(it) => it.span,
            RegExpAstKind::BoundaryAssertion(it) => it.span,
            RegExpAstKind::Character(it) => it.span,
            RegExpAstKind::Dot(it) => it.span,
            RegExpAstKind::CharacterClassEscape(it) => it.span,
            RegExpAstKind::UnicodePropertyEscape(it) => it.span,
            RegExpAstKind::CharacterClass(it) => it.span,
            RegExpAstKind::CharacterClassContents(it) => it.span(),
            RegExpAstKind::CharacterClassRange(it) => it.span,
            RegExpAstKind::CharacterClassStringDisjunction(it) => it.span,
            RegExpAstKind::CharacterClassString(it) => it.span,
            RegExpAstKind::IndexedReference(it) => it.span,
            RegExpAstKind::NamedReference(it) => it.span,
        }
    }
}
