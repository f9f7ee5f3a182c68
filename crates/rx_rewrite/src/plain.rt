ghost use Rattle.std.specs.Prelude.{◌≡◌, ◌∷◌, [], IfOk, map};
ghost use Rattle.rx_ast.specs.ClassTree.{mirror_class, mirror_contents, character, members};
ghost use Rattle.rx_ast.specs.Tree.{class, leaf, mirror_term};
ghost use Rattle.rx_rewrite.specs.Rewriting.{any_unit as any_unit_of, look_for as look_for_in, no_line_terminator as no_line_terminator_of, not_in_class as not_in_class_of};

use rx_ast::{
    Alternative, Character, CharacterClass, CharacterClassContents, CharacterClassContentsKind,
    CharacterKind, Disjunction, LookAroundAssertion, LookAroundAssertionKind, Term,
};
use rx_base::{List, OutOfMemory, Span};
use std::alloc::Global;

/// The class of all that these items do not hold.
#[tactic(auto, using(rx_ast::proofs::ClassEquations::class_mirrors))]
fn not_in_class(span: Span, body: List<CharacterClassContents>) -> CharacterClass
    ensures { mirror_class result ≡ not_in_class_of span (members (map mirror_contents body)) }
{
    CharacterClass {
        span,
        negative: true,
        strings: false,
        kind: CharacterClassContentsKind::Union,
        body,
    }
}

/// `[^]`: each unit.
pub fn any_unit(alloc: Global, span: Span) -> CharacterClass
    ensures { mirror_class result ≡ any_unit_of span }
{
    not_in_class(span, List::new(alloc))
}

#[tactic(auto, using(rx_ast::proofs::ClassEquations::class_mirrors))]
fn written(span: Span, kind: CharacterKind, value: u32) -> CharacterClassContents
    ensures { mirror_contents result ≡ character (record { span = span; kind = kind; value = value }) }
{
    CharacterClassContents::Character(Character { span, kind, value })
}

/// `[^\n\r\u2028\u2029]`: each unit that is no LineTerminator (ECMA-262, 12.3).
pub fn no_line_terminator(alloc: Global, span: Span) -> Result<CharacterClass, OutOfMemory>
    ensures { IfOk result (λ it. mirror_class it ≡ no_line_terminator_of span) }
{
    let mut body = List::with_capacity(alloc, 4)?;
    body.push(written(span, CharacterKind::SingleEscape, 0xA))?;
    body.push(written(span, CharacterKind::SingleEscape, 0xD))?;
    body.push(written(span, CharacterKind::UnicodeEscape, 0x2028))?;
    body.push(written(span, CharacterKind::UnicodeEscape, 0x2029))?;
    Ok(not_in_class(span, body))
}

/// A class as a term.
#[tactic(auto, using(rx_ast::proofs::Equations::mirrors))]
pub fn class_term(alloc: Global, it: CharacterClass) -> Result<Term, OutOfMemory>
    ensures { IfOk result (λ term. mirror_term term ≡ leaf (class (mirror_class it))) }
{
    Ok(Term::CharacterClass(Box::new(alloc, it)?))
}

/// A list of one item.
fn alone<T: Drop>(alloc: Global, item: T) -> Result<List<T>, OutOfMemory>
    ensures { IfOk result (λ list. list ≡ item ∷ []) }
{
    let mut list = List::with_capacity(alloc, 1)?;
    list.push(item)?;
    Ok(list)
}

/// A look-around whose body is a class alone.
#[tactic(auto, using(rx_ast::proofs::Equations::mirrors))]
pub fn look_for(
    alloc: Global,
    span: Span,
    kind: LookAroundAssertionKind,
    it: CharacterClass,
) -> Result<Term, OutOfMemory>
    ensures { IfOk result (λ term. mirror_term term ≡ look_for_in span kind (mirror_class it)) }
{
    let terms = alone(alloc, class_term(alloc, it)?)?;
    let body = Disjunction {
        span,
        body: alone(alloc, Alternative { span, body: terms })?,
    };
    let it = LookAroundAssertion { span, kind, body };
    Ok(Term::LookAroundAssertion(Box::new(alloc, it)?))
}
