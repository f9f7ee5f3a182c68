//! What a term, or one of a class's contents, is written as with the one right after it.
ghost use Rattle.std.specs.Prelude.{◌≡◌, IsTrue, map};
ghost use Rattle.std.specs.Option.{option_copied};
ghost use Rattle.rx_base.specs.SurrogatePair.{IsLeadSurrogate, IsTrailSurrogate, surrogate_pair};
ghost use Rattle.rx_ast.specs.ClassTree.{members, mirror_contents};
ghost use Rattle.rx_ast.specs.Shown.{are_joined as joined, first_of_members, first_of_nodes, joined_pair as pair, may_join as may, member_character, member_pair, node_character, node_pair};
ghost use Rattle.rx_ast.specs.Tree.{mirror_term, nodes};

use crate::class::CharacterClassContents;
use crate::leaf::{Character, CharacterKind};
use crate::term::Term;
use rx_base::{combine_surrogate_pair, is_lead_surrogate, is_trail_surrogate};

fn may_join(kind: CharacterKind) -> bool
    ensures { result ≡ may kind }
{
    matches!(kind, CharacterKind::Symbol | CharacterKind::UnicodeEscape)
}

/// Whether two neighbours are a pair of surrogates that is written as one character.
#[tactic(auto, unfolding(crate::specs::Shown::are_joined))]
fn are_joined(this: &Character, next: &Character) -> bool
    ensures value { result ≡ joined this.now next.now }
    ensures lead { IsTrue result → IsLeadSurrogate this.now.value }
    ensures trail { IsTrue result → IsTrailSurrogate next.now.value }
{
    may_join(this.kind) && is_lead_surrogate(this.value) && is_trail_surrogate(next.value)
}

/// The character of a lead and a trail.
fn pair_of(lead: u32, trail: u32) -> char
    requires lead { IsLeadSurrogate lead }
    requires trail { IsTrailSurrogate trail }
    ensures { result ≡ surrogate_pair lead trail }
{
    char::from_u32(combine_surrogate_pair(lead, trail)).unwrap()
}

/// The character that two neighbours in an alternative or in a class are written as, where they are characters that are joined.
// Why: docs/DECISIONS.md, 54.
fn joined_pair(this: Option<&Character>, next: Option<&Character>) -> Option<char>
    ensures { result ≡ pair (option_copied this.entry) (option_copied next.entry) }
{
    let lead = this?;
    let trail = next?;
    if are_joined(lead, trail) {
        Some(pair_of(lead.value, trail.value))
    } else {
        None
    }
}

/// The character that a term is, if it is one.
#[tactic(auto, using(crate::proofs::Equations::mirrors))]
fn term_character(term: &Term) -> Option<&Character>
    ensures { option_copied result ≡ node_character (mirror_term term.now) }
{
    match term {
        Term::Character(it) => Some(it),
        Term::BoundaryAssertion(_) => None,
        Term::LookAroundAssertion(_) => None,
        Term::Quantifier(_) => None,
        Term::Dot(_) => None,
        Term::CharacterClassEscape(_) => None,
        Term::UnicodePropertyEscape(_) => None,
        Term::CharacterClass(_) => None,
        Term::CapturingGroup(_) => None,
        Term::IgnoreGroup(_) => None,
        Term::IndexedReference(_) => None,
        Term::NamedReference(_) => None,
    }
}

/// The character that the first of some terms is, if it is one.
fn first_of_terms(terms: &[Term]) -> Option<&Character>
    ensures { option_copied result ≡ first_of_nodes (nodes (map mirror_term terms.now)) }
{
    match terms.split_first() {
        Some((first, _)) => term_character(first),
        None => None,
    }
}

/// The character that a term is written as with the first of the terms after it, if the two are joined.
pub fn term_pair(term: &Term, following: &[Term]) -> Option<char>
    ensures { result ≡ node_pair (mirror_term term.now) (nodes (map mirror_term following.now)) }
{
    joined_pair(term_character(term), first_of_terms(following))
}

/// The character that one of a class's contents is, if it is one.
#[tactic(auto, using(crate::proofs::ClassEquations::class_mirrors))]
fn contents_character(contents: &CharacterClassContents) -> Option<&Character>
    ensures { option_copied result ≡ member_character (mirror_contents contents.now) }
{
    match contents {
        CharacterClassContents::Character(it) => Some(it),
        CharacterClassContents::CharacterClassRange(_) => None,
        CharacterClassContents::CharacterClassEscape(_) => None,
        CharacterClassContents::UnicodePropertyEscape(_) => None,
        CharacterClassContents::NestedCharacterClass(_) => None,
        CharacterClassContents::ClassStringDisjunction(_) => None,
    }
}

/// The character that the first of some contents is, if it is one.
fn first_of_contents(contents: &[CharacterClassContents]) -> Option<&Character>
    ensures { option_copied result ≡ first_of_members (members (map mirror_contents contents.now)) }
{
    match contents.split_first() {
        Some((first, _)) => contents_character(first),
        None => None,
    }
}

/// The character that one of a class's contents is written as with the first of those after it, if the two are joined.
pub fn contents_pair(
    contents: &CharacterClassContents,
    following: &[CharacterClassContents],
) -> Option<char>
    ensures { result ≡ member_pair (mirror_contents contents.now) (members (map mirror_contents following.now)) }
{
    joined_pair(contents_character(contents), first_of_contents(following))
}
