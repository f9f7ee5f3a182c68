//! Trees that no text spells.
use crate::searches::read;
use rx_ast::{
    Alternative, CharacterClass, CharacterClassContentsKind, Disjunction, IgnoreGroup,
    IndexedReference, Modifier, Modifiers, Pattern, Quantifier, Term,
};
use rx_base::{List, Span};
use std::alloc::Global;

/// A pattern of one alternative, in which each word, with single spaces between, stands for a term:
///
/// | word | term |
/// |---|---|
/// | `\0`, `\7` | a reference to the group of this number |
/// | `a{5,2}`, `a{5,2}?` | `a` at least 5 and at most 2 times, greedy and not |
/// | `a**` | any number of `a` any number of times |
/// | `(?:` | a group with no alternative |
/// | `(?m-m:^)`, `(?i-i:^)` | `^` in a group with a modifier on both sides of `-`, at 3..4 |
/// | `[&&]`, `[^&&]`, `[--]`, `[^--]` | a class of this kind with no items |
///
/// Any other word stands for the last term of the pattern that it spells, by itself.
pub fn made(alloc: Global, words: &str) -> Option<Pattern> {
    let mut terms = List::new(alloc);
    for word in words.split_ascii_whitespace() {
        terms.push(term_of(alloc, word)?).ok()?;
    }
    let span = Span::empty(0);
    let mut body = List::new(alloc);
    body.push(Alternative { span, body: terms }).ok()?;
    Some(Pattern {
        span,
        body: Disjunction { span, body },
    })
}

fn term_of(alloc: Global, word: &str) -> Option<Term> {
    match word {
        r"\0" => Some(reference(0)),
        r"\7" => Some(reference(7)),
        "a{5,2}" => repeated(alloc, (5, Some(2)), true, "a"),
        "a{5,2}?" => repeated(alloc, (5, Some(2)), false, "a"),
        "a**" => repeated(alloc, (0, None), true, "a*"),
        "(?:" => group_of_none(alloc),
        "(?m-m:^)" => modified(alloc, Modifier::M),
        "(?i-i:^)" => modified(alloc, Modifier::I),
        "[&&]" => class(alloc, CharacterClassContentsKind::Intersection, false),
        "[^&&]" => class(alloc, CharacterClassContentsKind::Intersection, true),
        "[--]" => class(alloc, CharacterClassContentsKind::Subtraction, false),
        "[^--]" => class(alloc, CharacterClassContentsKind::Subtraction, true),
        _ => last_term(alloc, word),
    }
}

/// The last term of a pattern that is read.
fn last_term(alloc: Global, pattern: &str) -> Option<Term> {
    read(alloc, pattern, "")?.body.body.pop()?.body.pop()
}

fn reference(index: u32) -> Term {
    Term::IndexedReference(IndexedReference {
        span: Span::empty(0),
        index,
    })
}

fn repeated(
    alloc: Global,
    (min, max): (u64, Option<u64>),
    greedy: bool,
    body: &str,
) -> Option<Term> {
    let quantifier = Quantifier {
        span: Span::empty(0),
        min,
        max,
        greedy,
        body: last_term(alloc, body)?,
    };
    Some(Term::Quantifier(Box::new(alloc, quantifier).ok()?))
}

fn group_of_none(alloc: Global) -> Option<Term> {
    let span = Span::empty(0);
    let body = List::new(alloc);
    group(alloc, None, Disjunction { span, body })
}

/// `^` in a group with a modifier on both sides of `-`.
fn modified(alloc: Global, modifier: Modifier) -> Option<Term> {
    let modifiers = Modifiers {
        span: Span { start: 3, end: 4 },
        enabling: modifier,
        disabling: modifier,
    };
    group(alloc, Some(modifiers), read(alloc, "^", "")?.body)
}

fn group(alloc: Global, modifiers: Option<Modifiers>, body: Disjunction) -> Option<Term> {
    let group = IgnoreGroup {
        span: Span::empty(0),
        modifiers,
        body,
    };
    Some(Term::IgnoreGroup(Box::new(alloc, group).ok()?))
}

/// A class with no items.
fn class(alloc: Global, kind: CharacterClassContentsKind, negative: bool) -> Option<Term> {
    let class = CharacterClass {
        span: Span::empty(0),
        negative,
        strings: false,
        kind,
        body: List::new(alloc),
    };
    Some(Term::CharacterClass(Box::new(alloc, class).ok()?))
}

/// Trees that no text spells.
pub const TREES: &str = r" ~  ~ 0 ~ b => 0..0
 ~ \7 ~ 1 ~ b => 0..0
 ~ \7 ~ 0 ~ b => spent
 ~ \7 b ~ 4 ~ ab => 1..2
 ~ \7 b ~ 3 ~ ab => spent
 ~ \0 b ~ 4 ~ ab => 1..2
 ~ (?<n>a) (?<n>b) (?<n>)\k<n> ~ 5 ~ aba => 0..3 0..1 1..2
 ~ (?<n>a) (?<n>b) (?<n>)\k<n> ~ 4 ~ aba => spent
 ~ (?<n>b) (?<n>a) (?<n>)\k<n> ~ 7 ~ abab => 1..4 1..2 2..3
 ~ (?<n>b) (?<n>a) (?<n>)\k<n> ~ 6 ~ abab => spent
 ~ (?<n>)\k<n> (?<n>a) ~ 3 ~ a => 0..1 0..1
 ~ (?<n>)\k<n> (?<n>b) ~ 100 ~ a => none
 ~ a{5,2} ~ 3 ~ aaa => 0..2
 ~ a{5,2} ~ 2 ~ aaa => spent
 ~ a{5,2} ~ 5 ~ a => none
 ~ a{5,2} ~ 4 ~ a => spent
 ~ a{5,2}? ~ 3 ~ aaa => 0..2
 ~ a{5,2}? ~ 2 ~ aaa => spent
 ~ a** ~ 7 ~ aab => 0..2
 ~ a** ~ 6 ~ aab => spent
 ~ a** b ~ 8 ~ aab => 0..3
 ~ a** b ~ 7 ~ aab => spent
 ~ a** ~ 3 ~ b => 0..0
 ~ (?: ~ 2 ~ a => none
 ~ (?: ~ 1 ~ a => spent
m ~ (?m-m:^) b ~ 100 ~ a«A»b => none
m ~ (?m-m:^) a ~ 3 ~ a«A»b => 0..1
 ~ a (?i-i:^) ~ 0 ~ a => unsupported 3..4
i ~ a (?i-i:^) ~ 0 ~ a => flag";

/// A class of no items answers by its kind.
pub const CLASSES: &str = r"u ~ [] ~ 1 ~ a => none
u ~ [^] ~ 1 ~ a => 0..1
u ~ [&&] ~ 1 ~ a => 0..1
u ~ [^&&] ~ 1 ~ a => none
u ~ [--] ~ 1 ~ a => none
u ~ [^--] ~ 1 ~ a => 0..1";
