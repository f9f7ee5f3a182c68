//! Trees: of patterns that are read, and by hand those that no text is read to.
use rx_ast::{
    Alternative, Character, CharacterClass, CharacterClassContents, CharacterClassContentsKind,
    CharacterKind, Disjunction, Dot, IgnoreGroup, IndexedReference, Modifier, Modifiers,
    NamedReference, Pattern, Quantifier, Term, UnicodePropertyEscape,
};
use rx_base::{Fault, List, OutOfMemory, Span, Text};
use rx_tools::{Form, Options, read_pattern};
use std::alloc::Global;
use std::test::Fail;

/// The span of all that is made by hand.
pub const NOWHERE: Span = Span { start: 0, end: 0 };

/// Characters on either side of each bound between those that are spelled in different ways.
const VALUES: &str =
    "U+0 U+8 U+9 U+A U+B U+C U+D U+E U+1F U+20 ! & - / 9 a ~ U+7F U+9F U+A0 U+2027 U+2028 U+2029 U+D7FF U+D800 U+DFFF U+E000 U+FFFF U+10000 U+10FFFF U+110000";

const PUNCTUATION: &str = "^ $ \\ . * + ? ( ) [ ] { } | / & - ! # % , : ; < = > @ ` ~ \" ' _";

/// The tree that a row asks for: how it is made, and of what.
pub fn tree(alloc: Global, asked: &str) -> Result<Pattern, Fail> {
    let (how, what) = asked.split_once(' ').unwrap_or((asked, ""));
    match how {
        "read" => read(alloc, what),
        "front" => front(alloc, what),
        "union" => negative(alloc, CharacterClassContentsKind::Union, what),
        "intersection" => negative(alloc, CharacterClassContentsKind::Intersection, what),
        "subtraction" => negative(alloc, CharacterClassContentsKind::Subtraction, what),
        _ => Ok(by_hand(alloc, how, what)?),
    }
}

fn by_hand(alloc: Global, how: &str, what: &str) -> Result<Pattern, OutOfMemory> {
    match how {
        "terms" => terms(alloc, what),
        "values" => terms(alloc, VALUES),
        "punctuation" => terms(alloc, PUNCTUATION),
        "[values]" => class(alloc, VALUES),
        "[punctuation]" => class(alloc, PUNCTUATION),
        _ => Ok(pattern_of(List::new(alloc))),
    }
}

/// The tree of a pattern under `v`.
pub fn read(alloc: Global, text: &str) -> Result<Pattern, Fail> {
    if text.len() > 2_000_000 {
        return Err(Fail::new("a long text"));
    }
    match read_pattern(alloc, Form::Literal, text, Some("v"), Options::default()) {
        Ok((pattern, _)) => Ok(pattern),
        Err(Fault::Diagnostic(cause)) => Err(Fail::new(cause.name())),
        Err(Fault::OutOfMemory) => Err(Fail::new("out of memory")),
    }
}

/// The tree of a pattern without its last term, which may be a group that others refer to.
fn front(alloc: Global, text: &str) -> Result<Pattern, Fail> {
    let mut pattern = read(alloc, text)?;
    if let Some(mut last) = pattern.body.body.pop() {
        last.body.pop();
        pattern.body.body.push(last)?;
    }
    Ok(pattern)
}

/// The class that a pattern is, as a negative one of this kind.
fn negative(alloc: Global, kind: CharacterClassContentsKind, text: &str) -> Result<Pattern, Fail> {
    let pattern = read(alloc, text)?;
    Ok(with_kind(alloc, kind, &pattern).ok_or("no class")?)
}

/// The same of a pattern that is read, or none where it begins with no class.
fn with_kind(
    alloc: Global,
    kind: CharacterClassContentsKind,
    pattern: &Pattern,
) -> Option<Pattern> {
    let alternative = pattern.body.body.get(0)?;
    let Term::CharacterClass(class) = alternative.body.get(0)? else {
        return None;
    };
    let mut class = (**class).clone(alloc).ok()?;
    class.negative = true;
    class.kind = kind;
    class_alone(alloc, class).ok()
}

fn pattern_of(body: List<Alternative>) -> Pattern {
    let span = NOWHERE;
    Pattern {
        span,
        body: Disjunction { span, body },
    }
}

/// A pattern of one alternative with these terms.
fn one_alternative(alloc: Global, body: List<Term>) -> Result<Pattern, OutOfMemory> {
    let mut alternatives = List::new(alloc);
    alternatives.push(Alternative {
        span: NOWHERE,
        body,
    })?;
    Ok(pattern_of(alternatives))
}

/// A pattern of one term.
pub fn alone(alloc: Global, term: Term) -> Result<Pattern, OutOfMemory> {
    let mut terms = List::new(alloc);
    terms.push(term)?;
    one_alternative(alloc, terms)
}

/// A pattern of the terms that words stand for.
fn terms(alloc: Global, words: &str) -> Result<Pattern, OutOfMemory> {
    let mut terms = List::new(alloc);
    for word in words.split(' ') {
        terms.push(term_of(alloc, word)?)?;
    }
    one_alternative(alloc, terms)
}

/// A pattern of a class of the characters that words stand for.
fn class(alloc: Global, words: &str) -> Result<Pattern, OutOfMemory> {
    let mut body = List::new(alloc);
    for word in words.split(' ') {
        body.push(CharacterClassContents::Character(character_of(word)))?;
    }
    class_alone(alloc, union(body))
}

pub fn union(body: List<CharacterClassContents>) -> CharacterClass {
    CharacterClass {
        span: NOWHERE,
        negative: false,
        strings: false,
        kind: CharacterClassContentsKind::Union,
        body,
    }
}

/// A pattern of a class.
pub fn class_alone(alloc: Global, class: CharacterClass) -> Result<Pattern, OutOfMemory> {
    alone(alloc, Term::CharacterClass(Box::new(alloc, class)?))
}

/// The character that a word stands for: `U+` and hexadecimal digits, or the word itself.
fn character_of(word: &str) -> Character {
    let value = match word.strip_prefix("U+") {
        Some(digits) => u32::from_str_radix(digits, 16).unwrap_or(0),
        None => word.chars().next().unwrap_or('\0') as u32,
    };
    Character {
        span: NOWHERE,
        kind: CharacterKind::Symbol,
        value,
    }
}

fn symbol(word: &str) -> Term {
    Term::Character(character_of(word))
}

pub fn dot() -> Term {
    Term::Dot(Dot { span: NOWHERE })
}

/// The term that a word stands for: one that no text spells where it stands here, or a character.
fn term_of(alloc: Global, word: &str) -> Result<Term, OutOfMemory> {
    match word {
        "9*" => quantified(alloc, 0, None, true, symbol("9")),
        "a**" => quantified(
            alloc,
            0,
            None,
            true,
            quantified(alloc, 0, None, true, symbol("a"))?,
        ),
        "a{5,2}" => quantified(alloc, 5, Some(2), true, symbol("a")),
        ".{3,2}" => quantified(alloc, 3, Some(2), true, dot()),
        ".{10,18446744073709551615}?" => quantified(alloc, 10, Some(u64::MAX), false, dot()),
        "(?B-8:.)" => modified(alloc, 0xB, 0x8, dot()),
        "(?0-0:.)" => modified(alloc, 0, 0, dot()),
        "(?0-F8:a)" => modified(alloc, 0, 0xF8, symbol("a")),
        "\\p{L}" => property(alloc, "L"),
        "\\p{General_Category}" => property(alloc, "General_Category"),
        "\\k<n>" => named_reference(alloc, "n"),
        "\\1" => Ok(Term::IndexedReference(IndexedReference {
            span: NOWHERE,
            index: 1,
        })),
        "Null:A" => Ok(Term::Character(Character {
            kind: CharacterKind::Null,
            ..character_of("A")
        })),
        "ControlLetter:U+1F" => Ok(Term::Character(Character {
            kind: CharacterKind::ControlLetter,
            ..character_of("U+1F")
        })),
        _ => Ok(symbol(word)),
    }
}

pub fn quantified(
    alloc: Global,
    min: u64,
    max: Option<u64>,
    greedy: bool,
    body: Term,
) -> Result<Term, OutOfMemory> {
    let quantifier = Quantifier {
        span: NOWHERE,
        min,
        max,
        greedy,
        body,
    };
    Ok(Term::Quantifier(Box::new(alloc, quantifier)?))
}

/// A group with modifiers of these bits.
fn modified(alloc: Global, enabling: u8, disabling: u8, term: Term) -> Result<Term, OutOfMemory> {
    let group = IgnoreGroup {
        span: NOWHERE,
        modifiers: Some(Modifiers {
            span: NOWHERE,
            enabling: Modifier::from_bits_retain(enabling),
            disabling: Modifier::from_bits_retain(disabling),
        }),
        body: alone(alloc, term)?.body,
    };
    Ok(Term::IgnoreGroup(Box::new(alloc, group)?))
}

/// A property by its name alone.
fn property(alloc: Global, name: &str) -> Result<Term, OutOfMemory> {
    let property = UnicodePropertyEscape {
        span: NOWHERE,
        negative: false,
        strings: false,
        name: Text::from_str(alloc, name)?,
        value: None,
    };
    Ok(Term::UnicodePropertyEscape(Box::new(alloc, property)?))
}

fn named_reference(alloc: Global, name: &str) -> Result<Term, OutOfMemory> {
    let reference = NamedReference {
        span: NOWHERE,
        name: Text::from_str(alloc, name)?,
    };
    Ok(Term::NamedReference(Box::new(alloc, reference)?))
}
