ghost use Rattle.std.specs.Prelude.{◌<◌, ◌^◌};

use rx_ast::{
    Alternative, CapturingGroup, Character, CharacterClass, CharacterClassContents,
    CharacterClassContentsKind, CharacterClassRange, CharacterKind, Disjunction, Dot, Modifier,
    Pattern, Quantifier, Term,
};
use rx_base::{ContentEq, GetSpan, List, OutOfMemory, Span, Text};
use std::alloc::{AllocError, Global};

/// Two sets by their bits; those of their union, their intersection, what the first has alone, what one has alone, and the complement of the first; those of
/// the first after the second was inserted, then removed, and after it was toggled; and whether the first contains and intersects the second.
const SETS: [(u8, u8, [u8; 8], [bool; 2]); 4] = [
    (0b101, 0b110, [7, 4, 1, 3, 2, 7, 1, 3], [false, true]),
    (
        0b10000001,
        0b10000010,
        [131, 128, 1, 3, 6, 131, 1, 3],
        [false, true],
    ),
    (0b111, 0b010, [7, 2, 5, 5, 0, 7, 5, 5], [true, true]),
    (0b000, 0b100, [4, 0, 0, 4, 7, 4, 0, 4], [false, false]),
];

#[test]
fn modifiers_are_sets_of_bits(rt: HostRuntime) {
    for (first, second, bits, answers) in SETS {
        let a = Modifier::from_bits_retain(first);
        let b = Modifier::from_bits_retain(second);
        let mut inserted = a;
        inserted.insert(b);
        let mut removed = inserted;
        removed.remove(b);
        let mut toggled = a;
        toggled.toggle(b);
        let found = [
            (a | b).bits(),
            (a & b).bits(),
            (a - b).bits(),
            (a ^ b).bits(),
            (!a).bits(),
            inserted.bits(),
            removed.bits(),
            toggled.bits(),
        ];
        let told = [a.contains(b), a.intersects(b)];
        assert!(rt; (found == bits) & (told == answers), "{found:?} {told:?}");
    }
}

#[test]
fn bits_of_modifiers(rt: HostRuntime) {
    let kept = [
        Modifier::from_bits_truncate(9).bits(),
        (Modifier::I | Modifier::M | Modifier::S).bits(),
        Modifier::from_bits_truncate(0b1101).bits(),
    ];
    let answers = [
        Modifier::from_bits(7) == Some(Modifier::all()),
        Modifier::from_bits(8).is_none(),
        Modifier::from_bits(9).is_none(),
        Modifier::from_bits_retain(0b1111).is_all(),
        !Modifier::from_bits_retain(0b1000).is_empty(),
        Modifier::empty().is_empty(),
    ];
    assert!(rt;
        (kept == [Modifier::I.bits(), Modifier::all().bits(), 0b101]) & (answers == [true; 6])
    );
}

/// Of a quantified group of a class with a range: the spans of all but the characters. The values show in its text.
fn spans_of(pattern: &Pattern) -> Option<[Span; 5]> {
    let Term::Quantifier(quantifier) = only_term(&pattern.body)? else {
        return None;
    };
    let Term::CapturingGroup(group) = &quantifier.body else {
        return None;
    };
    let Term::CharacterClass(class) = only_term(&group.body)? else {
        return None;
    };
    let CharacterClassContents::CharacterClassRange(range) = class.body.get(0)? else {
        return None;
    };
    Some([
        pattern.span,
        quantifier.span,
        quantifier.body.span(),
        class.span,
        range.span,
    ])
}

const SPANS: [Span; 5] = [
    Span { start: 0, end: 17 },
    Span { start: 0, end: 17 },
    Span { start: 0, end: 11 },
    Span { start: 5, end: 10 },
    Span { start: 6, end: 9 },
];

/// Whether a pattern is shown so.
fn shows(alloc: Global, pattern: &Pattern, text: &str) -> Result<bool, AllocError> {
    Ok(format!(in alloc; "{pattern}")?.as_str() == text)
}

#[test]
fn a_clone_has_the_same_spans_and_values(rt: HostRuntime) -> Result<(), OutOfMemory> {
    let pattern = pattern_by_hand(rt.alloc())?;
    let copy = pattern.clone(rt.alloc())?;
    drop(pattern);
    let is_shown = shows(rt.alloc(), &copy, "(?<n>[a-c]){2,3}?")?;
    assert!(rt; is_shown & (spans_of(&copy) == Some(SPANS)));
    Ok(())
}

#[test]
fn content_leaves_out_spans_alone(rt: HostRuntime) -> Result<(), OutOfMemory> {
    let pattern = pattern_by_hand(rt.alloc())?;
    let mut copy = pattern.clone(rt.alloc())?;
    copy.span = Span::empty(9);
    copy.body.span = Span::empty(9);
    let is_equal = pattern.content_eq(&copy);
    let dot = Term::Dot(Dot { span: pattern.span });
    copy.body = disjunction_of(rt.alloc(), pattern.span, dot)?;
    let is_other = !pattern.body.content_eq(&copy.body);
    let is_shown = shows(rt.alloc(), &pattern, "(?<n>[a-c]){2,3}?")?;
    assert!(rt; is_equal & is_other & is_shown);
    Ok(())
}

#[test]
fn content_of_characters_has_their_kind(rt: HostRuntime) {
    let character = symbol(0, 97);
    let mut escaped = character;
    escaped.kind = CharacterKind::HexadecimalEscape;
    let same = character.content_eq(&symbol(5, 97))
        & Modifier::I.content_eq(&Modifier::from_bits_retain(0b1001));
    let other = character.content_eq(&symbol(0, 98))
        | character.content_eq(&escaped)
        | Modifier::I.content_eq(&Modifier::M);
    assert!(rt; same & !other);
}

#[test]
fn content_of_names(rt: HostRuntime) -> Result<(), OutOfMemory> {
    let name = Some(Text::from_str(rt.alloc(), "n")?);
    let mut other = Some(Text::from_str(rt.alloc(), "n")?);
    let same = name.content_eq(&other);
    other = Some(Text::from_str(rt.alloc(), "m")?);
    assert!(rt; same & !name.content_eq(&other) & !name.content_eq(&None));
    Ok(())
}

fn only_term(disjunction: &Disjunction) -> Option<&Term> {
    disjunction.body.get(0)?.body.get(0)
}

/// `(?<n>[a-c]){2,3}?`
fn pattern_by_hand(alloc: Global) -> Result<Pattern, OutOfMemory> {
    let range = CharacterClassRange {
        span: Span::new(6, 9),
        min: symbol(6, 97),
        max: symbol(8, 99),
    };
    let class = class_of(
        alloc,
        Span::new(5, 10),
        CharacterClassContents::CharacterClassRange(Box::new(alloc, range)?),
    )?;
    let group = CapturingGroup {
        span: Span::new(0, 11),
        name: Some(Text::from_str(alloc, "n")?),
        body: disjunction_of(
            alloc,
            class.span,
            Term::CharacterClass(Box::new(alloc, class)?),
        )?,
    };
    let quantifier = Quantifier {
        span: Span::new(0, 17),
        min: 2,
        max: Some(3),
        greedy: false,
        body: Term::CapturingGroup(Box::new(alloc, group)?),
    };
    let span = quantifier.span;
    Ok(Pattern {
        span,
        body: disjunction_of(alloc, span, Term::Quantifier(Box::new(alloc, quantifier)?))?,
    })
}

fn symbol(start: u32, value: u32) -> Character
    requires { start < 2 ^ 31 }
{
    Character {
        span: Span::sized(start, 1),
        kind: CharacterKind::Symbol,
        value,
    }
}

fn disjunction_of(alloc: Global, span: Span, term: Term) -> Result<Disjunction, OutOfMemory> {
    let mut terms = List::new(alloc);
    terms.push(term)?;
    let mut alternatives = List::new(alloc);
    alternatives.push(Alternative { span, body: terms })?;
    Ok(Disjunction {
        span,
        body: alternatives,
    })
}

fn class_of(
    alloc: Global,
    span: Span,
    contents: CharacterClassContents,
) -> Result<CharacterClass, OutOfMemory> {
    let mut body = List::new(alloc);
    body.push(contents)?;
    Ok(CharacterClass {
        span,
        negative: false,
        strings: false,
        kind: CharacterClassContentsKind::Union,
        body,
    })
}
