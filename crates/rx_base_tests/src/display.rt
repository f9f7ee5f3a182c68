use rx_ast::{
    Alternative, Character, CharacterClass, CharacterClassContents, CharacterClassContentsKind,
    CharacterClassRange, CharacterKind, ClassString, ClassStringDisjunction, Quantifier, Term,
};
use rx_base::{List, OutOfMemory, Span};
use rx_rows::{Call, agree, text_of};
use std::alloc::{AllocError, Global};
use std::test::Fail;

fn kind_of(name: &str) -> Option<CharacterKind> {
    match name {
        "symbol" => Some(CharacterKind::Symbol),
        "unicode" => Some(CharacterKind::UnicodeEscape),
        "hex" => Some(CharacterKind::HexadecimalEscape),
        "identifier" => Some(CharacterKind::Identifier),
        "single" => Some(CharacterKind::SingleEscape),
        "control" => Some(CharacterKind::ControlLetter),
        "null" => Some(CharacterKind::Null),
        "octal1" => Some(CharacterKind::Octal1),
        "octal2" => Some(CharacterKind::Octal2),
        "octal3" => Some(CharacterKind::Octal3),
        _ => None,
    }
}

/// A character that is written by its kind and by its value in hexadecimal.
fn character_of(word: &str) -> Option<Character> {
    let (kind, value) = word.split_once(':')?;
    Some(Character {
        span: Span::empty(0),
        kind: kind_of(kind)?,
        value: u32::from_str_radix(value, 16).ok()?,
    })
}

/// Asked is a node by its name, and the characters in it. In an alternative a `*` after a character repeats it.
struct Shown;

impl Call for Shown {
    fn answer(&self, alloc: Global, asked: &str) -> Result<String, Fail> {
        Ok(text_shown(alloc, asked).ok_or(asked)?)
    }
}

fn text_shown(alloc: Global, asked: &str) -> Option<String> {
    let (node, written) = asked.split_once(' ')?;
    match node {
        "character" => character(alloc, character_of(written)?).ok(),
        "alternative" => alternative(alloc, written),
        "union" => class(alloc, CharacterClassContentsKind::Union, written),
        "intersection" => class(alloc, CharacterClassContentsKind::Intersection, written),
        "subtraction" => class(alloc, CharacterClassContentsKind::Subtraction, written),
        "range" => range(alloc, written),
        _ => strings(alloc, written),
    }
}

fn character(alloc: Global, character: Character) -> Result<String, AllocError> {
    format!(in alloc; "{character}")
}

fn alternative(alloc: Global, written: &str) -> Option<String> {
    let mut body = List::new(alloc);
    for word in written.split(' ') {
        body.push(term_of(alloc, word)?).ok()?;
    }
    let span = Span::empty(0);
    format!(in alloc; "{}", Alternative { span, body }).ok()
}

fn term_of(alloc: Global, word: &str) -> Option<Term> {
    let Some(repeated) = word.strip_suffix('*') else {
        return Some(Term::Character(character_of(word)?));
    };
    let quantifier = Quantifier {
        span: Span::empty(0),
        min: 0,
        max: None,
        greedy: true,
        body: Term::Character(character_of(repeated)?),
    };
    Some(Term::Quantifier(Box::new(alloc, quantifier).ok()?))
}

fn class(alloc: Global, kind: CharacterClassContentsKind, written: &str) -> Option<String> {
    let mut body = List::new(alloc);
    for word in written.split(' ') {
        let character = CharacterClassContents::Character(character_of(word)?);
        body.push(character).ok()?;
    }
    let class = CharacterClass {
        span: Span::empty(0),
        negative: false,
        strings: false,
        kind,
        body,
    };
    format!(in alloc; "{class}").ok()
}

/// Two characters.
fn pair(written: &str) -> Option<(Character, Character)> {
    let (first, last) = written.split_once(' ')?;
    Some((character_of(first)?, character_of(last)?))
}

/// A range between two characters.
fn range(alloc: Global, written: &str) -> Option<String> {
    let span = Span::empty(0);
    let (min, max) = pair(written)?;
    format!(in alloc; "{}", CharacterClassRange { span, min, max }).ok()
}

/// The string of two characters, twice.
fn strings(alloc: Global, written: &str) -> Option<String> {
    let span = Span::empty(0);
    let (first, last) = pair(written)?;
    let mut body = List::new(alloc);
    body.push(string(alloc, first, last).ok()?).ok()?;
    body.push(string(alloc, first, last).ok()?).ok()?;
    let strings = true;
    format!(in alloc;
        "{}",
        ClassStringDisjunction {
            span,
            strings,
            body
        }
    )
    .ok()
}

fn string(alloc: Global, first: Character, last: Character) -> Result<ClassString, OutOfMemory> {
    let mut body = List::new(alloc);
    body.push(first)?;
    body.push(last)?;
    Ok(ClassString {
        span: Span::empty(0),
        strings: true,
        body,
    })
}

/// In the rows `«9»` stands for the character U+0009, and so on.
fn agree_in_text(alloc: Global, rows: &str) -> Result<(), Fail> {
    let rows = text_of(alloc, rows)?.ok_or("no such character")?;
    agree(alloc, &Shown, &rows)
}

#[test]
fn nodes_are_shown(rt: HostRuntime) -> Result<(), Fail> {
    for rows in [RAW, HEXADECIMAL, LETTERS, OCTAL, ALTERNATIVES, CLASSES] {
        agree_in_text(rt.alloc(), rows)?;
    }
    Ok(())
}

/// Characters that stand for themselves.
const RAW: &str = r"character symbol:0 => «0»
character symbol:61 => a
character symbol:D7FF => «D7FF»
character symbol:D800 => \uD800
character symbol:DFFF => \uDFFF
character symbol:E000 => «E000»
character symbol:10FFFF => «10FFFF»
character symbol:110000 => \u{110000}
character identifier:2D => \-
character identifier:10FFFF => \«10FFFF»
character identifier:D800 => \uD800
character identifier:FFFFFFFF => \u{FFFFFFFF}
character null:0 => \0
character null:61 => \0
character null:D800 => \0
character null:110000 => \0";

/// Hexadecimal escapes.
const HEXADECIMAL: &str = r"character unicode:0 => \u0000
character unicode:2A => \u002A
character unicode:D800 => \uD800
character unicode:FFFF => \uFFFF
character unicode:10000 => \u{10000}
character unicode:10FFFF => \u{10FFFF}
character unicode:110000 => \u{110000}
character hex:0 => \x00
character hex:F => \x0F
character hex:10 => \x10
character hex:FF => \xFF
character hex:100 => \x100
character hex:10FFFF => \x10FFFF
character hex:DFFF => \uDFFF
character hex:110000 => \u{110000}";

/// Single escapes and control letters.
const LETTERS: &str = r"character single:7 => \«7»
character single:8 => \b
character single:9 => \t
character single:A => \n
character single:B => \v
character single:C => \f
character single:D => \r
character single:E => \«E»
character single:2D => \-
character single:DFFF => \uDFFF
character control:0 => \x00
character control:1 => \cA
character control:1A => \cZ
character control:1B => \x1B
character control:FF => \xFF
character control:100 => \u0100
character control:D7FF => \uD7FF
character control:D800 => \uD800
character control:FFFF => \uFFFF
character control:10000 => \u{10000}
character control:110000 => \u{110000}";

/// Octal escapes.
const OCTAL: &str = r"character octal1:0 => \0
character octal1:7 => \7
character octal1:8 => \10
character octal2:0 => \00
character octal2:7 => \07
character octal2:8 => \10
character octal2:3F => \77
character octal2:40 => \100
character octal3:0 => \000
character octal3:7 => \007
character octal3:8 => \010
character octal3:3F => \077
character octal3:40 => \100
character octal3:FF => \377
character octal3:200 => \1000
character octal1:D800 => \uD800
character octal2:DFFF => \uDFFF
character octal3:110000 => \u{110000}";

/// Surrogates are joined in alternatives.
const ALTERNATIVES: &str = r"alternative octal3:2 symbol:32 => \0022
alternative symbol:D83D symbol:DE00 => «1F600»
alternative symbol:D800 symbol:DC00 => «10000»
alternative symbol:DBFF symbol:DFFF => «10FFFF»
alternative unicode:D83D unicode:DE00 => «1F600»
alternative symbol:D83D hex:DE00 => «1F600»
alternative unicode:D83D null:DE00 => «1F600»
alternative hex:D83D symbol:DE00 => \uD83D\uDE00
alternative identifier:D83D symbol:DE00 => \uD83D\uDE00
alternative null:D83D symbol:DE00 => \0\uDE00
alternative symbol:D7FF symbol:DC00 => «D7FF»\uDC00
alternative symbol:DC00 symbol:DC00 => \uDC00\uDC00
alternative symbol:D800 symbol:DBFF => \uD800\uDBFF
alternative symbol:D800 symbol:E000 => \uD800«E000»
alternative symbol:DE00 symbol:D83D => \uDE00\uD83D
alternative symbol:D83D symbol:D83D symbol:DE00 symbol:DE00 => \uD83D«1F600»\uDE00
alternative symbol:D83D symbol:61 symbol:DE00 => \uD83Da\uDE00
alternative symbol:D83D* symbol:DE00 => \uD83D*\uDE00
alternative symbol:D83D symbol:DE00* => \uD83D\uDE00*";

/// Surrogates are joined in classes, and not in ranges and strings.
const CLASSES: &str = r"union symbol:D83D symbol:DE00 symbol:61 => [«1F600»a]
intersection symbol:61 => [a]
intersection symbol:61 symbol:62 hex:63 => [a&&b&&\x63]
intersection symbol:D83D unicode:DE00 => [«1F600»]
intersection symbol:D83D symbol:DE00 symbol:61 => [«1F600»&&a]
intersection symbol:61 unicode:D83D symbol:DE00 => [a&&«1F600»]
intersection hex:D83D symbol:DE00 => [\uD83D&&\uDE00]
subtraction symbol:D83D symbol:DE00 symbol:D83D symbol:DE00 => [«1F600»--«1F600»]
range symbol:61 unicode:63 => a-\u0063
range symbol:D83D symbol:DE00 => \uD83D-\uDE00
strings symbol:61 single:A => \q{a\n|a\n}
strings symbol:D83D symbol:DE00 => \q{\uD83D\uDE00|\uD83D\uDE00}";
