ghost use Rattle.std.specs.Prelude.{◌<◌, ◌^◌, length};

use crate::quoted::units;
use rx_base::{List, Span, Text};
use rx_rows::{Call, agree};
use rx_units::{
    CR, EscapeKind, LF, LS, PS, Reader, handle_code_point, is_line_terminator,
    is_non_escape_character, is_single_escape_character, parse_regexp_literal,
};
use std::alloc::{AllocError, Global};
use std::test::Fail;

/// The units of a literal, after its offset.
fn literal(alloc: Global, text: &str, offset: u32, joined: bool) -> Option<String> {
    if text.len() > 1000 || offset > 1000 {
        return None;
    }
    let body = parse_regexp_literal(alloc, text, offset, joined).ok()?;
    units(alloc, Span::empty(offset), &body).ok()
}

#[test]
fn units_of_literals(rt: HostRuntime) -> Result<(), Fail> {
    for (text, offset, joined, wanted) in [
        ("", 0, true, "0..0:"),
        ("ab", 0, true, "0..0: 61@0..1 62@1..2"),
        ("é\u{1F600}", 5, true, "5..5: E9@5..7 1F600@7..11"),
        (
            "\u{FFFF}\u{1F600}",
            0,
            false,
            "0..0: FFFF@0..3 D83D@3..7 DE00@3..7",
        ),
    ] {
        let units = literal(rt.alloc(), text, offset, joined).ok_or(text)?;
        assert_eq!(rt; units.as_str(), wanted);
    }
    Ok(())
}

/// The units of a character past FFFF that stands at an offset, apart.
fn pair(alloc: Global) -> Option<String> {
    let mut body = List::new(alloc);
    handle_code_point(&mut body, ((0, 4), 0x1F600, EscapeKind::Unicode), 10, false).ok()?;
    units(alloc, Span::empty(10), &body).ok()
}

#[test]
fn a_pair_apart(rt: HostRuntime) -> Result<(), Fail> {
    let pair = pair(rt.alloc()).ok_or("no memory")?;
    assert_eq!(rt; pair.as_str(), "10..10: D83D@10..14u DE00@10..14u");
    Ok(())
}

/// Asked is a text. The answer has how many units a reader of it has; and at each place, and after the last unit, the checkpoint, the two units that stand
/// next, and how the first was escaped. Or it has why no reader is made.
#[derive(Clone, Copy)]
pub struct Walk {
    pub unicode_mode: bool,
    pub quoted: bool,
}

impl Call for Walk {
    fn answer(&self, alloc: Global, asked: &str) -> Result<String, Fail> {
        Ok(walk_over(alloc, *self, asked).ok_or(asked)?)
    }
}

fn walk_over(alloc: Global, how: Walk, text: &str) -> Option<String> {
    if text.len() > 1000 {
        return None;
    }
    match Reader::initialize(alloc, text, how.unicode_mode, how.quoted) {
        Ok(mut reader) => walked(alloc, &mut reader).ok(),
        Err(fault) => format!(in alloc; "{fault:?}").ok(),
    }
}

fn walked(alloc: Global, reader: &mut Reader<'_>) -> Result<String, AllocError> {
    let count = reader.remaining_code_points().len();
    let mut walked = format!(in alloc; "{count}")?;
    for _ in 0..=count {
        let place = place(alloc, reader)?;
        walked.push_str(&place)?;
        reader.advance();
    }
    Ok(walked)
}

fn place(alloc: Global, reader: &Reader<'_>) -> Result<String, AllocError> {
    let (checkpoint, next, second) = (reader.checkpoint(), reader.peek(), reader.peek2());
    let escape = reader.peek_escape_kind();
    format!(in alloc; "; {checkpoint:?} {next:?} {second:?} {escape:?}")
}

#[test]
fn readers_go_over_all_units(rt: HostRuntime) -> Result<(), Fail> {
    let mut walk = Walk {
        unicode_mode: true,
        quoted: false,
    };
    let joined =
        "é\u{20AC}\u{1F600} => 3; (0, 0) Some(233) Some(8364) None; (1, 2) Some(8364) Some(128512) None; (2, 5) Some(128512) None None; (3, 9) None None None";
    agree(rt.alloc(), &walk, joined)?;
    let parted =
        "é\u{20AC}\u{1F600} => 4; (0, 0) Some(233) Some(8364) None; (1, 2) Some(8364) Some(55357) None; (2, 5) Some(55357) Some(56832) None; (3, 9) Some(56832) None None; (4, 9) None None None
ab => 2; (0, 0) Some(97) Some(98) None; (1, 1) Some(98) None None; (2, 2) None None None";
    walk.unicode_mode = false;
    agree(rt.alloc(), &walk, parted)
}

/// Of a reader of `abcabcd`: how many units stand before the second place, and the offsets after three units and at the end; and what is eaten.
fn eaten(reader: &mut Reader<'_>) -> ([usize; 3], [bool; 6]) {
    let start = reader.checkpoint();
    reader.advance();
    let since = reader.code_points_since(start).len();
    reader.rewind(start);
    let two = [reader.eat2('a', 'a'), reader.eat2('a', 'b')];
    reader.rewind(start);
    let three = [reader.eat3('a', 'b', 'd'), reader.eat3('a', 'b', 'c')];
    let after_three = reader.offset() as usize;
    let four = [
        reader.eat4('a', 'b', 'c', 'e'),
        reader.eat4('a', 'b', 'c', 'd'),
    ];
    (
        [since, after_three, reader.offset() as usize],
        [two[0], two[1], three[0], three[1], four[0], four[1]],
    )
}

#[test]
fn units_are_eaten(rt: HostRuntime) -> Result<(), Fail> {
    let mut reader = Reader::initialize(rt.alloc(), "abcabcd", true, false)?;
    assert_eq!(rt;
        eaten(&mut reader),
        ([1, 3, 7], [false, true, false, true, false, true])
    );
    Ok(())
}

/// Of a reader of `ab`: the offset after the first unit, the place after the last and the place past the end; and what is eaten and contained.
fn eaten_one_by_one(reader: &mut Reader<'_>) -> ([(usize, u32); 2], [u32; 1], [bool; 5]) {
    let start = reader.checkpoint();
    let first = reader.eat('a');
    let after_first = reader.offset();
    let again = reader.eat('a');
    let second = reader.peek2().is_none() & reader.eat('b');
    reader.advance();
    let end = reader.checkpoint();
    reader.rewind(start);
    reader.skip(3);
    let past_the_end = reader.checkpoint();
    let nothing = reader.peek().is_none();
    let contained = reader.contains('a') & !reader.contains('c');
    (
        [end, past_the_end],
        [after_first],
        [first, again, second, nothing, contained],
    )
}

#[test]
fn one_by_one(rt: HostRuntime) -> Result<(), Fail> {
    let mut reader = Reader::initialize(rt.alloc(), "ab", false, false)?;
    assert_eq!(rt;
        eaten_one_by_one(&mut reader),
        ([(2, 2), (2, 2)], [1], [true, false, true, true, true])
    );
    Ok(())
}

/// Of a reader of the bytes of `a-` and U+007F: the unit at its beginning, what is eaten, and how many units stand ahead then, and which is the first; the
/// second place, and the offset of the end.
fn ascii(text: &str) -> Option<([u32; 3], [bool; 4], (usize, (usize, u32)))> {
    if text.len() > 1000 || !text.is_ascii() {
        return None;
    }
    let mut reader = Reader::of_ascii(text);
    let first = reader.peek()?;
    let eaten = [reader.eat('-'), reader.eat('a')];
    let ahead = reader.ahead();
    let (count, next) = (ahead.len(), ahead.first()?);
    let is_raw = ahead.escape_kind() == EscapeKind::None;
    let second = reader.checkpoint();
    reader.skip(7);
    let is_empty = reader.ahead().is_empty();
    Some((
        [first, next, reader.offset()],
        [eaten[0], eaten[1], is_raw, is_empty],
        (count, second),
    ))
}

#[test]
fn ascii_from_its_bytes(rt: HostRuntime) {
    let wanted = ([0x61, 0x2D, 3], [false, true, true, true], (2, (1, 1)));
    assert_eq!(rt; ascii("a-\u{7F}"), Some(wanted));
}

/// Of a reader before the second of three units, U+1F600: how many stand ahead, in the first of them and after both; where each ends, and the values of both;
/// and whether the third stands next.
fn ahead(reader: &Reader<'_>) -> Option<([usize; 3], [u32; 4], bool)> {
    let ahead = reader.ahead();
    if ahead.len() < 2 {
        return None;
    }
    let ends = [ahead.end_of(1), ahead.end_of(2)];
    let last = ahead.from(1).first()?;
    let is_next = ahead.after('b').is_some();
    let (value, following) = ahead.split_first()?;
    let left = following.after('b')?.len();
    Some((
        [ahead.items().len(), ahead.front(1).len(), left],
        [ends[0], ends[1], value, last],
        is_next,
    ))
}

#[test]
fn units_ahead(rt: HostRuntime) -> Result<(), Fail> {
    let mut reader = Reader::initialize(rt.alloc(), "é\u{1F600}b", true, false)?;
    reader.advance();
    assert_eq!(rt;
        ahead(&reader),
        Some(([2, 1, 0], [6, 7, 0x1F600, 0x62], false))
    );
    Ok(())
}

/// The source text before a place.
fn text_before(alloc: Global, text: &str, place: usize) -> Option<Text> {
    if text.len() > 1000 {
        return None;
    }
    let mut reader = Reader::initialize(alloc, text, false, false).ok()?;
    let start = reader.offset();
    reader.skip(place);
    reader.str(alloc, start, reader.offset()).ok()
}

#[test]
fn texts_between_offsets(rt: HostRuntime) -> Result<(), Fail> {
    for (place, text, wanted) in [
        (0, "ab", ""),
        (2, "ab", "ab"),
        (2, "é\u{20AC}\u{1F600}", "é\u{20AC}"),
        (4, "é\u{20AC}\u{1F600}", "é\u{20AC}\u{1F600}"),
    ] {
        let before = text_before(rt.alloc(), text, place).ok_or(text)?;
        assert_eq!(rt; before.as_str(), wanted);
    }
    Ok(())
}

/// The first character that is otherwise: whether it is a line terminator, a SingleEscapeCharacter and a NonEscapeCharacter.
fn other(characters: &str, wanted: [bool; 3]) -> Option<char> {
    for ch in characters.chars() {
        let kinds = [
            is_line_terminator(ch),
            is_single_escape_character(ch),
            is_non_escape_character(ch),
        ];
        if kinds != wanted {
            return Some(ch);
        }
    }
    None
}

#[test]
fn characters_of_string_literals(rt: HostRuntime) {
    for (characters, wanted) in [
        ("\n\r\u{2028}\u{2029}", [true, false, false]),
        ("\"'\\bfnrtv", [false, true, false]),
        ("0189ux", [false, false, false]),
        (
            "\0\t\u{B}\u{C}\u{E} !#&(/:[]acegmoqswyBFNRTUVX\u{85}\u{2027}\u{202A}\u{10FFFF}",
            [false, false, true],
        ),
    ] {
        assert_eq!(rt; other(characters, wanted), None);
    }
    assert_eq!(rt;
        [LF, CR, LS, PS],
        ['\u{A}', '\u{D}', '\u{2028}', '\u{2029}']
    );
    assert!(rt; EscapeKind::default() == EscapeKind::None);
}
