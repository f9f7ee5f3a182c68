ghost use Rattle.std.specs.Prelude.{◌≡◌, Some};
ghost use Rattle.std.specs.Fmt.{WritesOnOk};
ghost use Rattle.std.specs.Str.{encode_utf8_all};
ghost use Rattle.rx_ast.specs.Kinds as kinds;
ghost use Rattle.rx_ast.specs.Shown.{control_shown, with_backslash, hexadecimal_shown, kind_shown, octal_shown, shown, shows_number as by_number, single_escape_shown, unicode_shown};

use crate::leaf::{Character, CharacterKind};
use std::fmt;

/// A character by itself, as it was escaped.
impl fmt::Display for Character {
    ghost output = { λ it. Some (encode_utf8_all (shown (kinds.character it))) };

    fn fmt<W: fmt::Write>(&self, f: &mut fmt::Formatter<W>) -> fmt::Result {
        match char::from_u32(self.value) {
            Some(character) => write_by_kind(f, self.kind, character),
            None if shows_number(self.kind) => write_unicode(f, self.value),
            None => f.write_str("\\0"),
        }
    }
}

/// Whether a value that is no character is written as a number.
fn shows_number(kind: CharacterKind) -> bool
    ensures { result ≡ by_number kind }
{
    !matches!(kind, CharacterKind::Null)
}

/// Writes a character as its kind spells it.
fn write_by_kind<W: fmt::Write>(
    f: &mut fmt::Formatter<W>,
    kind: CharacterKind,
    character: char,
) -> fmt::Result
    ensures { WritesOnOk W.write_str_gives f.old result (encode_utf8_all (kind_shown kind character)) f.new }
{
    let value = u32::from(character);
    match kind {
        CharacterKind::Symbol => f.write_char(character),
        CharacterKind::UnicodeEscape => write_unicode(f, value),
        CharacterKind::HexadecimalEscape => write_hexadecimal(f, value),
        CharacterKind::Identifier => write_escaped(f, character),
        CharacterKind::SingleEscape => write_escaped(f, single_escape_sign(character)),
        CharacterKind::ControlLetter => write_control(f, value),
        CharacterKind::Null => f.write_str("\\0"),
        CharacterKind::Octal1 => write_octal(f, 1, value),
        CharacterKind::Octal2 => write_octal(f, 2, value),
        CharacterKind::Octal3 => write_octal(f, 3, value),
    }
}

/// Writes `\u` and four digits up to FFFF, and past it `\u` and the digits in braces.
fn write_unicode<W: fmt::Write>(f: &mut fmt::Formatter<W>, value: u32) -> fmt::Result
    ensures { WritesOnOk W.write_str_gives f.old result (encode_utf8_all (unicode_shown value)) f.new }
{
    if value <= 0xFFFF {
        write!(f, "\\u{value:04X}")
    } else {
        write!(f, "\\u{{{value:X}}}")
    }
}

/// Writes `\x` and at least two digits.
fn write_hexadecimal<W: fmt::Write>(f: &mut fmt::Formatter<W>, value: u32) -> fmt::Result
    ensures { WritesOnOk W.write_str_gives f.old result (encode_utf8_all (hexadecimal_shown value)) f.new }
{
    write!(f, "\\x{value:02X}")
}

/// Writes a backslash and the octal digits, at least as many as asked for.
fn write_octal<W: fmt::Write>(f: &mut fmt::Formatter<W>, least: usize, value: u32) -> fmt::Result
    ensures { WritesOnOk W.write_str_gives f.old result (encode_utf8_all (octal_shown least value)) f.new }
{
    write!(f, "\\{value:0least$o}")
}

/// Writes a backslash and the character.
fn write_escaped<W: fmt::Write>(f: &mut fmt::Formatter<W>, character: char) -> fmt::Result
    ensures { WritesOnOk W.write_str_gives f.old result (encode_utf8_all (with_backslash character)) f.new }
{
    write!(f, "\\{character}")
}

/// What stands after the backslash of a single escape: the letter of a control character, or the character.
#[tactic(auto, unfolding(crate::specs::Shown::single_escape_shown))]
fn single_escape_sign(character: char) -> char
    ensures { with_backslash result ≡ single_escape_shown character }
{
    match character {
        '\n' => 'n',
        '\r' => 'r',
        '\t' => 't',
        '\u{b}' => 'v',
        '\u{c}' => 'f',
        '\u{8}' => 'b',
        _ => character,
    }
}

/// Writes `\c` and a letter for a number from 1 to 26, and any other as a number.
fn write_control<W: fmt::Write>(f: &mut fmt::Formatter<W>, value: u32) -> fmt::Result
    ensures { WritesOnOk W.write_str_gives f.old result (encode_utf8_all (control_shown value)) f.new }
{
    if 1 <= value && value <= 26 {
        write!(f, "\\c{}", char::from(b'@' + value as u8))
    } else if value <= 0xFF {
        write_hexadecimal(f, value)
    } else {
        write_unicode(f, value)
    }
}
