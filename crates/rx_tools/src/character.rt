ghost use Rattle.std.specs.Prelude.{◌≡◌, ◌∷◌, [], ◌++◌, ◌<◌, ◌≤◌, ℕ, true, not, ◌&&◌};
ghost use Rattle.std.specs.Char.{IsScalar};
ghost use Rattle.std.specs.Str.{chars};
ghost use Rattle.rx_base.specs.Ascii as ascii;
ghost use Rattle.rx_base.specs.Characters.{is_surrogate as surrogate, is_within};
ghost use Rattle.rx_base.specs.Writing.{Written};
ghost use Rattle.rx_tables.specs.Characters.{hex_digit as hex};
ghost use Rattle.rx_model.specs.Spelling.CharacterText.{Place as Standing, is_reserved_in_class as reserved_in_class, is_escaped as escaped, goes_on as going, greatest_raw as greatest, control_letter as letter, hex as hexadecimal, two_digits, four_digits, in_braces_text, surrogate_text, character_text};
ghost use Rattle.rx_model.specs.declared.mode.Mode.{Mode};
ghost use Rattle.rx_tools.specs.Characters.{place_of, form_text, IsWritable};
ghost use Rattle.rx_tools.specs.Utf8.{utf8};

use crate::write::{write_ascii, write_char, write_chars, write_str};
use rx_base::{Failed, TextSink, is_surrogate};
use rx_model::Mode;
use rx_tables::{is_class_set_reserved_punctuator, is_syntax_character};

/// Where a character stands.
#[derive(Clone, Copy)]
pub enum Place {
    /// Outside classes, where the flag says whether an unquantified indexed reference stands right before it.
    Outside(bool),
    InClass,
}

/// How a character is spelled.
#[derive(Clone, Copy)]
enum CharacterForm {
    /// A backslash and a letter.
    Control,

    /// `\x` and two hexadecimal digits.
    TwoDigits,

    /// `\u` and four hexadecimal digits.
    FourDigits,

    /// `\u{`, hexadecimal digits and `}`.
    Braced,

    /// A backslash and the character.
    Escaped,

    /// `\x3` and the digit.
    Digit,

    /// The character itself.
    Raw,
}

fn is_reserved_in_class(mode: Mode, c: u32) -> bool
    ensures { result ≡ reserved_in_class mode c }
{
    match mode {
        Mode::Legacy => c == '-' as u32,
        Mode::Unicode => c == '-' as u32,
        Mode::Sets => is_class_set_reserved_punctuator(c),
    }
}

/// Whether a backslash stands before the character.
fn is_escaped(mode: Mode, place: Place, c: u32) -> bool
    ensures { result ≡ escaped mode (place_of place) c }
{
    match place {
        Place::Outside(_) => is_syntax_character(c) || c == '/' as u32,
        Place::InClass => {
            is_syntax_character(c) || c == '/' as u32 || is_reserved_in_class(mode, c)
        }
    }
}

/// Whether the character would go on with the digits of the reference right before it.
fn goes_on(place: Place, c: u32) -> bool
    ensures { result ≡ going (place_of place) c }
{
    match place {
        Place::Outside(after_reference) => after_reference && ('0' as u32 <= c && c <= '9' as u32),
        Place::InClass => false,
    }
}

/// The greatest value that is read in this mode without an escape.
fn greatest_raw(mode: Mode) -> u32
    ensures { result ≡ greatest mode }
{
    match mode {
        Mode::Legacy => 0xFFFF,
        Mode::Unicode => 0x10FFFF,
        Mode::Sets => 0x10FFFF,
    }
}

/// The form of a lone surrogate.
fn surrogate_form(mode: Mode) -> CharacterForm
    ensures text { (c : ℕ) → form_text result c ≡ surrogate_text mode c }
    ensures writable { (c : ℕ) → IsWritable result c }
{
    match mode {
        Mode::Legacy => CharacterForm::FourDigits,
        Mode::Unicode => CharacterForm::Braced,
        Mode::Sets => CharacterForm::Braced,
    }
}

/// The form of the first row that fits.
#[tactic(auto, unfolding(rx_model::specs::Spelling::CharacterText::character_text))]
fn form(mode: Mode, place: Place, c: u32) -> CharacterForm
    ensures text { form_text result c ≡ character_text mode (place_of place) c }
    ensures writable { IsWritable result c }
{
    if 9 <= c && c <= 13 {
        CharacterForm::Control
    } else if c < 32 || 127 <= c && c <= 159 {
        CharacterForm::TwoDigits
    } else if c == 0x2028 || c == 0x2029 {
        CharacterForm::FourDigits
    } else if is_surrogate(c) {
        surrogate_form(mode)
    } else if greatest_raw(mode) < c {
        CharacterForm::Braced
    } else if is_escaped(mode, place, c) {
        CharacterForm::Escaped
    } else if goes_on(place, c) {
        CharacterForm::Digit
    } else {
        CharacterForm::Raw
    }
}

/// The letter of a control escape.
fn control_letter(c: u32) -> char
    ensures { result ≡ letter c }
{
    match c {
        9 => 't',
        10 => 'n',
        11 => 'v',
        12 => 'f',
        _ => 'r',
    }
}

/// A hexadecimal digit in upper case.
#[inline(always)]
fn hex_digit(digit: u32) -> u8
    requires { digit < 16 }
    ensures text { result ≡ hex digit }
    ensures ascii { result < 128 }
{
    let digit = digit as u8;
    if digit < 10 {
        b'0' + digit
    } else {
        b'A' - 10 + digit
    }
}

/// Writes at most n hexadecimal digits, without leading zeros.
#[tactic(auto, using(crate::proofs::Hexadecimal::ascii_cons))]
fn write_hex<W: TextSink>(sink: &mut W, places: u32, n: u32) -> Result<(), Failed>
    ensures { Written W.taken W.fixed W.faults sink.old sink.new result (utf8 (hexadecimal places n)) }
{
    if places == 0 {
        return Ok(());
    }
    if 16 <= n {
        write_hex(sink, places - 1, n / 16)?;
    }
    write_ascii(sink, &[hex_digit(n % 16)])
}

/// Writes `\x` and two hexadecimal digits.
#[tactic(auto, using(crate::proofs::Hexadecimal::ascii_cons, crate::proofs::Pieces::in_pieces), unfolding(rx_model::specs::Spelling::CharacterText::two_digits))]
fn write_two_digits<W: TextSink>(sink: &mut W, c: u32) -> Result<(), Failed>
    ensures { Written W.taken W.fixed W.faults sink.old sink.new result (utf8 (two_digits c)) }
{
    write_ascii(
        sink,
        &[b'\\', b'x', hex_digit(c / 16 % 16), hex_digit(c % 16)],
    )
}

/// Writes `\u` and four hexadecimal digits.
#[tactic(auto, using(crate::proofs::Hexadecimal::ascii_cons, crate::proofs::Pieces::in_pieces), unfolding(rx_model::specs::Spelling::CharacterText::four_digits))]
fn write_four_digits<W: TextSink>(sink: &mut W, c: u32) -> Result<(), Failed>
    ensures { Written W.taken W.fixed W.faults sink.old sink.new result (utf8 (four_digits c)) }
{
    write_ascii(
        sink,
        &[
            b'\\',
            b'u',
            hex_digit(c / 4096 % 16),
            hex_digit(c / 256 % 16),
            hex_digit(c / 16 % 16),
            hex_digit(c % 16),
        ],
    )
}

/// Writes four hexadecimal digits in braces, as those of a surrogate.
#[tactic(auto, using(crate::proofs::Hexadecimal::ascii_cons))]
fn write_four_in_braces<W: TextSink>(sink: &mut W, c: u32) -> Result<(), Failed>
    requires low { 0x1000 ≤ c }
    requires high { c < 0x10000 }
    ensures { Written W.taken W.fixed W.faults sink.old sink.new result (utf8 (in_braces_text c)) }
{
    write_ascii(
        sink,
        &[
            b'\\',
            b'u',
            b'{',
            hex_digit(c / 4096 % 16),
            hex_digit(c / 256 % 16),
            hex_digit(c / 16 % 16),
            hex_digit(c % 16),
            b'}',
        ],
    )
}

/// Writes hexadecimal digits in braces.
fn write_braced<W: TextSink>(sink: &mut W, c: u32) -> Result<(), Failed>
    ensures { Written W.taken W.fixed W.faults sink.old sink.new result (utf8 (in_braces_text c)) }
{
    if 0x1000 <= c && c < 0x10000 {
        return write_four_in_braces(sink, c);
    }
    write_str(sink, "\\u{")?;
    write_hex(sink, 8, c)?;
    write_char(sink, '}')
}

/// The character of a value that is one.
pub fn character(c: u32) -> char
    requires { IsScalar c }
    ensures { result ≡ c }
{
    char::from_u32(c).unwrap()
}

/// Writes what an escape begins with, and the characters after it.
fn write_escape<W: TextSink>(sink: &mut W, opener: &str, characters: &[char]) -> Result<(), Failed>
    ensures { Written W.taken W.fixed W.faults sink.old sink.new result (utf8 (chars opener.now ++ characters.now)) }
{
    write_str(sink, opener)?;
    write_chars(sink, characters)
}

/// Writes a character as the first row that fits spells it.
#[tactic(auto, using(crate::proofs::Pieces::in_pieces))]
fn write_by_form<W: TextSink>(sink: &mut W, mode: Mode, place: Place, c: u32) -> Result<(), Failed>
    ensures { Written W.taken W.fixed W.faults sink.old sink.new result (utf8 (character_text mode (place_of place) c)) }
{
    match form(mode, place, c) {
        CharacterForm::Control => write_escape(sink, "\\", &[control_letter(c)]),
        CharacterForm::TwoDigits => write_two_digits(sink, c),
        CharacterForm::FourDigits => write_four_digits(sink, c),
        CharacterForm::Braced => write_braced(sink, c),
        CharacterForm::Escaped => write_escape(sink, "\\", &[character(c)]),
        CharacterForm::Digit => write_escape(sink, "\\x3", &[character(c)]),
        CharacterForm::Raw => write_char(sink, character(c)),
    }
}

/// Where each ASCII character has no backslash before it: `0` nowhere, `1` outside classes, `2` also in classes without the flag
/// `v`, `3` everywhere. Control characters have `0`.
static UNESCAPED: [u8; 128] = *b"\
    0000000000000000\
    0000000000000000\
    3232022300002100\
    3333333333222220\
    2333333333333333\
    3333333333300003\
    2333333333333333\
    3333333333300020";

/// Whether the character is printable ASCII, and no backslash stands before it.
#[inline(always)]
fn is_unescaped(mode: Mode, place: Place, c: u32) -> bool
    ensures { result ≡ (is_within 32 126 c && not (escaped mode (place_of place) c)) }
{
    if 128 <= c {
        return false;
    }
    let places = UNESCAPED[c as usize];
    match place {
        Place::Outside(_) => b'1' <= places,
        Place::InClass => match mode {
            Mode::Legacy => b'2' <= places,
            Mode::Unicode => b'2' <= places,
            Mode::Sets => b'3' <= places,
        },
    }
}

/// Whether the character is printable ASCII, and is spelled as itself.
#[inline(always)]
#[tactic(auto, using(crate::proofs::Plain::unescaped_text))]
pub fn is_plain(mode: Mode, place: Place, c: u32) -> bool
    ensures text { result ≡ true → character_text mode (place_of place) c ≡ c ∷ [] }
    ensures ascii { result ≡ true → c < 128 }
{
    is_unescaped(mode, place, c) && !goes_on(place, c)
}

/// Whether the character is past ASCII, and is spelled as itself.
#[tactic(auto, using(crate::proofs::Plain::far_text))]
fn is_far_plain(mode: Mode, c: u32) -> bool
    ensures text { result ≡ true → (place : Standing) → character_text mode place c ≡ c ∷ [] }
    ensures scalar { result ≡ true → IsScalar c }
{
    160 <= c && c <= greatest_raw(mode) && c != 0x2028 && c != 0x2029 && !is_surrogate(c)
}

/// Whether the character is printable ASCII, and is spelled after a backslash.
#[inline(always)]
#[tactic(auto, using(crate::proofs::Plain::escaped_text))]
fn is_escaped_sign(mode: Mode, place: Place, c: u32) -> bool
    ensures text { result ≡ true → character_text mode (place_of place) c ≡ ascii.backslash ∷ c ∷ [] }
    ensures ascii { result ≡ true → c < 128 }
{
    32 <= c && c < 127 && !is_unescaped(mode, place, c)
}

/// Writes a backslash and the character.
fn write_escaped<W: TextSink>(sink: &mut W, c: u32) -> Result<(), Failed>
    requires { c < 128 }
    ensures { Written W.taken W.fixed W.faults sink.old sink.new result (utf8 (ascii.backslash ∷ c ∷ [])) }
{
    write_char(sink, '\\')?;
    write_char(sink, character(c))
}

/// Writes a lone surrogate.
fn write_surrogate<W: TextSink>(sink: &mut W, mode: Mode, c: u32) -> Result<(), Failed>
    requires { surrogate c ≡ true }
    ensures { Written W.taken W.fixed W.faults sink.old sink.new result (utf8 (surrogate_text mode c)) }
{
    match mode {
        Mode::Legacy => write_four_digits(sink, c),
        Mode::Unicode | Mode::Sets => write_four_in_braces(sink, c),
    }
}

/// Writes a character as it is spelled canonically at its place.
#[inline(always)]
pub fn write_character<W: TextSink>(
    sink: &mut W,
    mode: Mode,
    place: Place,
    c: u32,
) -> Result<(), Failed>
    ensures { Written W.taken W.fixed W.faults sink.old sink.new result (utf8 (character_text mode (place_of place) c)) }
{
    if is_plain(mode, place, c) {
        write_char(sink, character(c))
    } else if is_escaped_sign(mode, place, c) {
        write_escaped(sink, c)
    } else if is_far_plain(mode, c) {
        write_char(sink, character(c))
    } else if is_surrogate(c) {
        write_surrogate(sink, mode, c)
    } else {
        write_by_form(sink, mode, place, c)
    }
}
