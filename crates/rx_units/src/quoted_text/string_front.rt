ghost use Rattle.std.specs.Prelude.{◌≡◌, ◌<◌, true};
ghost use Rattle.rx_tables.specs.Characters.{is_octal_digit};
ghost use Rattle.rx_units.specs.Quoted.Elements.{written};
ghost use Rattle.rx_units.specs.Quoted.Found.{seen_escape, seen_front};
ghost use Rattle.rx_units.specs.Quoted.Fronts.{element, legacy_at, octal_at, string_escape, string_front};
ghost use Rattle.rx_units.specs.Digits.{octal};

use crate::quoted_text::Writing;
use crate::quoted_text::escape::escape_at;
use crate::quoted_text::found::{EscapeFound, Found};
use crate::string_literal_parser::LegacyKind;
use crate::{CR, LF};

/// What stands at a place of a string in these quotes (DoubleStringCharacter and SingleStringCharacter of ECMA-262, 12.9.4).
pub(crate) fn string_front(quote: char, chars: &[char]) -> Found
    ensures { seen_front result ≡ string_front quote chars.now }
{
    let [first, rest @ ..] = chars else {
        return Found::Nothing { length: 0 };
    };
    let first = *first;
    if first == quote {
        return Found::Closer;
    }
    if first == '\\' {
        return string_escape(escape_at(rest), rest);
    }
    if first == CR || first == LF {
        return Found::Nothing { length: 0 };
    }
    Found::element(first as u32, Writing::Plain, 1)
}

/// An escape (EscapeSequence or LineContinuation of ECMA-262, 12.9.4), by what stands after its backslash.
fn string_escape(escape: EscapeFound, chars: &[char]) -> Found
    ensures { seen_front result ≡ string_escape (seen_escape escape) chars.now }
{
    match escape {
        EscapeFound::Escaped {
            value,
            writing,
            length,
        } => Found::element(value, writing, length),
        EscapeFound::Digit => legacy_escape(chars),
        EscapeFound::TooLarge { length } => Found::TooLarge { length },
        EscapeFound::Unended
        | EscapeFound::InvalidHex { .. }
        | EscapeFound::InvalidUnicode { .. } => Found::Nothing { length: 0 },
    }
}

/// LegacyOctalEscapeSequence or NonOctalDecimalEscapeSequence of ECMA-262, 12.9.4.
fn legacy_escape(chars: &[char]) -> Found
    ensures { seen_front result ≡ legacy_at chars.now }
{
    let [first, rest @ ..] = chars else {
        return Found::Nothing { length: 0 };
    };
    if is_octal_digit(*first) {
        return octal_escape(*first, rest);
    }
    legacy_element(LegacyKind::NonOctalDecimal, *first as u32, 2)
}

/// LegacyOctalEscapeSequence of ECMA-262, 12.9.4, by its first digit and the characters after it.
fn octal_escape(first: char, rest: &[char]) -> Found
    requires { is_octal_digit first ≡ true }
    ensures { seen_front result ≡ octal_at first rest.now }
{
    let value = octal_digit_value(first);
    match rest {
        [second, third, ..] if first <= '3' && is_octal_digit(*second) && is_octal_digit(*third) =>
            {
                let value = 64 * value + 8 * octal_digit_value(*second) + octal_digit_value(*third);
                legacy_element(LegacyKind::Octal, value, 4)
            }
        [second, ..] if is_octal_digit(*second) => {
            legacy_element(LegacyKind::Octal, 8 * value + octal_digit_value(*second), 3)
        }
        _ => legacy_element(LegacyKind::Octal, value, 2),
    }
}

/// An element that strict mode code does not allow.
fn legacy_element(what: LegacyKind, value: u32, length: usize) -> Found
    ensures { seen_front result ≡ element (written value (Writing.Legacy what)) length }
{
    Found::element(value, Writing::Legacy(what), length)
}

fn is_octal_digit(c: char) -> bool
    ensures { result ≡ is_octal_digit c }
{
    matches!(c, '0'..='7')
}

/// The value of an octal digit.
fn octal_digit_value(digit: char) -> u32
    requires { is_octal_digit digit ≡ true }
    ensures value { result ≡ octal digit }
    ensures small { result < 8 }
{
    digit as u32 - '0' as u32
}
