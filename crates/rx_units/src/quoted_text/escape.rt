ghost use Rattle.std.specs.Prelude.{◌≡◌};
ghost use Rattle.rx_units.specs.Quoted.Escapes.{is_line_feed, single_escape_value};
ghost use Rattle.rx_units.specs.Quoted.Found.{seen_escape};
ghost use Rattle.rx_units.specs.Quoted.Fronts.{escape_at, line_after};
ghost use Rattle.rx_units.specs.Digits.{front_is};
ghost use Rattle.rx_tables.specs.Characters.{is_decimal_digit};

use crate::quoted_text::Writing;
use crate::quoted_text::digits::{hex_escape, unicode_escape};
use crate::quoted_text::found::EscapeFound;
use crate::{CR, LF, is_line_terminator};

/// What stands after a backslash: an EscapeSequence or a LineContinuation of ECMA-262, 12.9.4, but for the digits that are no null.
#[tactic(auto, unfolding(crate::specs::Quoted::Fronts::escape_at))]
pub(crate) fn escape_at(chars: &[char]) -> EscapeFound
    ensures { seen_escape result ≡ escape_at chars.now }
{
    let [first, rest @ ..] = chars else {
        return EscapeFound::Unended;
    };
    let first = *first;
    if let Some(value) = single_escape_value(first) {
        return plain_escape(value, 2);
    }
    if first.is_ascii_digit() {
        return if first == '0' && !begins_with_digit(rest) {
            plain_escape(0, 2)
        } else {
            EscapeFound::Digit
        };
    }
    if first == 'x' {
        return hex_escape(rest);
    }
    if first == 'u' {
        return unicode_escape(rest);
    }
    if is_line_terminator(first) {
        return line_escape(first, rest);
    }
    plain_escape(first as u32, 2)
}

/// An escape that has no number.
fn plain_escape(value: u32, length: usize) -> EscapeFound
    ensures { result ≡ EscapeFound.Escaped value Writing.Plain length }
{
    EscapeFound::Escaped {
        value,
        writing: Writing::Plain,
        length,
    }
}

/// What a SingleEscapeCharacter stands for (ECMA-262, 12.9.4).
fn single_escape_value(c: char) -> Option<u32>
    ensures { result ≡ single_escape_value c }
{
    match c {
        '\'' | '"' | '\\' => Some(c as u32),
        'b' => Some(0x08),
        't' => Some(0x09),
        'n' => Some(0x0a),
        'v' => Some(0x0b),
        'f' => Some(0x0c),
        'r' => Some(0x0d),
        _ => None,
    }
}

/// Whether a DecimalDigit (ECMA-262, 12.9.3) stands next.
fn begins_with_digit(chars: &[char]) -> bool
    ensures { result ≡ front_is is_decimal_digit chars.now }
{
    match chars {
        [first, ..] => first.is_ascii_digit(),
        [] => false,
    }
}

pub(crate) fn begins_with_line_feed(chars: &[char]) -> bool
    ensures { result ≡ front_is is_line_feed chars.now }
{
    match chars {
        [first, ..] => *first == LF,
        [] => false,
    }
}

/// A LineContinuation (ECMA-262, 12.9.4), by the first character of its LineTerminatorSequence and those after it.
fn line_escape(first: char, rest: &[char]) -> EscapeFound
    ensures { seen_escape result ≡ line_after first rest.now }
{
    if first == CR && begins_with_line_feed(rest) {
        line_continuation(LF, 3)
    } else {
        line_continuation(first, 2)
    }
}

/// A LineContinuation (ECMA-262, 12.9.4) that gives its terminator.
// Why: docs/DECISIONS.md, 46.
fn line_continuation(terminator: char, length: usize) -> EscapeFound
    ensures { result ≡ EscapeFound.Escaped terminator Writing.LineContinuation length }
{
    EscapeFound::Escaped {
        value: terminator as u32,
        writing: Writing::LineContinuation,
        length,
    }
}
