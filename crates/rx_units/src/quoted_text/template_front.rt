ghost use Rattle.std.specs.Prelude.{◌≡◌};
ghost use Rattle.rx_units.specs.Quoted.Elements.{is_open_brace};
ghost use Rattle.rx_units.specs.Quoted.Found.{seen_escape, seen_front};
ghost use Rattle.rx_units.specs.Quoted.Fronts.{digit_at, element, raw_line, template_escape, template_front};
ghost use Rattle.rx_units.specs.Digits.{front_is};

use crate::quoted_text::Writing;
use crate::quoted_text::escape::{begins_with_line_feed, escape_at};
use crate::quoted_text::found::{EscapeFound, Found};
use crate::{CR, LF, is_line_terminator};

/// What stands at a place of a template (TemplateCharacter of ECMA-262, 12.9.6).
pub(crate) fn template_front(chars: &[char]) -> Found
    ensures { seen_front result ≡ template_front chars.now }
{
    let [first, rest @ ..] = chars else {
        return Found::Nothing { length: 0 };
    };
    let first = *first;
    if first == '`' {
        return Found::Closer;
    }
    if first == '\\' {
        return template_escape(escape_at(rest), rest);
    }
    if first == '$' && begins_with_brace(rest) {
        return Found::Substitution;
    }
    if is_line_terminator(first) {
        return raw_line(first, rest);
    }
    Found::element(first as u32, Writing::Plain, 1)
}

fn begins_with_brace(chars: &[char]) -> bool
    ensures { result ≡ front_is is_open_brace chars.now }
{
    match chars {
        [first, ..] => *first == '{',
        [] => false,
    }
}

/// A LineTerminatorSequence (ECMA-262, 12.3), by its first character and those after it.
fn raw_line(first: char, rest: &[char]) -> Found
    ensures { seen_front result ≡ raw_line first rest.now }
{
    if first == CR && begins_with_line_feed(rest) {
        Found::element(LF as u32, Writing::LineTerminator, 2)
    } else {
        Found::element(first as u32, Writing::LineTerminator, 1)
    }
}

/// An escape (TemplateEscapeSequence, NotEscapeSequence or LineContinuation of ECMA-262, 12.9.6), by what stands after its backslash.
fn template_escape(escape: EscapeFound, chars: &[char]) -> Found
    ensures { seen_front result ≡ template_escape (seen_escape escape) chars.now }
{
    match escape {
        EscapeFound::Escaped {
            value,
            writing,
            length,
        } => Found::element(value, writing, length),
        EscapeFound::Digit => digit(chars),
        EscapeFound::Unended => Found::Nothing { length: 1 },
        EscapeFound::InvalidHex { length } => Found::InvalidHex { length },
        EscapeFound::InvalidUnicode { length } => Found::InvalidUnicode { length },
        EscapeFound::TooLarge { length } => Found::TooLarge { length },
    }
}

/// A NotEscapeSequence of digits (ECMA-262, 12.9.6), which gives its last digit where it is allowed.
// Why: docs/DECISIONS.md, 71.
fn digit(chars: &[char]) -> Found
    ensures { seen_front result ≡ digit_at chars.now }
{
    match chars {
        ['0', second, ..] => Found::element(*second as u32, Writing::NotEscape, 3),
        [first, ..] => Found::element(*first as u32, Writing::NotEscape, 2),
        [] => Found::Nothing { length: 0 },
    }
}
