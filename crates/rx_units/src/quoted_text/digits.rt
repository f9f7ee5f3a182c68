ghost use Rattle.std.specs.Prelude.{◌≡◌, [], ◌∷◌, ◌<◌, IfSome};
ghost use Rattle.rx_tables.specs.Characters.{hex_digit_value};
ghost use Rattle.rx_units.specs.Digits.{hex_number};
ghost use Rattle.rx_units.specs.Quoted.Found.{seen_escape};
ghost use Rattle.rx_units.specs.Quoted.Fronts.{braces_at, digits_at, four_at, front_digit, hex_at, unicode_after};

use crate::quoted_text::Writing;
use crate::quoted_text::found::EscapeFound;
use rx_tables::map_hex_digit;

/// What a HexDigit stands for (ECMA-262, 12.9.3).
#[tactic(auto, using(rx_tables::proofs::Digits::hex_digit_value_small))]
fn hex_digit(c: char) -> Option<u32>
    ensures value { result ≡ hex_digit_value c }
    ensures small { IfSome result (λ digit. digit < 16) }
{
    map_hex_digit(c as u32)
}

/// The number of the hexadecimal digit that stands next.
fn front_digit(chars: &[char]) -> Option<u32>
    ensures value { result ≡ front_digit chars.now }
    ensures small { IfSome result (λ digit. digit < 16) }
{
    match chars {
        [first, ..] => hex_digit(*first),
        [] => None,
    }
}

/// Two hexadecimal digits, after `x` (HexEscapeSequence of ECMA-262, 12.9.4).
pub(crate) fn hex_escape(chars: &[char]) -> EscapeFound
    ensures { seen_escape result ≡ hex_at chars.now }
{
    let [first, rest @ ..] = chars else {
        return EscapeFound::InvalidHex { length: 2 };
    };
    let Some(high) = hex_digit(*first) else {
        return EscapeFound::InvalidHex { length: 2 };
    };
    let Some(low) = front_digit(rest) else {
        return EscapeFound::InvalidHex { length: 3 };
    };
    EscapeFound::Escaped {
        value: 16 * high + low,
        writing: Writing::Hexadecimal,
        length: 4,
    }
}

/// Four hexadecimal digits, or some in braces, after `u` (UnicodeEscapeSequence of ECMA-262, 12.9.4).
pub(crate) fn unicode_escape(chars: &[char]) -> EscapeFound
    ensures { seen_escape result ≡ unicode_after (four_at chars.now) chars.now }
{
    match four_digits(chars) {
        Some(value) => EscapeFound::Escaped {
            value,
            writing: Writing::Unicode,
            length: 6,
        },
        None => braced_digits(chars),
    }
}

/// The number of four hexadecimal digits (Hex4Digits of ECMA-262, 12.9.4).
fn four_digits(chars: &[char]) -> Option<u32>
    ensures { result ≡ four_at chars.now }
{
    match chars {
        [a, b, c, d, ..] => number_of_four(*a, *b, *c, *d),
        _ => None,
    }
}

fn number_of_four(a: char, b: char, c: char, d: char) -> Option<u32>
    ensures { result ≡ hex_number (a ∷ b ∷ c ∷ d ∷ []) }
{
    let high = number_of_two(a, b)?;
    let low = number_of_two(c, d)?;
    Some(256 * high + low)
}

fn number_of_two(a: char, b: char) -> Option<u32>
    ensures value { result ≡ hex_number (a ∷ b ∷ []) }
    ensures small { IfSome result (λ number. number < 256) }
{
    let high = hex_digit(a)?;
    let low = hex_digit(b)?;
    Some(16 * high + low)
}

/// The digits of a UnicodeEscapeSequence in braces (ECMA-262, 12.9.4).
fn braced_digits(chars: &[char]) -> EscapeFound
    ensures { seen_escape result ≡ braces_at chars.now }
{
    match chars {
        [brace, digits @ ..] if *brace == '{' => digits_to_brace(digits),
        _ => EscapeFound::InvalidUnicode { length: 2 },
    }
}

/// The digits up to the closing brace (CodePoint of ECMA-262, 12.9.6).
fn digits_to_brace(chars: &[char]) -> EscapeFound
    ensures { seen_escape result ≡ digits_at 0 0 chars.now }
{
    let mut value = 0u32;
    for (count, c) in chars.iter().enumerate() {
        match hex_digit(*c) {
            Some(digit) => match value.checked_mul(16).and_then(|v| v.checked_add(digit)) {
                Some(next) => value = next,
                None => return EscapeFound::TooLarge { length: count + 3 },
            },
            None => {
                if *c == '}' && count > 0 && value <= 0x10FFFF {
                    return EscapeFound::Escaped {
                        value,
                        writing: Writing::Unicode,
                        length: count + 4,
                    };
                }
                return EscapeFound::InvalidUnicode { length: count + 3 };
            }
        }
    }
    EscapeFound::InvalidUnicode {
        length: chars.len() + 3,
    }
}
