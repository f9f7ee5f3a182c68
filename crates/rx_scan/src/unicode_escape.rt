ghost use Rattle.std.specs.Prelude.{◌≡◌, [], ◌∷◌, ◌+◌, ◌*◌, ◌^◌, ◌<◌, ◌≤◌, ◌==◌, ◌&&◌, true, is_some, length, option_map, None, Some, IfSome, MatchOption, nat_le, nat_lt, if◌then◌else◌};
ghost use Rattle.rx_base.specs.Ascii as ascii;
ghost use Rattle.rx_base.specs.Rising.{Rises};
ghost use Rattle.rx_base.specs.SurrogatePair.{IsLeadSurrogate, IsTrailSurrogate};
ghost use Rattle.rx_tables.specs.Characters.{hex_digit_value};
ghost use Rattle.rx_units.specs.Digits.{hex_number};
ghost use Rattle.rx_units.specs.Units.{values};
ghost use Rattle.rx_model.specs.Characters.Decoding.{after_u, braces_at, decoding_of, four_at, invalid, pair_or_unit, run_at, trail_at, value};
ghost use Rattle.rx_model.specs.Characters.LegacyEscapes.{four_next};
ghost use Rattle.rx_scan.specs.DecodingSteps.{digits_after_u, digits_in_braces, digits_looked_at, digits_of_four, digits_of_run, digits_of_trail, escape_length, hex_run, least_digits, most_digits};
ghost use Rattle.rx_scan.specs.EscapeDecoding.{IsDecoded, seen_escape};

use rx_base::{Counter, Steps, combine_surrogate_pair, is_lead_surrogate, is_trail_surrogate};
use rx_tables::map_hex_digit;
use rx_units::{Ahead, CodePoint, Unit};
use std::marker::Brand;
use std::sync::ledger::{Blank, Ledger};

/// What a unicode escape stands for (RegExpUnicodeEscapeSequence of ECMA-262, 22.2.1).
#[derive(Clone, Copy, Debug)]
pub enum UnicodeEscape {
    /// A code point, and how many units spell it, the `u` among them.
    Value { code_point: u32, length: usize },
    /// No escape stands there, or one past the last code point.
    Invalid,
    /// The digits in braces pass 32 bits, after n digits that do not.
    Overflow { digits: usize },
}

/// Decodes the unicode escape with whose `u` the units begin (RegExpUnicodeEscapeSequence of ECMA-262, 22.2.1). In
/// unicode mode digits may stand in braces, and two escapes that are a surrogate pair are one code point.
pub fn decode(units: &[CodePoint], unicode_mode: bool) -> UnicodeEscape
    ensures { IsDecoded unicode_mode units.now result }
{
    decode_alone::<CodePoint, Brand>(&Ahead::of(units), unicode_mode, Blank::new(1))
}

/// The same, with a counter of its own.
// Why: docs/DECISIONS.md, 98.
fn decode_alone<U: Unit, L: Ledger>(
    units: &Ahead<'_, U>,
    unicode_mode: bool,
    blank: Blank,
) -> UnicodeEscape
    requires name { blank.name ≡ L.name }
    requires parts { blank.parts ≡ L.parts }
    requires one { blank.parts ≡ 1 }
    ensures { IsDecoded unicode_mode units.now result }
{
    decode_counted(units, unicode_mode, &mut Steps::<L>::new(blank))
}

/// Decodes as `decode` does. Counts each hexadecimal digit that is found where four are looked for, and each unit that is looked at after an
/// opening brace.
#[tactic(auto, using(crate::proofs::EscapeAnswers::is_decoded))]
pub fn decode_counted<U: Unit, C: Counter>(
    units: &Ahead<'_, U>,
    unicode_mode: bool,
    steps: &mut C,
) -> UnicodeEscape
    ensures decoded { IsDecoded unicode_mode units.now result }
    ensures steps { Rises (C.count steps.old) (C.count steps.new) (least_digits result) (most_digits unicode_mode (length units.now) result) }

    // At least half a step for each unit of an escape.
    ensures half { escape_length result + 2 * C.count steps.old ≤ 2 * C.count steps.new }

    // A step for each hexadecimal digit that is looked at, whatever the answer, and at most one besides: for a unit after a brace that is no digit.
    ensures looked { Rises (C.count steps.old) (C.count steps.new) (digits_looked_at unicode_mode (values units.now)) (digits_looked_at unicode_mode (values units.now) + 1) }
{
    match units.after('u') {
        Some(digits) => after_u(&digits, unicode_mode, steps),
        None => UnicodeEscape::Invalid,
    }
}

/// What stands after the `u`: four digits, or in unicode mode digits in braces (RegExpUnicodeEscapeSequence, 22.2.1).
fn after_u<U: Unit, C: Counter>(
    units: &Ahead<'_, U>,
    unicode_mode: bool,
    steps: &mut C,
) -> UnicodeEscape
    ensures read { seen_escape result ≡ after_u unicode_mode (four_at (values units.now)) (values units.now) }
    ensures steps { Rises (C.count steps.old) (C.count steps.new) (least_digits result) (most_digits unicode_mode (length units.now) result) }
    ensures half { escape_length result + 2 * C.count steps.old ≤ 2 * C.count steps.new }
    ensures looked { Rises (C.count steps.old) (C.count steps.new) (digits_after_u unicode_mode (values units.now)) (digits_after_u unicode_mode (values units.now) + 1) }
{
    match four_digits(units, steps) {
        Some((value, rest)) => {
            if unicode_mode && is_lead_surrogate(value) {
                return lead_or_pair(value, &rest, steps);
            }
            UnicodeEscape::Value {
                code_point: value,
                length: 5,
            }
        }
        None => {
            if unicode_mode {
                braced_digits(units, steps)
            } else {
                UnicodeEscape::Invalid
            }
        }
    }
}

/// The number of four hexadecimal digits (Hex4Digits, 12.9.4), and the units after them.
fn four_digits<'a, U: Unit, C: Counter>(
    units: &Ahead<'a, U>,
    steps: &mut C,
) -> Option<(u32, Ahead<'a, U>)>
    ensures value { option_map (λ r. (r.0, values r.1)) result ≡ four_at (values units.now) }
    ensures steps { MatchOption result (Rises (C.count steps.old) (C.count steps.new) 0 3 × (C.count steps.new ≤ C.count steps.old + length units.now))
        (λ _. C.count steps.new ≡ C.count steps.old + 4) }
    ensures looked { C.count steps.new ≡ digits_of_four (values units.now) + C.count steps.old }
{
    match units.items() {
        [a, b, c, d, ..] => {
            let number = number_of_four(a.value(), b.value(), c.value(), d.value(), steps)?;
            Some((number, units.from(4)))
        }
        _ => None,
    }
}

/// The number that four units spell as hexadecimal digits (Hex4Digits, 12.9.4).
fn number_of_four<C: Counter>(a: u32, b: u32, c: u32, d: u32, steps: &mut C) -> Option<u32>
    ensures value { result ≡ hex_number (a ∷ b ∷ c ∷ d ∷ []) }
    ensures looked { C.count steps.new ≡ hex_run (a ∷ b ∷ c ∷ d ∷ []) + C.count steps.old }
{
    let high = number_of_two(a, b, steps)?;
    let low = number_of_two(c, d, steps)?;
    Some(256 * high + low)
}

/// The number that two units spell as hexadecimal digits.
fn number_of_two<C: Counter>(a: u32, b: u32, steps: &mut C) -> Option<u32>
    ensures value { result ≡ hex_number (a ∷ b ∷ []) }
    ensures small { IfSome result (λ number. number < 256) }
    ensures looked { C.count steps.new ≡ hex_run (a ∷ b ∷ []) + C.count steps.old }
{
    let high = hex_digit(a, steps)?;
    let low = hex_digit(b, steps)?;
    Some(16 * high + low)
}

/// The number of the four hexadecimal digits (Hex4Digits, 12.9.4) that stand next. It counts no steps.
#[inline(always)]
pub fn four_hex_digits<U: Unit>(units: &Ahead<'_, U>) -> Option<u32>
    ensures { result ≡ four_next (values units.now) }
{
    match units.items() {
        [a, b, c, d, ..] => {
            let high = two_digit_value(a.value(), b.value())?;
            let low = two_digit_value(c.value(), d.value())?;
            Some(256 * high + low)
        }
        _ => None,
    }
}

/// The number that two units spell as hexadecimal digits, counting no step.
#[inline(always)]
fn two_digit_value(a: u32, b: u32) -> Option<u32>
    ensures value { result ≡ hex_number (a ∷ b ∷ []) }
    ensures small { IfSome result (λ number. number < 256) }
{
    let high = digit_value(a)?;
    let low = digit_value(b)?;
    Some(16 * high + low)
}

/// What a hexadecimal digit stands for (HexDigit, 12.9.3), and a step where the unit is one.
fn hex_digit<C: Counter>(unit: u32, steps: &mut C) -> Option<u32>
    ensures value { result ≡ hex_digit_value unit }
    ensures small { IfSome result (λ digit. digit < 16) }
    ensures steps { MatchOption result (C.count steps.new ≡ C.count steps.old) (λ _. C.count steps.new ≡ C.count steps.old + 1) }
{
    let digit = digit_value(unit)?;
    steps.tick();
    Some(digit)
}

/// The same, counting no step.
#[inline(always)]
#[tactic(auto, using(rx_tables::proofs::Digits::hex_digit_value_small))]
fn digit_value(unit: u32) -> Option<u32>
    ensures value { result ≡ hex_digit_value unit }
    ensures small { IfSome result (λ digit. digit < 16) }
{
    map_hex_digit(unit)
}

/// A lead surrogate by itself, or the code point of it and the trail surrogate that is escaped next (HexLeadSurrogate and HexTrailSurrogate,
/// 22.2.1). The four digits of the lead are counted before.
fn lead_or_pair<U: Unit, C: Counter>(
    lead: u32,
    units: &Ahead<'_, U>,
    steps: &mut C,
) -> UnicodeEscape
    requires { IsLeadSurrogate lead }
    ensures read { seen_escape result ≡ pair_or_unit lead (trail_at (values units.now)) }
    ensures steps { Rises (C.count steps.old) (C.count steps.new + 4) (least_digits result) (most_digits true 0 result) }
    ensures half { escape_length result + 2 * C.count steps.old ≤ 2 * (C.count steps.new + 4) }
    ensures looked { C.count steps.new ≡ digits_of_trail (values units.now) + C.count steps.old }
{
    match trail_escape(units, steps) {
        Some(trail) => UnicodeEscape::Value {
            code_point: combine_surrogate_pair(lead, trail),
            length: 11,
        },
        None => UnicodeEscape::Value {
            code_point: lead,
            length: 5,
        },
    }
}

/// The trail surrogate that is escaped next, in four digits (HexTrailSurrogate, 22.2.1).
fn trail_escape<U: Unit, C: Counter>(units: &Ahead<'_, U>, steps: &mut C) -> Option<u32>
    ensures value { result ≡ trail_at (values units.now) }
    ensures trail { IfSome result (λ trail. IsTrailSurrogate trail) }
    ensures steps { Rises (C.count steps.old) (C.count steps.new) (if is_some result then 4 else 0) 4 }
    ensures looked { C.count steps.new ≡ digits_of_trail (values units.now) + C.count steps.old }
{
    let digits = units.after('\\')?.after('u')?;
    let (trail, _) = four_digits(&digits, steps)?;
    is_trail_surrogate(trail).then_some(trail)
}

/// The digits in braces that stand next (RegExpUnicodeEscapeSequence, 22.2.1).
fn braced_digits<U: Unit, C: Counter>(units: &Ahead<'_, U>, steps: &mut C) -> UnicodeEscape
    ensures read { seen_escape result ≡ braces_at (values units.now) }
    ensures steps { Rises (C.count steps.old) (C.count steps.new) (least_digits result) (most_digits true (length units.now) result) }
    ensures half { escape_length result + 2 * C.count steps.old ≤ 2 * C.count steps.new }
    ensures looked { Rises (C.count steps.old) (C.count steps.new) (digits_in_braces (values units.now)) (digits_in_braces (values units.now) + 1) }
{
    match units.after('{') {
        Some(digits) => digits_to_brace(&digits, steps),
        None => UnicodeEscape::Invalid,
    }
}

/// The number of the digits up to the closing brace (CodePoint, 12.9.6).
fn digits_to_brace<U: Unit, C: Counter>(units: &Ahead<'_, U>, steps: &mut C) -> UnicodeEscape
    ensures read { seen_escape result ≡ run_at 0 0 (values units.now) }
    ensures steps { Rises (C.count steps.old) (C.count steps.new) (least_digits result) (most_digits true (length units.now) result) }
    ensures half { escape_length result + 2 * C.count steps.old ≤ 2 * C.count steps.new }
    ensures looked { Rises (C.count steps.old) (C.count steps.new) (digits_of_run (values units.now)) (digits_of_run (values units.now) + 1) }
{
    let mut number = 0u32;
    let items = units.items();
    for (count, item) in items.iter().enumerate() {
        steps.tick();
        let unit = item.value();
        match map_hex_digit(unit) {
            Some(digit) => match with_digit(number, digit) {
                Some(next) => number = next,
                None => return UnicodeEscape::Overflow { digits: count },
            },
            None => return after_digits(number, count, unit),
        }
    }
    UnicodeEscape::Invalid
}

/// A number with one hexadecimal digit more, where it fits 32 bits.
#[inline(always)]
fn with_digit(number: u32, digit: u32) -> Option<u32>
    ensures { result ≡ if nat_lt (16 * number + digit) (2 ^ 32) then Some (16 * number + digit) else None }
{
    number
        .checked_mul(16)
        .and_then(|shifted| shifted.checked_add(digit))
}

/// What this many digits after an opening brace are, whose number this is, before a unit that is no digit.
#[inline(always)]
fn after_digits(number: u32, count: usize, unit: u32) -> UnicodeEscape
    requires { count + 3 < 2 ^ 64 }
    ensures { seen_escape result ≡ if (unit == ascii.right_brace) && (nat_lt 0 count && nat_le number 0x10FFFF) then value number (count + 3) else invalid }
{
    if unit == '}' as u32 && count > 0 && number <= 0x10FFFF {
        return UnicodeEscape::Value {
            code_point: number,
            length: count + 3,
        };
    }
    UnicodeEscape::Invalid
}
