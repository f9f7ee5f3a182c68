ghost use Rattle.std.specs.Prelude.{◌≡◌, ◌+◌, ◌≤◌, ◌==◌, ◌∷◌, ◌&&◌, ◌||◌, true, not, IsTrue, ℕ, List, is_some, nat_le, codes, if◌then◌else◌};
ghost use Rattle.std.specs.List.{prefix_len};
ghost use Rattle.rx_base.specs.Ascii as ascii;
ghost use Rattle.rx_base.specs.Characters.{is_one_of};
ghost use Rattle.rx_base.specs.Rising.{Rises};
ghost use Rattle.rx_units.specs.Units.{values};
ghost use Rattle.rx_units.specs.Digits.{front_is, octal, is_hex_digit};
ghost use Rattle.rx_model.specs.Characters.EscapeFronts.{control_after, digit_at, legacy_at, octal_at};
ghost use Rattle.rx_model.specs.Characters.LegacyEscapes.{four_next, is_class_control, refers, run_number, two_next};
ghost use Rattle.rx_scan.specs.Environments.{seen_environment};
ghost use Rattle.rx_tables.specs.Characters.{is_decimal_digit, is_octal_digit};
ghost use Rattle.rx_class.specs.EscapeReading.Found.{seen_escape};

use crate::EscapeFound;
use crate::escapes::found::character;
use rx_ast::CharacterKind;
use rx_base::Counter;
use rx_scan::{Environment, four_hex_digits};
use rx_tables::{is_decimal_digit, is_octal_digit, map_c_ascii_letter, map_hex_digit};
use rx_units::{Ahead, Unit};

/// The escape that the units after a backslash begin with, of those that are one with neither `u` nor `v` alone (CharacterEscape and ClassEscape of
/// ECMA-262, B.1.2).
/// `inside` says that it stands in a class.
#[tactic(auto, unfolding(rx_model::specs::Characters::EscapeFronts::legacy_at))]
pub fn legacy_escape_at<U: Unit, C: Counter>(
    units: &Ahead<'_, U>,
    inside: bool,
    environment: Environment,
    steps: &mut C,
) -> EscapeFound
    ensures read { seen_escape result ≡ legacy_at inside (seen_environment environment) (values units.now) }
    ensures steps { Rises (C.count steps.old) (C.count steps.new) 0 (if inside then 0 else prefix_len (λ u. is_decimal_digit u.value) units.now + 1) }
{
    let Some((first, rest)) = units.split_first() else {
        return EscapeFound::Nothing;
    };
    let cp = first;
    if cp == 'c' as u32 {
        return control(&rest, inside);
    }
    if is_decimal_digit(cp) {
        return digit(units, inside, environment.groups, steps);
    }
    if begins_another(cp, inside, environment.is_named())
        || is_hexadecimal(cp, &rest)
        || is_unicode(cp, &rest)
    {
        return EscapeFound::Nothing;
    }
    character(CharacterKind::Identifier, cp, 1)
}

/// `c`, by the units after it: in a class a ClassControlLetter follows; else the backslash stands for itself.
// Why: docs/DECISIONS.md, 33.
fn control<U: Unit>(units: &Ahead<'_, U>, inside: bool) -> EscapeFound
    ensures { seen_escape result ≡ control_after inside (values units.now) }
{
    let Some(letter) = units.first() else {
        return character(CharacterKind::Symbol, '\\' as u32, 0);
    };
    if map_c_ascii_letter(letter).is_some() {
        return EscapeFound::Nothing;
    }
    if inside && is_class_control(letter) {
        return character(CharacterKind::ControlLetter, letter % 32, 2);
    }
    character(CharacterKind::Symbol, '\\' as u32, 0)
}

/// ClassControlLetter: a digit or `_`.
fn is_class_control(cp: u32) -> bool
    ensures { result ≡ is_class_control cp }
{
    is_decimal_digit(cp) || cp == '_' as u32
}

/// A digit, which the units begin with: an octal escape or the digit itself, where it begins no reference.
fn digit<U: Unit, C: Counter>(
    units: &Ahead<'_, U>,
    inside: bool,
    groups: u32,
    steps: &mut C,
) -> EscapeFound
    ensures read { (c : ℕ) (w : List ℕ) → values units.now ≡ c ∷ w → seen_escape result ≡ digit_at inside groups c w }
    ensures steps { Rises (C.count steps.old) (C.count steps.new) 0 (if inside then 0 else prefix_len (λ u. is_decimal_digit u.value) units.now + 1) }
{
    let Some((first, rest)) = units.split_first() else {
        return EscapeFound::Nothing;
    };
    if !inside && refers(units, groups, steps) {
        return EscapeFound::Nothing;
    }
    if first == '0' as u32 && !begins_with_digit(&rest) {
        return EscapeFound::Nothing;
    }
    if is_octal_digit(first) {
        return octal_escape(first, &rest);
    }
    character(CharacterKind::Identifier, first, 1)
}

fn begins_with_digit<U: Unit>(units: &Ahead<'_, U>) -> bool
    ensures { result ≡ front_is is_decimal_digit (values units.now) }
{
    matches!(units.first(), Some(digit) if is_decimal_digit(digit))
}

/// LegacyOctalEscapeSequence, by its first digit and the units after it.
fn octal_escape<U: Unit>(first: u32, rest: &Ahead<'_, U>) -> EscapeFound
    requires { is_octal_digit first ≡ true }
    ensures { seen_escape result ≡ octal_at first (values rest.now) }
{
    let value = octal(first);
    match rest.items() {
        [second, third, ..]
            if first <= '3' as u32
                && is_octal_digit(second.value())
                && is_octal_digit(third.value()) => {
            let value = 64 * value + 8 * octal(second.value()) + octal(third.value());
            character(CharacterKind::Octal3, value, 3)
        }
        [second, ..] if is_octal_digit(second.value()) => {
            character(CharacterKind::Octal2, 8 * value + octal(second.value()), 2)
        }
        _ => character(CharacterKind::Octal1, value, 1),
    }
}

/// The value of an octal digit.
fn octal(digit: u32) -> u32
    requires { is_octal_digit digit ≡ true }
    ensures { result ≡ octal digit }
{
    digit - '0' as u32
}

/// Whether the units begin with a decimal number that does not begin with 0 and is at most that of the groups (DecimalEscape of ECMA-262, 22.2.1).
fn refers<U: Unit, C: Counter>(units: &Ahead<'_, U>, groups: u32, steps: &mut C) -> bool
    ensures value { result ≡ refers groups (values units.now) }
    ensures steps { Rises (C.count steps.old) (C.count steps.new) 0 (prefix_len (λ u. is_decimal_digit u.value) units.now + 1) }
{
    let Some(first) = units.first() else {
        return false;
    };
    is_decimal_digit(first) && first != '0' as u32 && is_at_most(units, groups, steps)
}

/// Whether the number of the decimal digits that the units begin with is at most a limit.
#[tactic(auto, using(crate::proofs::EscapeReading::LegacyLooks::number_grows, crate::proofs::EscapeReading::LegacyLooks::digit_run))]
fn is_at_most<U: Unit, C: Counter>(units: &Ahead<'_, U>, limit: u32, steps: &mut C) -> bool
    ensures value { result ≡ nat_le (run_number 0 (values units.now)) limit }
    ensures steps { Rises (C.count steps.old) (C.count steps.new) 0 (prefix_len (λ u. is_decimal_digit u.value) units.now + 1) }
    ensures all { IsTrue result → C.count steps.old + prefix_len (λ u. is_decimal_digit u.value) units.now ≤ C.count steps.new }
{
    let mut number = 0u64;
    let items = units.items();
    for unit in items {
        steps.tick();
        let value = unit.value();
        if !is_decimal_digit(value) {
            return true;
        }
        number = 10 * number + (value - '0' as u32) as u64;
        if number > limit as u64 {
            return false;
        }
    }
    true
}

/// Whether what begins with this value is no escape of a character, or one in every mode: a ControlEscape, a class escape, a boundary, or a reference by name.
fn begins_another(cp: u32, inside: bool, named: bool) -> bool
    ensures { result ≡ (is_one_of (codes "dDsSwWfnrtvb") cp || ((named && cp == ascii.k) || (not inside && cp == ascii.B))) }
{
    is_lettered(cp) || named && cp == 'k' as u32 || !inside && cp == 'B' as u32
}

fn is_lettered(cp: u32) -> bool
    ensures { result ≡ is_one_of (codes "dDsSwWfnrtvb") cp }
{
    matches!(
        char::from_u32(cp),
        Some('d' | 'D' | 's' | 'S' | 'w' | 'W' | 'f' | 'n' | 'r' | 't' | 'v' | 'b')
    )
}

/// Whether this is the `x` of a HexEscapeSequence, by the units after it.
fn is_hexadecimal<U: Unit>(cp: u32, rest: &Ahead<'_, U>) -> bool
    ensures { result ≡ (cp == ascii.x && is_some (two_next (values rest.now))) }
{
    cp == 'x' as u32 && begin_with_two_hex_digits(rest)
}

fn begin_with_two_hex_digits<U: Unit>(units: &Ahead<'_, U>) -> bool
    ensures { result ≡ is_some (two_next (values units.now)) }
{
    match units.items() {
        [a, b, ..] => are_hex_digits(a.value(), b.value()),
        _ => false,
    }
}

/// Whether this is the `u` of a RegExpUnicodeEscapeSequence of four digits, by the units after it.
fn is_unicode<U: Unit>(cp: u32, rest: &Ahead<'_, U>) -> bool
    ensures { result ≡ (cp == ascii.u && is_some (four_next (values rest.now))) }
{
    cp == 'u' as u32 && four_hex_digits(rest).is_some()
}

fn are_hex_digits(a: u32, b: u32) -> bool
    ensures { result ≡ (is_hex_digit a && is_hex_digit b) }
{
    map_hex_digit(a).is_some() && map_hex_digit(b).is_some()
}
