ghost use Rattle.std.specs.Prelude.{◌≡◌, ◌+◌, ◌≤◌, ◌||◌, All, IsTrue, length, if◌then◌else◌};
ghost use Rattle.std.specs.List.{prefix_len};
ghost use Rattle.rx_base.specs.Rising.{Rises};
ghost use Rattle.rx_units.specs.Units.{values};
ghost use Rattle.rx_units.specs.Digits.{front_is};
ghost use Rattle.rx_tables.specs.Characters.{is_decimal_digit};
ghost use Rattle.rx_model.specs.Characters.Decoding.{decoding_of};
ghost use Rattle.rx_model.specs.Characters.EscapeFronts.{any_escape_at};
ghost use Rattle.rx_model.specs.Characters.Escapes.{is_identity_escape};
ghost use Rattle.rx_model.specs.Inputs.Environment.{is_unicode};
ghost use Rattle.rx_model.specs.Reading.Fronts.{escape_at, escaped, escape_if, letter_at, nothing, two_at, unicode_read};
ghost use Rattle.rx_scan.specs.Environments.{seen_environment};
ghost use Rattle.rx_class.specs.EscapeReading.Steps.{few_looks, most_looks};
ghost use Rattle.rx_class.specs.EscapeReading.Found.{IsWithin, class_escape_front, seen_escape};

use crate::legacy_escape_at;
use rx_ast::{CharacterClassEscapeKind, CharacterKind};
use rx_base::Counter;
use rx_scan::{Environment, UnicodeEscape, decode_counted};
use rx_tables::{
    is_decimal_digit, is_syntax_character, map_c_ascii_letter, map_control_escape, map_hex_digit,
};
use rx_units::{Ahead, Unit};

/// What stands after a backslash, in units.
#[derive(Clone, Copy)]
pub enum EscapeFound {
    /// A character of a kind, and how many units spell it after the backslash.
    Character {
        kind: CharacterKind,
        value: u32,
        length: usize,
    },
    /// No character escape.
    Nothing,
    /// The digits after `u{` pass 32 bits, after n digits that do not.
    TooMany {
        digits: usize,
    },
    /// `u` begins no unicode escape.
    Invalid,
}

/// The character escape (CharacterEscape of ECMA-262, 22.2.1) that the units after a backslash begin with in a mode: with neither
/// `u` nor `v` those of B.1.2 are read too.
/// `inside` says that it stands in a class.
pub fn any_escape_at<U: Unit, C: Counter>(
    units: &Ahead<'_, U>,
    inside: bool,
    environment: Environment,
    steps: &mut C,
) -> EscapeFound
    ensures read { seen_escape result ≡ any_escape_at inside (seen_environment environment) (values units.now) }
    ensures within { All (λ unit. unit.value ≤ 0x10FFFF) units.now → IsWithin (length units.now) result }
    ensures steps { Rises (C.count steps.old) (C.count steps.new) 0 (most_looks (is_unicode environment.mode) (length units.now) result
        + (if is_unicode environment.mode || inside then 0 else prefix_len (λ u. is_decimal_digit u.value) units.now + 1)) }
    ensures few { IsTrue inside → Rises (C.count steps.old) (C.count steps.new) 0 (few_looks (length units.now) result) }
{
    let unicode_mode = environment.is_unicode();
    let found = character_escape_at(units, unicode_mode, steps);
    if unicode_mode {
        return found;
    }
    match found {
        EscapeFound::Character { .. } | EscapeFound::TooMany { .. } => found,
        EscapeFound::Nothing => legacy_escape_at(units, inside, environment, steps),
        EscapeFound::Invalid => character(CharacterKind::Identifier, 'u' as u32, 1),
    }
}

/// The character escape (CharacterEscape of ECMA-262, 22.2.1) that the units after a backslash begin with. It never fails: what is
/// no escape is an answer too.
// Why: docs/DECISIONS.md, 23.
#[tactic(auto, using(crate::proofs::EscapeReading::Bounds::read_within), unfolding(rx_model::specs::Reading::Fronts::escape_at))]
pub fn character_escape_at<U: Unit, C: Counter>(
    units: &Ahead<'_, U>,
    unicode_mode: bool,
    steps: &mut C,
) -> EscapeFound
    ensures read { seen_escape result ≡ escape_at unicode_mode (values units.now) }
    ensures within { IsWithin (length units.now) result }
    ensures steps { Rises (C.count steps.old) (C.count steps.new) 0 (most_looks unicode_mode (length units.now) result) }
    ensures few { Rises (C.count steps.old) (C.count steps.new) 0 (few_looks (length units.now) result) }
{
    let Some((first, rest)) = units.split_first() else {
        return EscapeFound::Nothing;
    };
    let cp = first;
    if let Some(value) = map_control_escape(cp) {
        return character(CharacterKind::SingleEscape, value, 1);
    }
    match char::from_u32(cp) {
        Some('c') => control_letter(&rest),
        Some('0') => null(&rest),
        Some('x') => hexadecimal(&rest),
        Some('u') => unicode(units, unicode_mode, steps),
        _ if unicode_mode && is_identity_escape(cp) => character(CharacterKind::Identifier, cp, 1),
        _ => EscapeFound::Nothing,
    }
}

/// A character of a kind, in n units after the backslash.
pub fn character(kind: CharacterKind, value: u32, length: usize) -> EscapeFound
    ensures { result ≡ EscapeFound.Character kind value length }
{
    EscapeFound::Character {
        kind,
        value,
        length,
    }
}

/// `c`, by the units after it.
fn control_letter<U: Unit>(units: &Ahead<'_, U>) -> EscapeFound
    ensures { seen_escape result ≡ escape_if CharacterKind.ControlLetter 2 (letter_at (values units.now)) }
{
    match units.first() {
        Some(letter) => match map_c_ascii_letter(letter) {
            Some(value) => character(CharacterKind::ControlLetter, value, 2),
            None => EscapeFound::Nothing,
        },
        None => EscapeFound::Nothing,
    }
}

/// `0`, by the units after it: a digit there would be of the same number.
fn null<U: Unit>(units: &Ahead<'_, U>) -> EscapeFound
    ensures { seen_escape result ≡ (if front_is is_decimal_digit (values units.now) then nothing else escaped CharacterKind.Null 0 1) }
{
    match units.first() {
        Some(digit) if is_decimal_digit(digit) => EscapeFound::Nothing,
        _ => character(CharacterKind::Null, 0, 1),
    }
}

/// `x`, by the units after it.
fn hexadecimal<U: Unit>(units: &Ahead<'_, U>) -> EscapeFound
    ensures { seen_escape result ≡ escape_if CharacterKind.HexadecimalEscape 3 (two_at (values units.now)) }
{
    match two_hex_digits(units) {
        Some(value) => character(CharacterKind::HexadecimalEscape, value, 3),
        None => EscapeFound::Nothing,
    }
}

fn two_hex_digits<U: Unit>(units: &Ahead<'_, U>) -> Option<u32>
    ensures { result ≡ two_at (values units.now) }
{
    match units.items() {
        [a, b, ..] => {
            let a = map_hex_digit(a.value())?;
            let b = map_hex_digit(b.value())?;
            Some(16 * a + b)
        }
        _ => None,
    }
}

/// `u`, which the units begin with.
fn unicode<U: Unit, C: Counter>(
    units: &Ahead<'_, U>,
    unicode_mode: bool,
    steps: &mut C,
) -> EscapeFound
    ensures read { seen_escape result ≡ unicode_read (decoding_of unicode_mode (values units.now)) }
    ensures steps { Rises (C.count steps.old) (C.count steps.new) 0 (most_looks unicode_mode (length units.now) result) }
    ensures few { Rises (C.count steps.old) (C.count steps.new) 0 (few_looks (length units.now) result) }
{
    match decode_counted(units, unicode_mode, steps) {
        UnicodeEscape::Value { code_point, length } => {
            character(CharacterKind::UnicodeEscape, code_point, length)
        }
        UnicodeEscape::Overflow { digits } => EscapeFound::TooMany { digits },
        UnicodeEscape::Invalid => EscapeFound::Invalid,
    }
}

fn is_identity_escape(cp: u32) -> bool
    ensures { result ≡ is_identity_escape cp }
{
    is_syntax_character(cp) || cp == '/' as u32
}

/// The class escape (CharacterClassEscape of ECMA-262, 22.2.1) that the unit after a backslash is, if it names no property.
pub fn class_escape_at<U: Unit>(units: &Ahead<'_, U>) -> Option<CharacterClassEscapeKind>
    ensures { result ≡ class_escape_front (values units.now) }
{
    match char::from_u32(units.first()?) {
        Some('d') => Some(CharacterClassEscapeKind::D),
        Some('D') => Some(CharacterClassEscapeKind::NegativeD),
        Some('s') => Some(CharacterClassEscapeKind::S),
        Some('S') => Some(CharacterClassEscapeKind::NegativeS),
        Some('w') => Some(CharacterClassEscapeKind::W),
        Some('W') => Some(CharacterClassEscapeKind::NegativeW),
        _ => None,
    }
}
