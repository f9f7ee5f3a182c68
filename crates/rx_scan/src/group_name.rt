ghost use Rattle.std.specs.Prelude.{◌≡◌, ◌∷◌, ◌==◌, ◌+◌, ◌*◌, ◌<◌, ◌≤◌, ℕ, false, true, drop, List, Some, None, IfOk, IfSome, length, if◌then◌else◌};
ghost use Rattle.rx_base.specs.Ascii as ascii;
ghost use Rattle.rx_base.specs.Rising.{Rises};
ghost use Rattle.rx_base.specs.SurrogatePair.{surrogate_pair};
ghost use Rattle.rx_units.specs.Units.{values};
ghost use Rattle.rx_model.specs.Characters.Decoding.{decoding_of};
ghost use Rattle.rx_model.specs.FirstPass.Marks.{starts};
ghost use Rattle.rx_model.specs.Groups.GroupNameReading.{escape_in_name, name_at, name_character_at, pair_at, raw_at, row};
ghost use Rattle.rx_model.specs.Groups.GroupNames.{IsNameRow, is_in_name, is_pair_in_name};
ghost use Rattle.rx_scan.specs.GroupNames.{IsNameOf, seen_character};

use crate::{UnicodeEscape, decode_counted};
use rx_base::{
    Counter, OutOfMemory, Steps, Text, combine_surrogate_pair, is_lead_surrogate,
    is_trail_surrogate,
};
use rx_tables::{
    is_identifier_part_char, is_identifier_start_char, is_unicode_id_continue, is_unicode_id_start,
};
use rx_units::{Ahead, CodePoint, Unit};
use std::alloc::Global;
use std::marker::Brand;
use std::sync::ledger::{Blank, Ledger};

/// The name that all units spell (RegExpIdentifierName of ECMA-262, 22.2.1), or none where they spell no name. Its escapes are read. The units are
/// code points in unicode mode, else UTF-16 code units.
pub fn capturing_group_name(
    alloc: Global,
    units: &[CodePoint],
    unicode_mode: bool,
) -> Result<Option<Text>, OutOfMemory>
    ensures { IfOk result (IsNameOf unicode_mode (values units.now)) }
{
    spelled_name(alloc, &Ahead::of(units), unicode_mode)
}

/// Reads a name as `capturing_group_name` does, however the units are stored.
pub(crate) fn spelled_name<U: Unit>(
    alloc: Global,
    units: &Ahead<'_, U>,
    unicode_mode: bool,
) -> Result<Option<Text>, OutOfMemory>
    ensures { IfOk result (IsNameOf unicode_mode (values units.now)) }
{
    name_alone::<U, Brand>(alloc, units, unicode_mode, Blank::new(1))
}

/// The same, with a counter of its own.
// Why: docs/DECISIONS.md, 98.
fn name_alone<U: Unit, L: Ledger>(
    alloc: Global,
    units: &Ahead<'_, U>,
    unicode_mode: bool,
    blank: Blank,
) -> Result<Option<Text>, OutOfMemory>
    requires name { blank.name ≡ L.name }
    requires parts { blank.parts ≡ L.parts }
    requires one { blank.parts ≡ 1 }
    ensures { IfOk result (IsNameOf unicode_mode (values units.now)) }
{
    capturing_group_name_counted(alloc, units, unicode_mode, &mut Steps::<L>::new(blank))
}

/// Reads a name as `capturing_group_name` does. Counts each of its characters, and the digits of an escape as `decode_counted` does.
pub fn capturing_group_name_counted<U: Unit, C: Counter>(
    alloc: Global,
    units: &Ahead<'_, U>,
    unicode_mode: bool,
    steps: &mut C,
) -> Result<Option<Text>, OutOfMemory>
    ensures read { IfOk result (IsNameOf unicode_mode (values units.now)) }
    ensures steps { Rises (C.count steps.old) (C.count steps.new) 0 (2 * length units.now + 4) }
    ensures least { IfOk result (λ found. IfSome found (λ _. length units.now + 2 * C.count steps.old ≤ 2 * C.count steps.new)) }
{
    let mut name = Text::from_str(alloc, "")?;
    let items = units.items();
    let mut place = 0;
    while place < items.len() {
        steps.tick();
        let unit = items[place].value();
        let following = units.from(place + 1);
        match name_character(unit, &following, unicode_mode, place == 0, steps) {
            Some((character, length)) => {
                name.push(character)?;
                place += length;
            }
            None => return Ok(None),
        }
    }
    if place == 0 {
        return Ok(None);
    }
    Ok(Some(name))
}

/// How many units the longest row of a name's characters (RegExpIdentifierName of ECMA-262, 22.2.1) takes at the front of the units: none where no
/// name stands there. The units are code points in unicode mode, else UTF-16 code units. Counts each character that is looked at, and the digits of
/// an escape as `decode_counted` does.
// Why: docs/DECISIONS.md, 27.
pub fn group_name_length_counted<U: Unit, C: Counter>(
    units: &Ahead<'_, U>,
    unicode_mode: bool,
    steps: &mut C,
) -> usize
    ensures within { result ≤ length units.now }
    ensures read { (name : List ℕ) × (name_at unicode_mode (values units.now) ≡ row name result) }
    ensures longest { IsNameRow unicode_mode (values units.now) result }
    ensures ends { starts ascii.backslash (drop result (values units.now)) ≡ false → C.count steps.new ≤ C.count steps.old + 2 * result + 1 }
    ensures most { C.count steps.new ≤ C.count steps.old + length units.now + result + 4 }
    ensures least { result + 2 * C.count steps.old ≤ 2 * C.count steps.new }
{
    let items = units.items();
    let mut length = 0;
    while length < items.len() {
        steps.tick();
        let unit = items[length].value();
        let following = units.from(length + 1);
        match name_character(unit, &following, unicode_mode, length == 0, steps) {
            Some((_, count)) => length += count,
            None => return length,
        }
    }
    length
}

/// The character of a name that begins with a unit (RegExpIdentifierStart and RegExpIdentifierPart, 22.2.1), and how many units spell it.
fn name_character<U: Unit, C: Counter>(
    unit: u32,
    following: &Ahead<'_, U>,
    unicode_mode: bool,
    first: bool,
    steps: &mut C,
) -> Option<(char, usize)>
    ensures read { seen_character result ≡ name_character_at unicode_mode first (unit ∷ values following.now) }

    // With the step of the turn in which it is read.
    ensures found { IfSome result (λ read. (read.1 + 2 * C.count steps.old ≤ 2 * (C.count steps.new + 1)) × (C.count steps.new + 1 ≤ C.count steps.old + 2 * read.1)) }
    ensures steps { Rises (C.count steps.old) (C.count steps.new) 0 (length following.now + 4) }
    ensures raw { (unit == ascii.backslash) ≡ false → C.count steps.new ≡ C.count steps.old }
{
    if unit == '\\' as u32 {
        escaped_character(following, first, steps)
    } else {
        raw_character(unit, following, unicode_mode, first)
    }
}

/// The character of a name that a unit is, by itself or with the next (RegExpIdentifierStart and RegExpIdentifierPart, 22.2.1).
fn raw_character<U: Unit>(
    unit: u32,
    following: &Ahead<'_, U>,
    unicode_mode: bool,
    first: bool,
) -> Option<(char, usize)>
    ensures read { seen_character result ≡ raw_at unicode_mode first unit (values following.now) }
    ensures count { IfSome result (λ read. (0 < read.1) × (read.1 ≤ 2)) }
{
    match in_name(unit, first) {
        Some(character) => Some((character, 1)),
        None if unicode_mode => None,
        None => raw_pair(unit, following, first),
    }
}

/// The character of a name that the units after a backslash spell (RegExpUnicodeEscapeSequence, 22.2.1), and how many units spell it with the backslash.
fn escaped_character<U: Unit, C: Counter>(
    units: &Ahead<'_, U>,
    first: bool,
    steps: &mut C,
) -> Option<(char, usize)>
    ensures read { seen_character result ≡ escape_in_name first (decoding_of true (values units.now)) }
    ensures found { IfSome result (λ read. (read.1 + 2 * C.count steps.old ≤ 2 * (C.count steps.new + 1)) × (C.count steps.new + 1 ≤ C.count steps.old + 2 * read.1)) }
    ensures steps { Rises (C.count steps.old) (C.count steps.new) 0 (length units.now + 4) }
{
    // Why: docs/DECISIONS.md, 131.
    let _ = units.len();
    match decode_counted(units, true, steps) {
        UnicodeEscape::Value { code_point, length } => {
            Some((in_name(code_point, first)?, length + 1))
        }
        UnicodeEscape::Invalid | UnicodeEscape::Overflow { .. } => None,
    }
}

/// The character of a name that a unit and the next are (UnicodeLeadSurrogate and UnicodeTrailSurrogate, 22.2.1).
fn raw_pair<U: Unit>(lead: u32, units: &Ahead<'_, U>, first: bool) -> Option<(char, usize)>
    ensures read { seen_character result ≡ pair_at first lead (values units.now) }
    ensures count { IfSome result (λ read. read.1 ≡ 2) }
{
    let trail = units.first()?;
    if !is_lead_surrogate(lead) || !is_trail_surrogate(trail) {
        return None;
    }
    Some((pair_in_name(combine_surrogate_pair(lead, trail), first)?, 2))
}

/// A code point as a character, where it can stand in a name (IdentifierStartChar and IdentifierPartChar, 12.7).
fn in_name(cp: u32, first: bool) -> Option<char>
    ensures { result ≡ if is_in_name first cp then Some cp else None }
{
    let passes = if first {
        is_identifier_start_char(cp)
    } else {
        is_identifier_part_char(cp)
    };
    if passes { char::from_u32(cp) } else { None }
}

/// The code point of a raw pair as a character, where it can stand in a name (UnicodeIDStart and UnicodeIDContinue, 12.7).
fn pair_in_name(cp: u32, first: bool) -> Option<char>
    ensures { result ≡ if is_pair_in_name first cp then Some cp else None }
{
    let passes = if first {
        is_unicode_id_start(cp)
    } else {
        is_unicode_id_continue(cp)
    };
    if passes { char::from_u32(cp) } else { None }
}
