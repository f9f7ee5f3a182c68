ghost use Rattle.std.specs.Prelude.{◌≡◌, ◌≤◌, All, true, length};
ghost use Rattle.rx_base.specs.Rising.{Rises};
ghost use Rattle.rx_units.specs.Cursor.{rest};
ghost use Rattle.rx_units.specs.Units.{values};
ghost use Rattle.rx_model.specs.declared.mode.Mode.TheVariants.{Sets};
ghost use Rattle.rx_model.specs.Classes.ClassRows.{stands_raw_in_class};
ghost use Rattle.rx_model.specs.Inputs.Environment.{Environment, is_sets};
ghost use Rattle.rx_class.specs.EscapeReading.Steps.{most_looks};
ghost use Rattle.rx_class.specs.EscapeReading.Found.{IsWithin, seen_escape};
ghost use Rattle.rx_class.specs.SetReading.FrontSeen.{seen_if_some, seen_character};
ghost use Rattle.rx_class.specs.SetReading.Answers.{GivesSetCharacter};
ghost use Rattle.rx_class.specs.SetReading.Fronts.{after_backslash, range_end_at, set_character_at, set_escape_at};
ghost use Rattle.rx_class.specs.SetReading.Steps.{TakesStepsAfter, most_after_backslash, most_end_looks, most_set_looks};

use crate::classes::atom::unit_kind;
use crate::escapes::found::character;
use crate::reading::Reading;
use crate::sets::front::begins_with;
use crate::{EscapeFound, character_escape_at, common_escape_at};
use rx_ast::{Character, CharacterKind};
use rx_base::{Counter, Diagnostic, DigitsKind};
use rx_tables::{
    is_class_set_reserved_double_punctuator, is_class_set_reserved_punctuator,
    is_class_set_syntax_character,
};
use rx_units::{Ahead, Unit, UnitSource};

/// What stands where a character of a class stands with `v` (ClassSetCharacter of ECMA-262, 22.2.1): one, or an escape of one that is
/// refused. Lengths count from the backslash on.
#[derive(Clone, Copy)]
pub enum SetCharacter {
    Character {
        kind: CharacterKind,
        value: u32,
        length: usize,
    },

    /// `u{` with so many digits that they pass 32 bits.
    TooMany {
        digits: usize,
    },

    /// `u` without the digits that have to follow it.
    Invalid,
}

impl<S: UnitSource, C: Counter> Reading<'_, '_, '_, '_, '_, S, C> {
    ghost use Rattle.rx_class.specs.Readings.{ReadsOn};

    /// Reads the character that was found at the place, and moves over it.
    pub(crate) fn class_set_character(
        &mut self,
        found: SetCharacter,
    ) -> Result<Character, Diagnostic>
        requires found { set_character_at (rest self.old.reader.now) ≡ seen_character found }
        requires code_points { All (λ unit. unit.value ≤ 0x10FFFF) (rest self.old.reader.now) }
        ensures gives { (e : Environment) → is_sets e.mode ≡ true → GivesSetCharacter e self.old.spans.now self.old.reader.now self.new.reader.now result }
        ensures steps { TakesStepsAfter (most_set_looks (rest self.old.reader.now) (seen_character found)) 6 (C.count self.old.steps.now) (C.count self.new.steps.now) self.old.reader.now self.new.reader.now result }
        ensures on { ReadsOn self.old self.new }
    {
        match found {
            SetCharacter::Character {
                kind,
                value,
                length,
            } => {
                let start = self.offset();
                self.skip(length);
                let span = self.span_from(start);
                Ok(Character { span, kind, value })
            }
            SetCharacter::TooMany { digits } => {
                let span = self.read_span(3, digits);
                let what = DigitsKind::Hex;
                Err(Diagnostic::TooLargeNumberDigits { span, what })
            }
            SetCharacter::Invalid => {
                let span = self.read_span(1, 1);
                Err(Diagnostic::InvalidUnicodeEscapeSequence { span })
            }
        }
    }
}

/// The character that the units begin with, with its backslash.
#[tactic(auto, using(crate::proofs::SetReading::Characters::set_character_is, crate::proofs::SetReading::Characters::nothing_read))]
pub fn set_character_at<U: Unit, C: Counter>(
    units: &Ahead<'_, U>,
    steps: &mut C,
) -> Option<SetCharacter>
    ensures read { seen_if_some result ≡ set_character_at units.now }
    ensures steps { Rises (C.count steps.old) (C.count steps.new) 0 (most_set_looks units.now (seen_if_some result)) }
{
    let Some((first, following)) = units.split_first() else {
        return None;
    };
    if first == '\\' as u32 {
        return after_backslash(&following, steps);
    }
    if !stands_raw(first, &following) {
        return None;
    }
    Some(SetCharacter::Character {
        kind: unit_kind(units.escape_kind()),
        value: first,
        length: 1,
    })
}

/// The character that the units after a backslash stand for in a class, from the backslash on.
pub fn after_backslash<U: Unit, C: Counter>(
    units: &Ahead<'_, U>,
    steps: &mut C,
) -> Option<SetCharacter>
    ensures read { seen_if_some result ≡ after_backslash (set_escape_at (values units.now)) }
    ensures steps { Rises (C.count steps.old) (C.count steps.new) 0 (most_after_backslash (length units.now) (seen_if_some result)) }
{
    // Why: docs/DECISIONS.md, 131.
    let _ = units.len();
    match set_escape_at(units, steps) {
        EscapeFound::Character {
            kind,
            value,
            length,
        } => Some(SetCharacter::Character {
            kind,
            value,
            length: length + 1,
        }),
        EscapeFound::TooMany { digits } => Some(SetCharacter::TooMany { digits }),
        EscapeFound::Invalid => Some(SetCharacter::Invalid),
        EscapeFound::Nothing => None,
    }
}

/// The same without the backslash.
fn set_escape_at<U: Unit, C: Counter>(units: &Ahead<'_, U>, steps: &mut C) -> EscapeFound
    ensures read { seen_escape result ≡ set_escape_at (values units.now) }
    ensures within { IsWithin (length units.now) result }
    ensures steps { Rises (C.count steps.old) (C.count steps.new) 0 (most_looks true (length units.now) result) }
{
    if let Some(it) = common_escape_at(units, true) {
        steps.add(it.length - 1);
        return character(it.kind, it.value, it.length);
    }
    let Some(first) = units.first() else {
        return EscapeFound::Nothing;
    };
    if first == 'b' as u32 {
        return character(CharacterKind::SingleEscape, 8, 1);
    }
    if is_class_set_reserved_punctuator(first) {
        return character(CharacterKind::Identifier, first, 1);
    }
    character_escape_at(units, true, steps)
}

/// Whether a value stands for itself before some units: it is no ClassSetSyntaxCharacter, and begins no
/// ClassSetReservedDoublePunctuator.
#[inline(always)]
pub(crate) fn stands_raw<U: Unit>(value: u32, following: &Ahead<'_, U>) -> bool
    ensures { result ≡ stands_raw_in_class Sets value (values following.now) }
{
    !is_class_set_syntax_character(value)
        && !following.first().is_some_and(|next| is_class_set_reserved_double_punctuator(
            value, next,
        ))
}

/// What stands after a character as the end of a range: a `-` and a character. Lengths count from after the `-` on.
#[tactic(auto, using(crate::proofs::SetReading::Characters::range_end_after, crate::proofs::SetReading::Characters::no_end_without, crate::proofs::SetReading::Fronts::starts_some))]
pub fn range_end_at<U: Unit, C: Counter>(
    units: &Ahead<'_, U>,
    steps: &mut C,
) -> Option<SetCharacter>
    ensures end { seen_if_some result ≡ range_end_at units.now }
    ensures steps { Rises (C.count steps.old) (C.count steps.new) 0 (most_end_looks units.now (seen_if_some result)) }
{
    if !begins_with(units, '-') {
        return None;
    }
    set_character_at(&units.from(1), steps)
}
