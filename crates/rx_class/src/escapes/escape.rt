ghost use Rattle.std.specs.Prelude.{◌≡◌, ◌≤◌, ◌==◌, All, true, length};
ghost use Rattle.rx_base.specs.Ascii as ascii;
ghost use Rattle.rx_base.specs.Rising.{Rises};
ghost use Rattle.rx_units.specs.Cursor.{rest};
ghost use Rattle.rx_units.specs.Pace.{IsMove};
ghost use Rattle.rx_units.specs.Units.{values};
ghost use Rattle.rx_units.specs.Digits.{front_is};
ghost use Rattle.rx_model.specs.Characters.EscapeFronts.{any_escape_at};
ghost use Rattle.rx_model.specs.Inputs.Environment.{is_unicode};
ghost use Rattle.rx_scan.specs.Environments.{seen_environment};
ghost use Rattle.rx_class.specs.EscapeReading.Answers.{GivesCharacter, GivesClassEscape, IsAfterBackslash, environment_of};
ghost use Rattle.rx_class.specs.EscapeReading.Steps.{few_looks};
ghost use Rattle.rx_class.specs.Fitting.{AreFitting};
ghost use Rattle.rx_class.specs.EscapeReading.Found.{AnswersFound, IsWithin, seen_escape, shared_escape_at};
ghost use Rattle.rx_class.specs.ReadingSteps.{IsReading};

use crate::reading::Reading;
use crate::{EscapeFound, any_escape_at, character_escape_at, class_escape_at};
use rx_ast::{Character, CharacterClassEscape};
use rx_base::{Counter, Diagnostic, DigitsKind};
use rx_scan::{Environment, SpanFactory, State};
use rx_units::{Ahead, Reader, Unit, UnitSource};

/// Reads the character escape (CharacterEscape of ECMA-262, 22.2.1) after a backslash that was read, and moves over its units. The
/// character's span, in bytes, begins at `span_start`, before the backslash. Where none stands the answer is `None`, and the
/// reader stays.
///
/// With neither `u` nor `v` octal escapes and identity escapes are read too (B.1.2), as they stand in classes: a digit begins no
/// reference, and `B` stands for itself. What classes alone have is not read: `b`, and `c` before anything but a letter.
///
/// With `u` or `v` it is refused by `TooLargeNumberDigits` where the digits in braces pass 32 bits: the span is that of the digits
/// before the one that does. It is refused by `InvalidUnicodeEscapeSequence` where `u` begins no unicode escape: the span is that
/// of the `u`.
pub fn parse_character_escape<'text, S: UnitSource + 'text, C: Counter>(
    reader: &mut Reader<'text, S>,
    state: &State,
    spans: &SpanFactory,
    span_start: u32,
    steps: &mut C,
) -> Result<Option<Character>, Diagnostic>
    requires backslash { IsAfterBackslash reader.old span_start }
    requires fits { AreFitting spans.now reader.old }
    ensures gives { GivesCharacter (environment_of state.now) spans.now span_start reader.old reader.new result }
    ensures steps { IsReading 6 (C.count steps.old) (C.count steps.new) reader.old reader.new result }
{
    let alloc = state.capturing_group_names.allocator();
    let mut reading = Reading {
        reader,
        state,
        spans,
        alloc,
        steps,
    };
    reading.character_escape(span_start)
}

impl<S: UnitSource, C: Counter> Reading<'_, '_, '_, '_, '_, S, C> {
    ghost use Rattle.rx_class.specs.Readings.{ReadsOn};

    /// Reads the character escape after a backslash, in and out of classes.
    pub(crate) fn character_escape(
        &mut self,
        span_start: u32,
    ) -> Result<Option<Character>, Diagnostic>
        requires backslash { IsAfterBackslash self.old.reader.now span_start }
        ensures gives { GivesCharacter (environment_of self.old.state.now) self.old.spans.now span_start self.old.reader.now self.new.reader.now result }
        ensures steps { IsReading 6 (C.count self.old.steps.now) (C.count self.new.steps.now) self.old.reader.now self.new.reader.now result }
        ensures on { ReadsOn self.old self.new }
    {
        let found = shared_escape(&self.reader.ahead(), self.state, self.steps);
        self.answer(span_start, found)
    }

    /// Reads the escape of a character (ClassEscape of ECMA-262, 22.2.1) after a backslash in a class, but for `\b` and `\-`, and moves
    /// over it.
    pub(crate) fn character_in_class(
        &mut self,
        span_start: u32,
    ) -> Result<Option<Character>, Diagnostic>
        requires backslash { IsAfterBackslash self.old.reader.now span_start }
        ensures found { AnswersFound self.old.spans.now span_start self.old.reader.now self.new.reader.now (any_escape_at true (environment_of self.old.state.now) (values (rest self.old.reader.now))) result }
        ensures steps { IsReading 6 (C.count self.old.steps.now) (C.count self.new.steps.now) self.old.reader.now self.new.reader.now result }
        ensures on { ReadsOn self.old self.new }
    {
        let units = self.reader.ahead();
        let found = any_escape_at(&units, true, class_environment(self.state), self.steps);
        self.answer(span_start, found)
    }

    /// The answer to what was found at the place. Moves over a character.
    fn answer(
        &mut self,
        span_start: u32,
        found: EscapeFound,
    ) -> Result<Option<Character>, Diagnostic>
        requires backslash { IsAfterBackslash self.old.reader.now span_start }
        requires within { IsWithin (length (rest self.old.reader.now)) found }
        ensures found { AnswersFound self.old.spans.now span_start self.old.reader.now self.new.reader.now (seen_escape found) result }
        ensures steps { IsMove (C.count self.old.steps.now) (C.count self.new.steps.now) self.old.reader.now self.new.reader.now }
        ensures on { ReadsOn self.old self.new }
    {
        match found {
            EscapeFound::Character {
                kind,
                value,
                length,
            } => {
                self.skip(length);
                let span = self.span_from(span_start);
                Ok(Some(Character { span, kind, value }))
            }
            EscapeFound::Nothing => Ok(None),
            EscapeFound::TooMany { digits } => {
                let span = self.read_span(2, digits);
                let what = DigitsKind::Hex;
                Err(Diagnostic::TooLargeNumberDigits { span, what })
            }
            EscapeFound::Invalid => {
                let span = self.read_span(0, 1);
                Err(Diagnostic::InvalidUnicodeEscapeSequence { span })
            }
        }
    }
}

/// The escape that units begin with after a backslash, in and out of classes.
fn shared_escape<U: Unit, C: Counter>(
    units: &Ahead<'_, U>,
    state: &State,
    steps: &mut C,
) -> EscapeFound
    requires code_points { All (λ unit. unit.value ≤ 0x10FFFF) units.now }
    ensures read { seen_escape result ≡ shared_escape_at (environment_of state.now) (values units.now) }
    ensures within { IsWithin (length units.now) result }
    ensures steps { Rises (C.count steps.old) (C.count steps.new) 0 (few_looks (length units.now) result) }
{
    if begins_with_c(units) {
        character_escape_at(units, is_unicode(state), steps)
    } else {
        any_escape_at(units, true, class_environment(state), steps)
    }
}

fn begins_with_c<U: Unit>(units: &Ahead<'_, U>) -> bool
    ensures { result ≡ front_is (λ c. c == ascii.c) (values units.now) }
{
    units.first() == Some('c' as u32)
}

/// Whether escapes are those with `u` or `v`.
pub fn is_unicode(state: &State) -> bool
    ensures { result ≡ is_unicode (environment_of state.now).mode }
{
    state.mode().is_unicode()
}

/// The environment of the pattern's classes. No boundary stands in them, so it is the same whatever the rules say.
fn class_environment(state: &State) -> Environment
    ensures { seen_environment result ≡ environment_of state.now }
{
    Environment::of(state, true)
}

/// Reads the class escape (CharacterClassEscape of ECMA-262, 22.2.1) after a backslash that was read, if it names no property, and
/// moves over its unit. Its span, in bytes, begins at `span_start`, before the backslash. Where none stands the answer is
/// `None`, and the reader stays.
pub fn parse_character_class_escape<S: UnitSource, C: Counter>(
    reader: &mut Reader<'_, S>,
    spans: &SpanFactory,
    span_start: u32,
    steps: &mut C,
) -> Option<CharacterClassEscape>
    requires backslash { IsAfterBackslash reader.old span_start }
    requires fits { AreFitting spans.now reader.old }
    ensures gives { GivesClassEscape spans.now span_start reader.old reader.new result }
    ensures steps { IsMove (C.count steps.old) (C.count steps.new) reader.old reader.new }
{
    let kind = class_escape_at(&reader.ahead())?;
    reader.advance_counted(steps);
    let span = spans.create(span_start, reader.offset());
    Some(CharacterClassEscape { span, kind })
}
