ghost use Rattle.std.specs.Prelude.{◌≡◌, ◌-◌};
ghost use Rattle.rx_class.specs.EscapeReading.Answers.{IsAfterBackslash, environment_of};
ghost use Rattle.rx_class.specs.Fitting.{AreFitting};
ghost use Rattle.rx_class.specs.Keeping.{KeepsUnits};
ghost use Rattle.rx_class.specs.PropertyReading.Answers.{GivesProperty};
ghost use Rattle.rx_class.specs.PropertyReading.Found.{property_refusal};
ghost use Rattle.rx_class.specs.ReadingSteps.{IsReading};
ghost use Rattle.rx_units.specs.Pace.{IsMove};

use crate::properties::found::{PropertyFound, PropertyHalt, property_at};
use crate::reading::Reading;
use rx_ast::UnicodePropertyEscape;
use rx_base::{Counter, Diagnostic, Fault, PropertyPart, Unterminated};
use rx_scan::{SpanFactory, State};
use rx_units::{Reader, UnitSource};
use std::alloc::Global;

/// Reads the property escape (CharacterClassEscape of ECMA-262, 22.2.1, that names a property) after a backslash that was read, and
/// moves over its units. Its span, in bytes, begins at `span_start`, before the backslash. With neither `u` nor `v`, and where neither
/// `p` nor `P` stands, the answer is `None`, and the reader stays.
///
/// It is refused by `UnterminatedPattern` where no `{` follows, or a name or a value that is known is not followed by `}`; by
/// `InvalidUnicodeProperty` where a name, a value or both together are in no table; where a property of strings is named, by
/// `InvalidUnicodePropertyOfStrings` with `u`, and with `v` by `InvalidUnicodePropertyNameNegativeStrings` after `\P`.
#[inline]
pub fn parse_character_class_escape_unicode<'text, S: UnitSource + 'text, C: Counter>(
    alloc: Global,
    reader: &mut Reader<'text, S>,
    state: &State,
    spans: &SpanFactory,
    span_start: u32,
    steps: &mut C,
) -> Result<Option<UnicodePropertyEscape>, Fault>
    requires backslash { IsAfterBackslash reader.old span_start }
    requires fits { AreFitting spans.now reader.old }
    ensures gives { GivesProperty (environment_of state.now) spans.now span_start reader.old reader.new result }
    ensures steps { IsReading 6 (C.count steps.old) (C.count steps.new) reader.old reader.new result }
{
    let mut reading = Reading {
        reader,
        state,
        spans,
        alloc,
        steps,
    };
    reading.property_escape(span_start)
}

impl<S: UnitSource, C: Counter> Reading<'_, '_, '_, '_, '_, S, C> {
    ghost use Rattle.rx_class.specs.Readings.{ReadsOn};

    /// Reads the property escape after a backslash.
    pub(crate) fn property_escape(
        &mut self,
        span_start: u32,
    ) -> Result<Option<UnicodePropertyEscape>, Fault>
        requires backslash { IsAfterBackslash self.old.reader.now span_start }
        ensures gives { GivesProperty (environment_of self.old.state.now) self.old.spans.now span_start self.old.reader.now self.new.reader.now result }
        ensures steps { IsReading 6 (C.count self.old.steps.now) (C.count self.new.steps.now) self.old.reader.now self.new.reader.now result }
        ensures on { ReadsOn self.old self.new }
    {
        if !self.is_unicode() {
            return Ok(None);
        }
        let units = self.reader.ahead();
        let found = property_at(self.alloc, &units, self.state.mode(), self.steps)?;
        match found {
            PropertyFound::Property {
                negative,
                strings,
                name,
                value,
                length,
            } => {
                self.skip(length);
                let span = self.span_from(span_start);
                Ok(Some(UnicodePropertyEscape {
                    span,
                    negative,
                    strings,
                    name,
                    value,
                }))
            }
            PropertyFound::Nothing => Ok(None),
            PropertyFound::Halt(halt) => Err(Fault::Diagnostic(self.refusal(span_start, halt))),
        }
    }

    /// The refusal that a halt is. Moves.
    fn refusal(&mut self, span_start: u32, halt: PropertyHalt) -> Diagnostic
        requires backslash { IsAfterBackslash self.old.reader.now span_start }
        ensures refusal { result ≡ property_refusal self.old.reader.now.units self.old.reader.now.first self.old.spans.now (self.old.reader.now.place - 1) halt }
        ensures reader { KeepsUnits self.old.reader.now self.new.reader.now }
        ensures steps { IsMove (C.count self.old.steps.now) (C.count self.new.steps.now) self.old.reader.now self.new.reader.now }
        ensures on { ReadsOn self.old self.new }
    {
        match halt {
            PropertyHalt::Unterminated { end } => {
                self.skip(end);
                let span = self.span_from(span_start);
                let what = Unterminated::PropertyEscape;
                Diagnostic::UnterminatedPattern { span, what }
            }
            PropertyHalt::Name { start, length } => {
                let span = self.read_span(start, length);
                let what = PropertyPart::Name;
                Diagnostic::InvalidUnicodeProperty { span, what }
            }
            PropertyHalt::NameOrValue { length } => {
                let span = self.read_span(2, length);
                let what = PropertyPart::NameOrValue;
                Diagnostic::InvalidUnicodeProperty { span, what }
            }
            PropertyHalt::NegativeOfStrings { name, end } => {
                self.skip(end);
                let span = self.span_from(span_start);
                Diagnostic::InvalidUnicodePropertyNameNegativeStrings { span, name }
            }
            PropertyHalt::OfStrings { name, length } => {
                let span = self.read_span(2, length);
                Diagnostic::InvalidUnicodePropertyOfStrings { span, name }
            }
        }
    }
}
