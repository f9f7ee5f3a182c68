ghost use Rattle.std.specs.Prelude.{◌≡◌, IfErr, OnOk, false, true, ◌+◌, ◌<◌, ◌≤◌, ◌^◌, length, codes};
ghost use Rattle.rx_base.specs.Ascii as ascii;
ghost use Rattle.rx_units.specs.Cursor.{rest};
ghost use Rattle.rx_units.specs.Pace.{TakesSteps};
ghost use Rattle.rx_units.specs.Units.{values};
ghost use Rattle.rx_model.specs.FirstPass.Marks.{starts};
ghost use Rattle.rx_model.specs.Inputs.Environment.{Environment, is_sets};
ghost use Rattle.rx_class.specs.Keeping.{KeepsUnits};
ghost use Rattle.rx_class.specs.SetReading.Answers.{GivesStrings};
ghost use Rattle.rx_class.specs.SetReading.Fronts.{Begins};
ghost use Rattle.rx_class.specs.SetReading.Strings.{AddsPart, RefusesPart, strings_from, with_string};

use crate::reading::Reading;
use crate::sets::character::set_character_at;
use crate::sets::front::begins_with;
use rx_ast::{Character, ClassString, ClassStringDisjunction};
use rx_base::{Counter, Diagnostic, Fault, List, OutOfMemory, Span, Unterminated};
use rx_units::UnitSource;
use std::alloc::Global;
use std::mem;

/// The class strings that were read, and the string that is being read, which begins at `start`.
#[derive(Drop)]
struct StringsBuilder {
    strings: List<ClassString>,

    /// Whether one of the strings is not one character.
    may: bool,
    start: u32,
    letters: List<Character>,
}

impl StringsBuilder {
    fn new(alloc: Global, start: u32) -> StringsBuilder
        ensures { result ≡ strings_from start }
    {
        StringsBuilder {
            strings: List::new(alloc),
            may: false,
            start,
            letters: List::new(alloc),
        }
    }

    /// Ends the string that is being read before a byte.
    fn end_string(&mut self, alloc: Global, end: u32) -> Result<(), OutOfMemory>
        ensures { OnOk result (self.new ≡ with_string self.old end) }
    {
        let body = mem::replace(&mut self.letters, List::new(alloc));
        let strings = body.len() != 1;
        let span = Span::new(self.start, end);
        self.may = self.may || strings;
        self.strings.push(ClassString {
            span,
            strings,
            body,
        })
    }
}

impl<S: UnitSource, C: Counter> Reading<'_, '_, '_, '_, '_, S, C> {
    ghost use Rattle.rx_class.specs.Readings.{ReadsOn};

    /// Reads the class strings (ClassStringDisjunction of ECMA-262, 22.2.1) at the place, from their `\q{` on, and moves over them.
    ///
    /// They are refused by `UnterminatedPattern` where neither a character nor a `|` nor a `}` stands, and as character escapes are.
    pub(crate) fn class_strings(&mut self) -> Result<ClassStringDisjunction, Fault>
        requires opener { Begins (rest self.old.reader.now) (codes "\\q{") }
        ensures gives { (e : Environment) → is_sets e.mode ≡ true → GivesStrings e self.old.spans.now self.old.reader.now self.new.reader.now result }
        ensures steps { TakesSteps 6 (C.count self.old.steps.now) (C.count self.new.steps.now) self.old.reader.now self.new.reader.now result }
        ensures on { ReadsOn self.old self.new }
    {
        let start = self.offset();
        self.skip(3);
        let mut builder = StringsBuilder::new(self.alloc, self.here().start);
        while !begins_with(&self.units(), '}') {
            self.string_part(start, &mut builder)?;
        }
        builder.end_string(self.alloc, self.here().start)?;
        self.advance();
        Ok(ClassStringDisjunction {
            span: self.span_from(start),
            strings: builder.may,
            body: builder.strings,
        })
    }

    /// Reads a character of a class string, or the `|` after one. The class strings begin at `start`, in bytes.
    fn string_part(&mut self, start: u32, builder: &mut StringsBuilder) -> Result<(), Fault>
        requires goes_on { starts ascii.right_brace (values (rest self.old.reader.now)) ≡ false }
        requires within { self.old.reader.now.place ≤ length self.old.reader.now.units }
        requires start { start + self.old.spans.now < 2 ^ 32 }
        ensures added { OnOk result ((e : Environment) → is_sets e.mode ≡ true → AddsPart e self.old.spans.now self.old.reader.now self.new.reader.now builder.old builder.new) }
        ensures refused { IfErr result (λ fault. (e : Environment) → is_sets e.mode ≡ true → RefusesPart e self.old.spans.now start self.old.reader.now self.new.reader.now fault) }
        ensures steps { TakesSteps 6 (C.count self.old.steps.now) (C.count self.new.steps.now) self.old.reader.now self.new.reader.now result }
        ensures on { ReadsOn self.old self.new }
    {
        if begins_with(&self.units(), '|') {
            return Ok(self.next_string(builder)?);
        }
        let units = self.reader.ahead();
        let Some(found) = set_character_at(&units, self.steps) else {
            let span = self.span_from(start);
            let what = Unterminated::ClassStringDisjunction;
            return Err(Fault::Diagnostic(Diagnostic::UnterminatedPattern { span, what }));
        };
        let character = self.class_set_character(found)?;
        Ok(builder.letters.push(character)?)
    }

    /// Ends a string before the `|` at the place, and moves over it.
    fn next_string(&mut self, builder: &mut StringsBuilder) -> Result<(), OutOfMemory>
        requires bar { starts ascii.vertical_bar (values (rest self.old.reader.now)) ≡ true }
        ensures added { OnOk result ((e : Environment) → is_sets e.mode ≡ true → AddsPart e self.old.spans.now self.old.reader.now self.new.reader.now builder.old builder.new) }
        ensures keeps { KeepsUnits self.old.reader.now self.new.reader.now }
        ensures steps { TakesSteps 6 (C.count self.old.steps.now) (C.count self.new.steps.now) self.old.reader.now self.new.reader.now result }
        ensures on { ReadsOn self.old self.new }
    {
        builder.end_string(self.alloc, self.here().start)?;
        self.advance();
        builder.start = self.here().start;
        Ok(())
    }
}
