ghost use Rattle.std.specs.Prelude.{◌≡◌, ◌≤◌, All, Err, IfOk, MatchResult, Ok, Some, false, codes};
ghost use Rattle.rx_base.specs.Ascii as ascii;
ghost use Rattle.rx_base.specs.declared.diagnostic.kinds.SetOperator.TheVariants.{Intersection};
ghost use Rattle.rx_base.specs.Rising.{Rises};
ghost use Rattle.rx_ast.specs.ClassTree as ClassTree;
ghost use Rattle.rx_ast.specs.ClassTree.{mirror_contents};
ghost use Rattle.rx_ast.specs.Texts.{class_escape_text};
ghost use Rattle.rx_units.specs.Cursor.{Cursor, move_on, offset_of, rest};
ghost use Rattle.rx_units.specs.Pace.{TakesSteps};
ghost use Rattle.rx_units.specs.Units.{values};
ghost use Rattle.rx_model.specs.Classes.ClassRuns.{with_range as after_range};
ghost use Rattle.rx_model.specs.FirstPass.Marks.{starts};
ghost use Rattle.rx_model.specs.Inputs.Environment.{Environment};
ghost use Rattle.rx_model.specs.Classes.ClassRows.{after_operator};
ghost use Rattle.rx_class.specs.EscapeReading.Answers.{environment_of};
ghost use Rattle.rx_class.specs.PropertyReading.Answers.{GivesProperty};
ghost use Rattle.rx_class.specs.SetReading.FrontSeen.{seen_character};
ghost use Rattle.rx_class.specs.SetReading.HeldMirror.{mirror_held};
ghost use Rattle.rx_class.specs.SetReading.Answers.{IsAfterDash};
ghost use Rattle.rx_class.specs.SetReading.Fronts.{Begins, BeginsProperty, set_character_at};
ghost use Rattle.rx_class.specs.SetReading.Progress.{GivesTurn, IsOfSets, IsRangeNext, IsSetRange, innermost_held, place_of};
ghost use Rattle.rx_class.specs.SetReading.Steps.{TakesStepsAfter, most_next_looks, most_set_looks};
ghost use Rattle.rx_class.specs.SetReading.WellBuilt.{HoldsMore, IsSound, IsWellBuilt, TakesOperand};

use crate::classes::atom::ClassAtom;
use crate::classes::item::range_contents;
use crate::reading::Reading;
use crate::sets::builder::ClassBuilder;
use crate::sets::character::{SetCharacter, range_end_at};
use crate::sets::held::Held;
use rx_ast::{
    Character, CharacterClassContents, CharacterClassEscape, CharacterClassEscapeKind,
    CharacterClassRange, ClassStringDisjunction, UnicodePropertyEscape,
};
use rx_base::{Counter, Diagnostic, Fault, OutOfMemory, RangeKind, Span};
use rx_units::{Ahead, Unit, UnitSource};
use std::alloc::Global;

impl<S: UnitSource, C: Counter> Reading<'_, '_, '_, '_, '_, S, C> {
    ghost use Rattle.rx_class.specs.Readings.{ReadsOn};

    /// Reads the class strings at the place as an operand. After it the innermost bracket holds `after`.
    pub(crate) fn strings_operand(
        &mut self,
        builder: &mut ClassBuilder,
        after: Held,
    ) -> Result<(), Fault>
        requires front { Begins (rest self.old.reader.now) (codes "\\q{") }
        requires takes { TakesOperand builder.old after }
        ensures gives { (e : Environment) → IsOfSets e self.old.reader.now → GivesTurn e self.old.spans.now self.old.reader.now self.new.reader.now builder.old builder.new result }
        ensures steps { TakesSteps 6 (C.count self.old.steps.now) (C.count self.new.steps.now) self.old.reader.now self.new.reader.now result }
        ensures on { ReadsOn self.old self.new }
    {
        let strings = self.class_strings()?;
        let may = strings.strings;
        let contents = strings_contents(self.alloc, strings)?;
        Ok(builder.push(contents, may, after)?)
    }

    /// Reads the class escape at the place as an operand. After it the innermost bracket holds `after`.
    pub(crate) fn escape_operand(
        &mut self,
        builder: &mut ClassBuilder,
        kind: CharacterClassEscapeKind,
        after: Held,
    ) -> Result<(), Fault>
        requires front { Begins (rest self.old.reader.now) (class_escape_text kind) }
        requires takes { TakesOperand builder.old after }
        ensures gives { (e : Environment) → IsOfSets e self.old.reader.now → GivesTurn e self.old.spans.now self.old.reader.now self.new.reader.now builder.old builder.new result }
        ensures steps { TakesSteps 6 (C.count self.old.steps.now) (C.count self.new.steps.now) self.old.reader.now self.new.reader.now result }
        ensures on { ReadsOn self.old self.new }
    {
        let start = self.offset();
        self.skip(2);
        let span = self.span_from(start);
        let contents = CharacterClassContents::CharacterClassEscape(CharacterClassEscape {
            span,
            kind,
        });
        Ok(builder.push(contents, false, after)?)
    }

    /// Reads the property escape at the place as an operand. After it the innermost bracket holds `after`.
    pub(crate) fn property_operand(
        &mut self,
        builder: &mut ClassBuilder,
        after: Held,
    ) -> Result<(), Fault>
        requires front { BeginsProperty (rest self.old.reader.now) }
        requires takes { TakesOperand builder.old after }
        requires sets { IsOfSets (environment_of self.old.state.now) self.old.reader.now }
        ensures gives { GivesTurn (environment_of self.old.state.now) self.old.spans.now self.old.reader.now self.new.reader.now builder.old builder.new result }
        ensures steps { TakesSteps 6 (C.count self.old.steps.now) (C.count self.new.steps.now) self.old.reader.now self.new.reader.now result }
        ensures on { ReadsOn self.old self.new }
    {
        let escape = self.property_here()?;
        push_property(self.alloc, builder, escape, after)
    }

    /// Reads the property escape at the place, and moves over it.
    fn property_here(&mut self) -> Result<UnicodePropertyEscape, Fault>
        requires front { BeginsProperty (rest self.old.reader.now) }
        requires sets { IsOfSets (environment_of self.old.state.now) self.old.reader.now }
        ensures gives { MatchResult result
            (λ it. GivesProperty (environment_of self.old.state.now) self.old.spans.now (offset_of self.old.reader.now) (move_on 1 self.old.reader.now) self.new.reader.now (Ok (Some it)))
            (λ fault. GivesProperty (environment_of self.old.state.now) self.old.spans.now (offset_of self.old.reader.now) (move_on 1 self.old.reader.now) self.new.reader.now (Err fault)) }
        ensures steps { TakesSteps 6 (C.count self.old.steps.now) (C.count self.new.steps.now) self.old.reader.now self.new.reader.now result }
        ensures on { ReadsOn self.old self.new }
    {
        let start = self.offset();
        self.advance();
        let Some(it) = self.property_escape(start)? else {
            unreachable!();
        };
        Ok(it)
    }

    /// Reads the character that was found at the place as an operand, after which the innermost bracket holds `after`; or in a union
    /// the range that it begins.
    pub(crate) fn character_operand(
        &mut self,
        builder: &mut ClassBuilder,
        found: SetCharacter,
        after: Held,
    ) -> Result<(), Fault>
        requires front { set_character_at (rest self.old.reader.now) ≡ seen_character found }
        requires no_third { place_of (innermost_held builder.old) ≡ after_operator Intersection → starts ascii.ampersand (values (rest self.old.reader.now)) ≡ false }
        requires takes { TakesOperand builder.old after }
        requires code_points { All (λ unit. unit.value ≤ 0x10FFFF) (rest self.old.reader.now) }
        ensures gives { (e : Environment) → IsOfSets e self.old.reader.now → GivesTurn e self.old.spans.now self.old.reader.now self.new.reader.now builder.old builder.new result }
        ensures steps { TakesStepsAfter (most_set_looks (rest self.old.reader.now) (seen_character found)) 6 (C.count self.old.steps.now) (C.count self.new.steps.now) self.old.reader.now self.new.reader.now result }
        ensures on { ReadsOn self.old self.new }
    {
        let low = self.class_set_character(found)?;
        let units = self.reader.ahead();
        match range_next(builder.inner.held, &units, self.steps) {
            Some((end, ranged)) => {
                self.advance();
                self.range_operand(builder, low, end, ranged)
            }
            None => Ok(builder.push(CharacterClassContents::Character(low), false, after)?),
        }
    }

    /// Reads the rest of a range whose first character was read, and whose end was found.
    fn range_operand(
        &mut self,
        builder: &mut ClassBuilder,
        low: Character,
        end: SetCharacter,
        ranged: Held,
    ) -> Result<(), Fault>
        requires low { low.value ≤ 0x10FFFF }
        requires found { set_character_at (rest self.old.reader.now) ≡ seen_character end }
        requires held { after_range (innermost_held builder.old) ≡ Some (mirror_held ranged) }
        requires well { IsWellBuilt builder.old }
        requires code_points { All (λ unit. unit.value ≤ 0x10FFFF) (rest self.old.reader.now) }
        ensures gives { (e : Environment) (start : Cursor) → IsOfSets e start → IsAfterDash e self.old.spans.now start low self.old.reader.now → GivesTurn e self.old.spans.now start self.new.reader.now builder.old builder.new result }
        ensures steps { TakesStepsAfter (most_set_looks (rest self.old.reader.now) (seen_character end)) 6 (C.count self.old.steps.now) (C.count self.new.steps.now) self.old.reader.now self.new.reader.now result }
        ensures on { ReadsOn self.old self.new }
    {
        let high = self.class_set_character(end)?;
        let contents = range_contents(self.alloc, range(low, high)?)?;
        Ok(builder.push(contents, false, ranged)?)
    }
}

/// Adds a property escape. After it the innermost bracket holds `after`.
fn push_property(
    alloc: Global,
    builder: &mut ClassBuilder,
    escape: UnicodePropertyEscape,
    after: Held,
) -> Result<(), Fault>
    requires takes { TakesOperand builder.old after }
    requires sound { IsSound (ClassTree.property escape) }
    ensures { MatchResult result (λ none. HoldsMore builder.old builder.new (ClassTree.property escape) after) (λ fault. fault ≡ Fault.OutOfMemory) }
{
    let may = escape.strings;
    let contents = ClassAtom::Property(escape).into_contents(alloc)?;
    Ok(builder.push(contents, may, after)?)
}

/// Class strings as contents of a class.
#[tactic(auto, using(rx_ast::proofs::ClassEquations::class_mirrors))]
fn strings_contents(
    alloc: Global,
    strings: ClassStringDisjunction,
) -> Result<CharacterClassContents, OutOfMemory>
    ensures { IfOk result (λ it. mirror_contents it ≡ ClassTree.strings strings) }
{
    Ok(CharacterClassContents::ClassStringDisjunction(Box::new(alloc, strings)?))
}

/// What was found as the end of a range after a character, and what a bracket that held this holds after the range; nothing where the
/// character begins no range.
fn range_next<U: Unit, C: Counter>(
    held: Held,
    units: &Ahead<'_, U>,
    steps: &mut C,
) -> Option<(SetCharacter, Held)>
    ensures next { IsRangeNext units.now (mirror_held held) result }
    ensures steps { Rises (C.count steps.old) (C.count steps.new) 0 (most_next_looks units.now result) }
{
    let ranged = held.with_range()?;
    match range_end_at(units, steps) {
        Some(end) => Some((end, ranged)),
        None => None,
    }
}

/// The range from one character to another, or that it is out of order.
fn range(min: Character, max: Character) -> Result<CharacterClassRange, Diagnostic>
    ensures { IsSetRange min max result }
{
    let span = Span::new(min.span.start, max.span.end);
    if min.value <= max.value {
        Ok(CharacterClassRange { span, min, max })
    } else {
        let what = RangeKind::ClassSet;
        Err(Diagnostic::CharacterClassRangeOutOfOrder { span, what })
    }
}
