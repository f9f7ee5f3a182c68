ghost use Rattle.std.specs.Prelude.{◌≡◌, ◌≤◌, All, IfOk, IfSome, IsTrue, Ok, OnErr, OnOk, Some, drop, false, true};
ghost use Rattle.rx_base.specs.Ascii as ascii;
ghost use Rattle.rx_units.specs.Cursor.{front, move_on, rest};
ghost use Rattle.rx_units.specs.Pace.{IsPaced, TakesSteps};
ghost use Rattle.rx_model.specs.Characters.EscapeFronts.{escaped};
ghost use Rattle.rx_model.specs.Classes.ClassRuns.{is_union};
ghost use Rattle.rx_model.specs.Inputs.Environment.{Environment, is_sets};
ghost use Rattle.rx_class.specs.EscapeReading.Answers.{environment_of};
ghost use Rattle.rx_class.specs.Keeping.{KeepsUnits};
ghost use Rattle.rx_class.specs.SetReading.Answers.{GivesSetCharacter};
ghost use Rattle.rx_class.specs.SetReading.Fronts.{range_end_at, set_character_at};
ghost use Rattle.rx_class.specs.SetReading.Progress.{AddsToSets, EndsSets, IsOfSets, innermost_held};
ghost use Rattle.rx_class.specs.SetReading.WellBuilt.{IsWellBuilt};

use crate::classes::atom::{CommonAtom, unit_kind};
use crate::common_escape_at;
use crate::reading::Reading;
use crate::sets::builder::ClassBuilder;
use crate::sets::character::stands_raw;
use crate::sets::front::begins_with;
use rx_ast::{Character, CharacterClassRange};
use rx_base::{Counter, OutOfMemory, Span};
use rx_units::{Ahead, Unit, UnitSource};

impl<S: UnitSource, C: Counter> Reading<'_, '_, '_, '_, '_, S, C> {
    ghost use Rattle.rx_class.specs.Readings.{ReadsOn};

    /// Reads what is at the place in the innermost bracket where that bracket holds no operator, and what is there is common: a bracket that
    /// opens, one that closes and is not refused, a common character or a range of two. Else the answer is `false`, whatever stands there,
    /// and nothing changes.
    #[inline(always)]
    pub(crate) fn take_common_turn(
        &mut self,
        builder: &mut ClassBuilder,
    ) -> Result<bool, OutOfMemory>
        requires sets { IsOfSets (environment_of self.old.state.now) self.old.reader.now }
        requires well { IsWellBuilt builder.old }
        requires goes_on { EndsSets self.old.reader.now builder.old → ⊥ }
        ensures turned { IfOk result (λ it. IsTrue it → AddsToSets (environment_of self.old.state.now) self.old.spans.now self.old.reader.now self.new.reader.now builder.old builder.new) }
        ensures kept { IfOk result (λ it. it ≡ false → (self.new ≡ self.old) × (builder.new ≡ builder.old)) }
        ensures refused { OnErr result (KeepsUnits self.old.reader.now self.new.reader.now) }
        ensures steps { TakesSteps 6 (C.count self.old.steps.now) (C.count self.new.steps.now) self.old.reader.now self.new.reader.now result }
        ensures on { ReadsOn self.old self.new }
    {
        if !builder.inner.held.is_union() {
            return Ok(false);
        }
        match self.peek() {
            Some(value) if value == ']' as u32 => self.take_closer(builder),
            Some(value) if value == '[' as u32 => self.take_opener(builder),
            Some(_) => self.take_member(builder),
            None => Ok(false),
        }
    }

    /// Reads the bracket at the place, and opens it in a union.
    #[inline(always)]
    fn take_opener(&mut self, builder: &mut ClassBuilder) -> Result<bool, OutOfMemory>
        requires front { front (rest self.old.reader.now) ≡ Some ascii.left_bracket }
        requires union { is_union (innermost_held builder.old) ≡ true }
        requires sets { IsOfSets (environment_of self.old.state.now) self.old.reader.now }
        requires well { IsWellBuilt builder.old }
        ensures turned { IfOk result (λ it. IsTrue it → AddsToSets (environment_of self.old.state.now) self.old.spans.now self.old.reader.now self.new.reader.now builder.old builder.new) }
        ensures kept { IfOk result (λ it. it ≡ false → (self.new ≡ self.old) × (builder.new ≡ builder.old)) }
        ensures refused { OnErr result (KeepsUnits self.old.reader.now self.new.reader.now) }
        ensures steps { TakesSteps 6 (C.count self.old.steps.now) (C.count self.new.steps.now) self.old.reader.now self.new.reader.now result }
        ensures on { ReadsOn self.old self.new }
    {
        let negative = begins_with(&self.units().from(1), '^');
        self.open_bracket(builder, negative)?;
        Ok(true)
    }

    /// Reads the `]` at the place, and closes the innermost bracket, a union that is nested, where that is not refused.
    #[inline(always)]
    fn take_closer(&mut self, builder: &mut ClassBuilder) -> Result<bool, OutOfMemory>
        requires front { front (rest self.old.reader.now) ≡ Some ascii.right_bracket }
        requires union { is_union (innermost_held builder.old) ≡ true }
        requires goes_on { EndsSets self.old.reader.now builder.old → ⊥ }
        requires sets { IsOfSets (environment_of self.old.state.now) self.old.reader.now }
        requires well { IsWellBuilt builder.old }
        ensures turned { IfOk result (λ it. IsTrue it → AddsToSets (environment_of self.old.state.now) self.old.spans.now self.old.reader.now self.new.reader.now builder.old builder.new) }
        ensures kept { IfOk result (λ it. it ≡ false → (self.new ≡ self.old) × (builder.new ≡ builder.old)) }
        ensures refused { OnErr result (KeepsUnits self.old.reader.now self.new.reader.now) }
        ensures steps { TakesSteps 6 (C.count self.old.steps.now) (C.count self.new.steps.now) self.old.reader.now self.new.reader.now result }
        ensures on { ReadsOn self.old self.new }
    {
        if builder.inner.is_refused() {
            return Ok(false);
        }
        self.close_nested(builder)?;
        Ok(true)
    }

    /// Reads the character or the range at the place into a union, where each of its characters is a common one.
    #[inline(always)]
    fn take_member(&mut self, builder: &mut ClassBuilder) -> Result<bool, OutOfMemory>
        requires union { is_union (innermost_held builder.old) ≡ true }
        requires sets { IsOfSets (environment_of self.old.state.now) self.old.reader.now }
        requires well { IsWellBuilt builder.old }
        ensures turned { IfOk result (λ it. IsTrue it → AddsToSets (environment_of self.old.state.now) self.old.spans.now self.old.reader.now self.new.reader.now builder.old builder.new) }
        ensures kept { IfOk result (λ it. it ≡ false → (self.new ≡ self.old) × (builder.new ≡ builder.old)) }
        ensures refused { OnErr result (KeepsUnits self.old.reader.now self.new.reader.now) }
        ensures steps { TakesSteps 6 (C.count self.old.steps.now) (C.count self.new.steps.now) self.old.reader.now self.new.reader.now result }
        ensures on { ReadsOn self.old self.new }
    {
        let units = self.units();
        let Some(low) = common_character_at(&units) else {
            return Ok(false);
        };
        let following = units.from(low.length);
        if !begins_with(&following, '-') {
            let character = self.take_character(low);
            builder.inner.add_character(character)?;
            return Ok(true);
        }
        let Some(high) = common_character_at(&following.from(1)) else {
            return Ok(false);
        };
        if high.value < low.value {
            return Ok(false);
        }
        self.take_range(builder, low, high)?;
        Ok(true)
    }

    /// Reads the range at the place, whose characters were found, into a union.
    #[inline(always)]
    fn take_range(
        &mut self,
        builder: &mut ClassBuilder,
        low: CommonAtom,
        high: CommonAtom,
    ) -> Result<(), OutOfMemory>
        requires low { set_character_at (rest self.old.reader.now) ≡ escaped low.kind low.value low.length }
        requires high { range_end_at (drop low.length (rest self.old.reader.now)) ≡ escaped high.kind high.value high.length }
        requires ordered { low.value ≤ high.value }
        requires code_points { All (λ unit. unit.value ≤ 0x10FFFF) (rest self.old.reader.now) }
        requires union { is_union (innermost_held builder.old) ≡ true }
        requires well { IsWellBuilt builder.old }
        ensures added { OnOk result ((e : Environment) → IsOfSets e self.old.reader.now → AddsToSets e self.old.spans.now self.old.reader.now self.new.reader.now builder.old builder.new) }
        ensures refused { OnErr result (KeepsUnits self.old.reader.now self.new.reader.now) }
        ensures steps { TakesSteps 6 (C.count self.old.steps.now) (C.count self.new.steps.now) self.old.reader.now self.new.reader.now result }
        ensures on { ReadsOn self.old self.new }
    {
        let min = self.take_character(low);
        self.advance();
        let max = self.take_character(high);
        let span = Span::new(min.span.start, max.span.end);
        let range = CharacterClassRange { span, min, max };
        builder.inner.add_range(self.alloc, range)
    }

    /// Moves over a character that was found at the place, and gives it. What stands after a backslash and a letter are digits, and to have
    /// looked at each is a step.
    #[inline(always)]
    fn take_character(&mut self, found: CommonAtom) -> Character
        requires found { set_character_at (rest self.old.reader.now) ≡ escaped found.kind found.value found.length }
        requires code_points { All (λ unit. unit.value ≤ 0x10FFFF) (rest self.old.reader.now) }
        ensures gives { (e : Environment) → is_sets e.mode ≡ true → GivesSetCharacter e self.old.spans.now self.old.reader.now self.new.reader.now (Ok result) }
        ensures value { result.value ≡ found.value }
        ensures reader { self.new.reader.now ≡ move_on found.length self.old.reader.now }
        ensures steps { IsPaced 6 (C.count self.old.steps.now) (C.count self.new.steps.now) self.old.reader.now self.new.reader.now }
        ensures on { ReadsOn self.old self.new }
    {
        let start = self.offset();
        self.steps.add(found.length.saturating_sub(2));
        self.skip(found.length);
        Character {
            span: self.span_from(start),
            kind: found.kind,
            value: found.value,
        }
    }
}

/// The character that the units begin with in a class with `v`, where it is a unit that stands for itself or a common escape. `None` does
/// not mean that none stands there.
#[tactic(auto, using(crate::proofs::SetReading::Characters::set_character_is))]
#[inline(always)]
fn common_character_at<U: Unit>(units: &Ahead<'_, U>) -> Option<CommonAtom>
    ensures { IfSome result (λ it. set_character_at units.now ≡ escaped it.kind it.value it.length) }
{
    let Some((first, following)) = units.split_first() else {
        return None;
    };
    if first == '\\' as u32 {
        // Why: docs/DECISIONS.md, 131.
        let _ = following.len();
        let escape = common_escape_at(&following, true)?;
        return Some(CommonAtom {
            kind: escape.kind,
            value: escape.value,
            length: escape.length + 1,
        });
    }
    if !stands_raw(first, &following) {
        return None;
    }
    Some(CommonAtom {
        kind: unit_kind(units.escape_kind()),
        value: first,
        length: 1,
    })
}
