ghost use Rattle.std.specs.Prelude.{◌≡◌, ◌≢◌, ◌&&◌, ℕ, [], IsSome, OnErr, OnOk, Some, length, false, true, codes};
ghost use Rattle.rx_units.specs.Cursor.{rest};
ghost use Rattle.rx_units.specs.Pace.{IsMove, TakesSteps};
ghost use Rattle.rx_model.specs.Classes.ClassRuns.{is_whole, operand, with_operator};
ghost use Rattle.rx_model.specs.Inputs.Environment.{Environment};
ghost use Rattle.rx_model.specs.Classes.ClassTokens.{operator_text};
ghost use Rattle.rx_class.specs.Keeping.{KeepsUnits};
ghost use Rattle.rx_class.specs.SetReading.HeldMirror.{mirror_held};
ghost use Rattle.rx_class.specs.SetReading.Fronts.{Begins, BeginsBracket};
ghost use Rattle.rx_class.specs.SetReading.Progress.{AddsToSets, GivesTurn, IsOfSets, bracket_text, innermost_held};
ghost use Rattle.rx_class.specs.SetReading.WellBuilt.{IsWellBuilt};

use crate::reading::Reading;
use crate::sets::builder::ClassBuilder;
use crate::sets::held::Held;
use rx_base::{Counter, Fault, OutOfMemory, SetOperator};
use rx_units::UnitSource;

impl<S: UnitSource, C: Counter> Reading<'_, '_, '_, '_, '_, S, C> {
    ghost use Rattle.rx_class.specs.Readings.{ReadsOn};

    /// Reads the operator at the place. After it the innermost bracket holds `after`.
    pub(crate) fn operator(
        &mut self,
        builder: &mut ClassBuilder,
        operator: SetOperator,
        after: Held,
    )
        requires front { Begins (rest self.old.reader.now) (operator_text operator) }
        requires held { with_operator operator (innermost_held builder.old) ≡ Some (mirror_held after) }
        requires well { IsWellBuilt builder.old }
        ensures added { (e : Environment) (added : ℕ) → IsOfSets e self.old.reader.now → AddsToSets e added self.old.reader.now self.new.reader.now builder.old builder.new }
        ensures steps { IsMove (C.count self.old.steps.now) (C.count self.new.steps.now) self.old.reader.now self.new.reader.now }
        ensures on { ReadsOn self.old self.new }
    {
        let length = text(operator).len();
        self.skip(length);
        builder.join(operator, after);
    }

    /// Reads the bracket at the place, and opens it.
    #[inline(always)]
    pub(crate) fn open_bracket(
        &mut self,
        builder: &mut ClassBuilder,
        negative: bool,
    ) -> Result<(), OutOfMemory>
        requires front { BeginsBracket (rest self.old.reader.now) negative }
        requires operand { IsSome (operand (innermost_held builder.old)) }
        requires well { IsWellBuilt builder.old }
        ensures added { OnOk result ((e : Environment) → IsOfSets e self.old.reader.now → AddsToSets e self.old.spans.now self.old.reader.now self.new.reader.now builder.old builder.new) }
        ensures refused { OnErr result (KeepsUnits self.old.reader.now self.new.reader.now) }
        ensures steps { TakesSteps 6 (C.count self.old.steps.now) (C.count self.new.steps.now) self.old.reader.now self.new.reader.now result }
        ensures on { ReadsOn self.old self.new }
    {
        let start = self.here().start;
        self.skip(bracket_length(negative));
        builder.open(self.alloc, start, negative)
    }

    /// Reads the `]` at the place, and closes the innermost bracket, which is nested.
    pub(crate) fn close_bracket(&mut self, builder: &mut ClassBuilder) -> Result<(), Fault>
        requires front { Begins (rest self.old.reader.now) (codes "]") }
        requires nested { builder.old.outer ≢ [] }
        requires whole { is_whole (innermost_held builder.old) ≡ true }
        requires well { IsWellBuilt builder.old }
        ensures gives { (e : Environment) → IsOfSets e self.old.reader.now → GivesTurn e self.old.spans.now self.old.reader.now self.new.reader.now builder.old builder.new result }
        ensures steps { TakesSteps 6 (C.count self.old.steps.now) (C.count self.new.steps.now) self.old.reader.now self.new.reader.now result }
        ensures on { ReadsOn self.old self.new }
    {
        self.refuse_negative_strings(builder)?;
        Ok(self.close_nested(builder)?)
    }

    /// Reads the `]` at the place, and closes the innermost bracket, which is nested and not refused.
    #[inline(always)]
    pub(crate) fn close_nested(&mut self, builder: &mut ClassBuilder) -> Result<(), OutOfMemory>
        requires front { Begins (rest self.old.reader.now) (codes "]") }
        requires nested { builder.old.outer ≢ [] }
        requires whole { is_whole (innermost_held builder.old) ≡ true }
        requires no_strings { (builder.old.inner.negative && builder.old.inner.strings) ≡ false }
        requires well { IsWellBuilt builder.old }
        ensures added { OnOk result ((e : Environment) → IsOfSets e self.old.reader.now → AddsToSets e self.old.spans.now self.old.reader.now self.new.reader.now builder.old builder.new) }
        ensures refused { OnErr result (KeepsUnits self.old.reader.now self.new.reader.now) }
        ensures steps { TakesSteps 6 (C.count self.old.steps.now) (C.count self.new.steps.now) self.old.reader.now self.new.reader.now result }
        ensures on { ReadsOn self.old self.new }
    {
        self.advance();
        let last = self.peek() == Some(']' as u32);
        builder.close(self.alloc, self.here().start, last)
    }
}

/// How an operator is written.
fn text(operator: SetOperator) -> &'static str
    ensures { result.now ≡ operator_text operator }
{
    match operator {
        SetOperator::Intersection => "&&",
        SetOperator::Subtraction => "--",
    }
}

/// How many units `[` or `[^` has.
fn bracket_length(negative: bool) -> usize
    ensures { result ≡ length (bracket_text negative) }
{
    if negative { 2 } else { 1 }
}
