ghost use Rattle.std.specs.Prelude.{◌≡◌, ◌&&◌, Err, MatchResult, false, true, codes};
ghost use Rattle.rx_base.specs.Ascii as ascii;
ghost use Rattle.rx_base.specs.declared.diagnostic.kinds.SetOperator.TheVariants.{Intersection};
ghost use Rattle.rx_units.specs.Cursor.{rest};
ghost use Rattle.rx_units.specs.Pace.{IsMove, TakesSteps};
ghost use Rattle.rx_units.specs.Units.{values};
ghost use Rattle.rx_model.specs.Classes.ClassRuns.{is_whole, pending};
ghost use Rattle.rx_model.specs.FirstPass.Marks.{starts};
ghost use Rattle.rx_model.specs.Inputs.Environment.{Environment};
ghost use Rattle.rx_model.specs.Refusals.ClassCauses.{of_negative, unterminated};
ghost use Rattle.rx_class.specs.SetReading.Fronts.{Begins};
ghost use Rattle.rx_class.specs.SetReading.Progress.{GivesTurn, IsOfSets, SaysNothing, StandsNothing, innermost_held, is_nested};

use crate::reading::Reading;
use crate::sets::builder::ClassBuilder;
use rx_base::{Counter, Diagnostic, Fault, Span, Unterminated};
use rx_units::UnitSource;

impl<S: UnitSource, C: Counter> Reading<'_, '_, '_, '_, '_, S, C> {
    ghost use Rattle.rx_class.specs.Readings.{ReadsOn};

    /// Refuses the `&` at the place, after a `&&`.
    pub(crate) fn third_ampersand(&mut self, builder: &ClassBuilder) -> Fault
        requires ampersand { starts ascii.ampersand (values (rest self.old.reader.now)) ≡ true }
        requires held { innermost_held builder.now ≡ pending Intersection }
        ensures gives { (e : Environment) → IsOfSets e self.old.reader.now → GivesTurn e self.old.spans.now self.old.reader.now self.new.reader.now builder.now builder.now (Err result) }
        ensures steps { IsMove (C.count self.old.steps.now) (C.count self.new.steps.now) self.old.reader.now self.new.reader.now }
        ensures on { ReadsOn self.old self.new }
    {
        let span = self.read_span(0, 1);
        Fault::Diagnostic(Diagnostic::ClassIntersectionUnexpectedAmpersand { span })
    }

    /// Refuses a bracket that is negative and may contain strings, whose `]` is at the place.
    // Why: docs/DECISIONS.md, 43.
    pub(crate) fn refuse_negative_strings(&mut self, builder: &ClassBuilder) -> Result<(), Fault>
        requires front { Begins (rest self.old.reader.now) (codes "]") }
        requires whole { is_whole (innermost_held builder.now) ≡ true }
        ensures gives { MatchResult result
            (λ none. (self.new.reader.now ≡ self.old.reader.now) × ((builder.now.inner.negative && builder.now.inner.strings) ≡ false))
            (λ fault. (e : Environment) → IsOfSets e self.old.reader.now → GivesTurn e self.old.spans.now self.old.reader.now self.new.reader.now builder.now builder.now (Err fault)) }
        ensures steps { TakesSteps 6 (C.count self.old.steps.now) (C.count self.new.steps.now) self.old.reader.now self.new.reader.now result }
        ensures on { ReadsOn self.old self.new }
    {
        if builder.inner.is_refused() {
            self.advance();
            let span = Span::new(builder.inner.start, self.here().end);
            return Err(Fault::Diagnostic(of_negative(builder, span)));
        }
        Ok(())
    }

    /// Refuses what is at the place, since it may not follow in the innermost bracket.
    #[tactic(auto, using(crate::proofs::SetReading::Refusals::nothing_gives))]
    pub(crate) fn nothing_follows(&self, builder: &ClassBuilder) -> Fault
        ensures { (e : Environment) → IsOfSets e self.now.reader.now → StandsNothing e self.now.reader.now builder.now → GivesTurn e self.now.spans.now self.now.reader.now self.now.reader.now builder.now builder.now (Err result) }
    {
        Fault::Diagnostic(self.nothing_stands(builder))
    }

    /// Why what is at the place may not follow.
    fn nothing_stands(&self, builder: &ClassBuilder) -> Diagnostic
        ensures { SaysNothing self.now.spans.now self.now.reader.now builder.now result }
    {
        let held = builder.inner.held;
        let span = self.here();
        if let Some(what) = held.operator() {
            return Diagnostic::ClassSetExpressionInvalidCharacter { span, what };
        }
        if held.is_empty() && self.peek().is_some() {
            return Diagnostic::EmptyClassSetExpression { span };
        }
        Diagnostic::UnterminatedPattern {
            span: Span::new(builder.inner.start, span.end),
            what: unterminated(builder),
        }
    }
}

/// What is said of a negative bracket that may contain strings.
fn of_negative(builder: &ClassBuilder, span: Span) -> Diagnostic
    ensures { result ≡ of_negative (is_nested builder.now) span }
{
    if builder.is_outermost() {
        Diagnostic::InvalidCharacterClass { span }
    } else {
        Diagnostic::CharacterClassContentsInvalidOperands { span }
    }
}

/// What does not end: the class, or the innermost bracket in it.
fn unterminated(builder: &ClassBuilder) -> Unterminated
    ensures { result ≡ unterminated (is_nested builder.now) }
{
    if builder.is_outermost() {
        Unterminated::CharacterClass
    } else {
        Unterminated::NestedClass
    }
}
