ghost use Rattle.std.specs.Prelude.{◌≡◌, ◌↔◌, Err, IsTrue, MatchResult, true};
ghost use Rattle.rx_base.specs.Ascii as ascii;
ghost use Rattle.rx_units.specs.Cursor.{rest};
ghost use Rattle.rx_units.specs.Pace.{TakesSteps};
ghost use Rattle.rx_units.specs.Units.{values};
ghost use Rattle.rx_model.specs.FirstPass.Marks.{starts};
ghost use Rattle.rx_class.specs.ClassReading.Answers.{GivesOneClass};
ghost use Rattle.rx_class.specs.EscapeReading.Answers.{environment_of};
ghost use Rattle.rx_class.specs.SetReading.Progress.{ClosesSets, EndsSets, GivesTurn, IsOfSets};
ghost use Rattle.rx_class.specs.SetReading.WellBuilt.{IsWellBuilt};

use crate::reading::Reading;
use crate::sets::builder::ClassBuilder;
use crate::sets::front::{begins_with, set_front_at};
use crate::sets::turn::{Turn, next_turn};
use rx_ast::CharacterClass;
use rx_base::{Counter, Fault, SetOperator};
use rx_units::UnitSource;

impl<S: UnitSource, C: Counter> Reading<'_, '_, '_, '_, '_, S, C> {
    ghost use Rattle.rx_class.specs.Readings.{ReadsOn};

    /// Reads the class with `v` (CharacterClass and ClassSetExpression of ECMA-262, 22.2.1) whose `[` is at the place, and moves
    /// over it.
    pub(crate) fn sets_mode_class(&mut self) -> Result<CharacterClass, Fault>
        requires bracket { starts ascii.left_bracket (values (rest self.old.reader.now)) ≡ true }
        requires sets { IsOfSets (environment_of self.old.state.now) self.old.reader.now }
        ensures gives { GivesOneClass (environment_of self.old.state.now) self.old.spans.now self.old.reader.now self.new.reader.now result }
        ensures steps { TakesSteps 6 (C.count self.old.steps.now) (C.count self.new.steps.now) self.old.reader.now self.new.reader.now result }
        ensures on { ReadsOn self.old self.new }
    {
        let start = self.here().start;
        let negative = self.class_opener();
        let mut builder = ClassBuilder::new(self.alloc, start, negative);
        while !self.set_class_ends(&builder) {
            self.take_turn(&mut builder)?;
        }
        self.finish_sets(builder)
    }

    /// Whether the class's own `]` is at the place, and its contents are whole.
    fn set_class_ends(&self, builder: &ClassBuilder) -> bool
        ensures { IsTrue result ↔ EndsSets self.now.reader.now builder.now }
    {
        begins_with(&self.units(), ']') && builder.is_outermost() && builder.inner.held.is_whole()
    }

    /// Reads the class's own `]`, which is at the place, and gives the class. It is refused where it is negative and may contain strings.
    fn finish_sets(&mut self, builder: ClassBuilder) -> Result<CharacterClass, Fault>
        requires ends { EndsSets self.old.reader.now builder }
        requires sets { IsOfSets (environment_of self.old.state.now) self.old.reader.now }
        requires well { IsWellBuilt builder }
        ensures gives { MatchResult result (ClosesSets self.old.spans.now self.old.reader.now self.new.reader.now builder)
            (λ fault. GivesTurn (environment_of self.old.state.now) self.old.spans.now self.old.reader.now self.new.reader.now builder builder (Err fault)) }
        ensures steps { TakesSteps 6 (C.count self.old.steps.now) (C.count self.new.steps.now) self.old.reader.now self.new.reader.now result }
        ensures on { ReadsOn self.old self.new }
    {
        self.refuse_negative_strings(&builder)?;
        self.advance();
        Ok(builder.finish(self.here().start))
    }

    /// Reads what is at the place in the innermost open bracket, but for the class's own `]`: what is common there is looked for first.
    #[inline(always)]
    fn take_turn(&mut self, builder: &mut ClassBuilder) -> Result<(), Fault>
        requires sets { IsOfSets (environment_of self.old.state.now) self.old.reader.now }
        requires well { IsWellBuilt builder.old }
        requires goes_on { EndsSets self.old.reader.now builder.old → ⊥ }
        ensures gives { GivesTurn (environment_of self.old.state.now) self.old.spans.now self.old.reader.now self.new.reader.now builder.old builder.new result }
        ensures steps { TakesSteps 6 (C.count self.old.steps.now) (C.count self.new.steps.now) self.old.reader.now self.new.reader.now result }
        ensures on { ReadsOn self.old self.new }
    {
        if self.take_common_turn(builder)? {
            return Ok(());
        }
        self.read_turn(builder)
    }

    /// Reads what is at the place in the innermost open bracket, but for the class's own `]`.
    #[inline(never)]
    fn read_turn(&mut self, builder: &mut ClassBuilder) -> Result<(), Fault>
        requires sets { IsOfSets (environment_of self.old.state.now) self.old.reader.now }
        requires well { IsWellBuilt builder.old }
        requires goes_on { EndsSets self.old.reader.now builder.old → ⊥ }
        ensures gives { GivesTurn (environment_of self.old.state.now) self.old.spans.now self.old.reader.now self.new.reader.now builder.old builder.new result }
        ensures steps { TakesSteps 6 (C.count self.old.steps.now) (C.count self.new.steps.now) self.old.reader.now self.new.reader.now result }
        ensures on { ReadsOn self.old self.new }
    {
        let held = builder.inner.held;
        if held.is_pending(SetOperator::Intersection) && begins_with(&self.units(), '&') {
            return Err(self.third_ampersand(builder));
        }
        let front = set_front_at(&self.reader.ahead(), self.steps);
        match next_turn(front, held) {
            Turn::Close => self.close_bracket(builder),
            Turn::Operator { operator, after } => {
                self.operator(builder, operator, after);
                Ok(())
            }
            Turn::Open { negative } => Ok(self.open_bracket(builder, negative)?),
            Turn::Strings(after) => self.strings_operand(builder, after),
            Turn::Character { found, after } => self.character_operand(builder, found, after),
            Turn::Escape { kind, after } => self.escape_operand(builder, kind, after),
            Turn::Property(after) => self.property_operand(builder, after),
            Turn::Nothing => Err(self.nothing_follows(builder)),
        }
    }
}
