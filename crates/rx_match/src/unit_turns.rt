ghost use Rattle.std.specs.Prelude.{false, ◌≡◌, ◌≤◌, ◌<◌, ◌-◌, None, Some, IfOk, IfSome};
ghost use Rattle.rx_match.specs.Runs.{unit_to as unit_leads};
ghost use Rattle.rx_program.specs.Steps.{test_holds};
ghost use Rattle.rx_trace.specs.Repeats.{is_over as over};
ghost use Rattle.rx_match.specs.MachineSteps.{HasRepetition, IsOverUnit, IsOverUnits, IsSound, TakesRepetition, TakesTurn};

use crate::entry::Places;
use crate::holds::{place_after_units, unit_to};
use crate::kinds::{Repeated, is_over, less_by, most_turns, one_less, unit_test};
use crate::machine::{Action, Machine};
use crate::turns::Repetition;
use rx_base::OutOfMemory;
use rx_program::{Step, Test};
use rx_trace::Slot;

/// Turns of a repetition whose body is one unit. They need no frame.
impl<'a> Machine<'a> {
    /// The test of the unit, where a turn can be made.
    pub fn unit_of_turn(&self, it: Repeated) -> Option<Test<'a>>
        requires { IsSound self.now }
        ensures { IfSome result (λ test. IsOverUnit self.now it test) }
    {
        if self.budget == 0 {
            return None;
        }
        unit_test(self.program, it)
    }

    /// The test of the unit, where as many turns as there are can be made at once.
    pub fn unit_of_turns(&self, it: Repeated, max: Option<u64>) -> Option<Test<'a>>
        requires { IsSound self.now }
        ensures { IfSome result (λ test. IsOverUnits self.now it max test) }
    {
        let over = is_over(max);
        if over {
            return None;
        }
        if self.back {
            return None;
        }
        if !it.turns.greedy {
            return None;
        }
        self.unit_of_turn(it)
    }

    /// A turn.
    pub fn turn_over_unit(&mut self, it: Repetition, test: Test<'a>) -> Action
        requires stands { HasRepetition self.old it }
        requires unit { IsOverUnit self.old it.parts test }
        ensures { TakesTurn self.old self.new it result }
    {
        self.budget -= 1;
        match unit_to(self.input, self.back, test, self.place) {
            None => Action::Backtrack,
            Some(place) => {
                self.place = place;
                Action::Repeat {
                    repeat: it.repeat,
                    min: it.min.saturating_sub(1),
                    max: one_less(it.max),
                }
            }
        }
    }

    /// All turns that there are, each of which may be given back later.
    // Why: docs/DECISIONS.md, 78.
    pub fn turns_over_units(
        &mut self,
        it: Repetition,
        test: Test<'a>,
    ) -> Result<Action, OutOfMemory>
        requires stands { HasRepetition self.old it }
        requires units { IsOverUnits self.old it.parts it.max test }
        ensures { IfOk result (λ now. TakesRepetition self.old self.new it now) }
    {
        let most = most_turns(it.max, self.budget);
        let place = place_after_units(self.input, test, self.place, most);
        let turns = (place - self.place) as u64;
        if turns == 0 {
            return Ok(self.leave_before_unit(it, test));
        }
        let earlier = turns.saturating_sub(it.min) as usize;
        self.leave_earlier(Places { place, earlier }, it.parts.next)?;
        self.place = place;
        self.budget -= turns;
        Ok(Action::Repeat {
            repeat: it.repeat,
            min: it.min.saturating_sub(turns),
            max: less_by(it.max, turns),
        })
    }

    /// Pays for a turn that fails; so none is made, which fails too if one is owed.
    fn leave_before_unit(&mut self, it: Repetition, test: Test<'a>) -> Action
        requires stands { HasRepetition self.old it }
        requires units { IsOverUnits self.old it.parts it.max test }
        requires none { unit_leads self.old.input.now false (test_holds test) self.old.place ≡ None }
        ensures { TakesRepetition self.old self.new it result }
    {
        self.budget -= 1;
        if it.min > 0 {
            return Action::Backtrack;
        }
        self.step = it.parts.next;
        Action::Step
    }
}
