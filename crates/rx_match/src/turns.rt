ghost use Rattle.std.specs.Prelude.{true, false, ◌≡◌, IfOk};
ghost use Rattle.rx_match.specs.MachineSteps.{HasRepetition, IsFree, TakesRepetition, TakesTurn};

use crate::entry::{Backtrack, Pending};
use crate::kinds::{Repeated, is_over};
use crate::machine::{Action, Machine};
use crate::slots::unset_slots;
use rx_base::OutOfMemory;

/// A repetition that a machine comes to: the number of its step, its parts, how many turns are owed, and how many are allowed.
#[derive(Clone, Copy)]
pub struct Repetition {
    pub repeat: usize,
    pub parts: Repeated,
    pub min: u64,
    pub max: Option<u64>,
}

/// Turns of a repetition.
impl<'a> Machine<'a> {
    /// A repetition from where the machine stands.
    pub fn repeat(&mut self, it: Repetition) -> Result<Action, OutOfMemory>
        requires { HasRepetition self.old it }
        ensures { IfOk result (λ now. TakesRepetition self.old self.new it now) }
    {
        let over = is_over(it.max);
        if over {
            self.step = it.parts.next;
            return Ok(Action::Step);
        }
        if it.min > 0 {
            return Ok(Action::BeginTurn {
                repeat: it.repeat,
                min: it.min,
                max: it.max,
            });
        }
        if it.parts.turns.greedy {
            return self.begin_or_leave(it);
        }
        self.leave_or_begin(it)
    }

    /// A turn that is not owed, and for later none.
    fn begin_or_leave(&mut self, it: Repetition) -> Result<Action, OutOfMemory>
        requires stands { HasRepetition self.old it }
        requires free { IsFree it }
        requires greedy { it.parts.turns.greedy ≡ true }
        ensures { IfOk result (λ now. TakesRepetition self.old self.new it now) }
    {
        let frames = self.frames.len();
        self.entries.push(Backtrack::Choice {
            place: self.place,
            earlier: 0,
            step: it.parts.next,
            head: self.head,
            frames,
        })?;
        Ok(Action::BeginTurn {
            repeat: it.repeat,
            min: it.min,
            max: it.max,
        })
    }

    /// No turn, and for later one.
    fn leave_or_begin(&mut self, it: Repetition) -> Result<Action, OutOfMemory>
        requires stands { HasRepetition self.old it }
        requires free { IsFree it }
        requires lazy { it.parts.turns.greedy ≡ false }
        ensures { IfOk result (λ now. TakesRepetition self.old self.new it now) }
    {
        let frames = self.frames.len();
        self.entries.push(Backtrack::Turn {
            place: self.place,
            repeat: it.repeat,
            min: it.min,
            max: it.max,
            head: self.head,
            frames,
        })?;
        self.step = it.parts.next;
        Ok(Action::Step)
    }

    /// A turn of a repetition.
    pub fn begin_turn(&mut self, it: Repetition) -> Result<Action, OutOfMemory>
        requires { HasRepetition self.old it }
        ensures { IfOk result (λ now. TakesTurn self.old self.new it now) }
    {
        unset_slots(
            &mut self.entries,
            &mut self.slots,
            &mut self.saved,
            it.parts.turns.from,
            it.parts.turns.count,
        )?;
        let start = self.place;
        self.push_frame(Pending::EndTurn {
            min: it.min,
            max: it.max,
            start,
            repeat: it.repeat,
        })?;
        self.step = it.parts.body;
        Ok(Action::Step)
    }
}
