ghost use Rattle.std.specs.Prelude.{[], true, false, if◌then◌else◌, ◌≡◌, ◌≤◌, ◌<◌, ◌+◌, ◌-◌, None, Some, IfOk, OnOk, IfSome, length, slice_get};
ghost use Rattle.rx_match.specs.Runs.{bind, code_run, run_onward, slot_to as slot_leads};
ghost use Rattle.rx_program.specs.Codes.{choose, sequence};
ghost use Rattle.rx_trace.specs.Groups.{slot_of};
ghost use Rattle.rx_trace.specs.Holding.{boundary_holds as boundary_at};
ghost use Rattle.rx_match.specs.Kinds.{ticks_in};
ghost use Rattle.rx_program.specs.Steps.{code_at};
ghost use Rattle.rx_match.specs.MachineSteps.{KeepsRun, IsRun, IsSound, Progresses, TakesMarks, PushesFrame, continuation_of, run_of, run_ahead, state_of, run_after_tick, with_backtracking};

use crate::entry::{Backtrack, Frame, Pending};
use crate::holds::{boundary_holds, slot_to, unit_to};
use crate::kinds::{does_tick, repetition_at, step_at};
use crate::turns::Repetition;
use rx_ast::{BoundaryAssertionKind, LookAroundAssertionKind};
use rx_base::{List, OutOfMemory};
use rx_program::{Step, looks_back, slot_among};
use rx_trace::Slot;

/// What a machine does, and what it has left for later.
// Why: docs/DECISIONS.md, 76.
#[derive(Drop)]
pub struct Machine<'a> {
    pub program: &'a [Step<'a>],
    pub input: &'a [u32],
    pub frames: List<Frame>,
    pub entries: List<Backtrack>,
    pub slots: Vec<Slot>,
    pub saved: Vec<usize>,
    pub place: usize,
    pub step: usize,
    pub head: usize,
    pub back: bool,
    pub depth: usize,
    pub budget: u64,
}

/// What a machine is to do now.
#[derive(Clone, Copy)]
pub enum Action {
    Step,
    Backtrack,
    Repeat {
        repeat: usize,
        min: u64,
        max: Option<u64>,
    },
    BeginTurn {
        repeat: usize,
        min: u64,
        max: Option<u64>,
    },
}

/// What came of one thing that a machine did.
#[derive(Clone, Copy)]
pub enum Progress {
    Continue(Action),
    NoMatch,
    Match,
    Spent,
}

impl<'a> Machine<'a> {
    /// Makes one thing more wait, above what waits already.
    pub fn push_frame(&mut self, pending: Pending) -> Result<(), OutOfMemory>
        requires { IsSound self.old }
        ensures { OnOk result (PushesFrame self.old self.new pending) }
    {
        let below = self.head;
        self.frames.push(Frame { pending, below })?;
        self.head = self.frames.len();
        Ok(())
    }

    /// Tries the first, and leaves the other for later.
    pub fn choose(&mut self, first: usize, other: usize) -> Result<Action, OutOfMemory>
        requires { IsSound self.old }
        ensures { IfOk result (λ now. TakesMarks self.old self.new (run_of self.old (choose (code_at self.old.program.now first) (code_at self.old.program.now other))) (run_ahead self.new now)) }
    {
        let frames = self.frames.len();
        self.entries.push(Backtrack::Choice {
            place: self.place,
            earlier: 0,
            step: other,
            head: self.head,
            frames,
        })?;
        self.step = first;
        Ok(Action::Step)
    }

    /// Does the first, and then the second.
    pub fn sequence(&mut self, first: usize, second: usize) -> Result<Action, OutOfMemory>
        requires { IsSound self.old }
        ensures { IfOk result (λ now. TakesMarks self.old self.new (run_of self.old (sequence (code_at self.old.program.now first) (code_at self.old.program.now second))) (run_ahead self.new now)) }
    {
        self.push_frame(Pending::Next { next: second })?;
        self.step = first;
        Ok(Action::Step)
    }

    /// Moves to a place, or fails where there is none.
    pub fn move_to(&mut self, to: Option<usize>, next: usize) -> Action
        requires sound { IsSound self.old }
        requires within { IfSome to (λ q. q ≤ length self.old.input.now) }
        ensures { KeepsRun self.old self.new (with_backtracking self.old (bind (run_onward to (state_of self.old) (code_run self.old.input.now (code_at self.old.program.now next) self.old.back)) (continuation_of self.old))) (run_ahead self.new result) }
    {
        match to {
            None => Action::Backtrack,
            Some(place) => {
                self.place = place;
                self.step = next;
                Action::Step
            }
        }
    }

    /// A group begins to capture.
    pub fn capture(&mut self, group: usize, body: usize, next: usize) -> Result<Action, OutOfMemory>
        requires { IsSound self.old }
        ensures { IfOk result (λ now. KeepsRun self.old self.new (run_after_tick self.old (Step.Capture group body next)) (run_ahead self.new now)) }
    {
        let start = self.place;
        self.push_frame(Pending::CloseGroup { group, start, next })?;
        self.step = body;
        Ok(Action::Step)
    }

    /// A look-around begins.
    pub fn look_around(
        &mut self,
        kind: LookAroundAssertionKind,
        body: usize,
        next: usize,
    ) -> Result<Action, OutOfMemory>
        requires { IsSound self.old }
        ensures { IfOk result (λ now. KeepsRun self.old self.new (run_after_tick self.old (Step.LookAround kind body next)) (run_ahead self.new now)) }
    {
        let frames = self.frames.len();
        self.entries.push(Backtrack::LookAround {
            place: self.place,
            kind,
            next,
            head: self.head,
            frames,
            back: self.back,
        })?;
        let entries = self.entries.len();
        prove!(self.depth < entries);
        self.depth += 1;
        self.head = 0;
        self.back = looks_back(kind);
        self.step = body;
        Ok(Action::Step)
    }
}

impl<'a> Machine<'a> {
    /// What a step does after its Tick.
    fn act_after_tick(&mut self, step: &Step<'a>) -> Result<Action, OutOfMemory>
        requires sound { IsSound self.old }
        requires at { slice_get self.old.program.now self.old.step ≡ Some step.now }
        requires ticks { ticks_in step.now ≡ true }
        ensures { IfOk result (λ now. KeepsRun self.old self.new (run_after_tick self.old step.now) (run_ahead self.new now)) }
    {
        match *step {
            Step::Consume { test, next } => {
                let to = unit_to(self.input, self.back, test, self.place);
                Ok(self.move_to(to, next))
            }
            Step::Assert {
                kind,
                multiline,
                next,
            } => Ok(self.assert(kind, multiline, next)),
            Step::Refer { number, next } => Ok(self.refer(self.slot(number), next)),
            Step::ReferByName { numbers, next } => {
                let slot = slot_among(numbers, self.slots.as_slice());
                Ok(self.refer(slot, next))
            }
            Step::EnterGroup { next } => {
                self.step = next;
                Ok(Action::Step)
            }
            Step::Capture { group, body, next } => self.capture(group, body, next),
            Step::LookAround { kind, body, next } => self.look_around(kind, body, next),
            Step::Repeat { turns, .. } => Ok(Action::Repeat {
                repeat: self.step,
                min: turns.min,
                max: turns.max,
            }),
            Step::Accept => unreachable!(),
            Step::Reject => unreachable!(),
            Step::Choose { .. } => unreachable!(),
            Step::Sequence { .. } => unreachable!(),
        }
    }

    /// Goes over units equal to those of a slot, where they stand.
    fn refer(&mut self, slot: Slot, next: usize) -> Action
        requires { IsSound self.old }
        ensures { KeepsRun self.old self.new (with_backtracking self.old (bind (run_onward (slot_leads self.old.input.now self.old.back slot self.old.place) (state_of self.old) (code_run self.old.input.now (code_at self.old.program.now next) self.old.back)) (continuation_of self.old))) (run_ahead self.new result) }
    {
        let to = slot_to(self.input, self.back, slot, self.place);
        self.move_to(to, next)
    }

    /// The slot of the group of a number, from 1.
    fn slot(&self, number: usize) -> Slot
        ensures { result ≡ slot_of self.now.slots.items number }
    {
        if number == 0 || number > self.slots.len() {
            Slot::Unset
        } else {
            self.slots[number - 1]
        }
    }

    /// Goes on where a boundary holds.
    fn assert(&mut self, kind: BoundaryAssertionKind, multiline: bool, next: usize) -> Action
        requires { IsSound self.old }
        ensures { KeepsRun self.old self.new (with_backtracking self.old (bind (if boundary_at multiline self.old.input.now kind self.old.place then code_run self.old.input.now (code_at self.old.program.now next) self.old.back (state_of self.old) else []) (continuation_of self.old))) (run_ahead self.new result) }
    {
        if boundary_holds(kind, multiline, self.input, self.place) {
            self.step = next;
            Action::Step
        } else {
            Action::Backtrack
        }
    }

    /// A step that ticks.
    fn pay(&mut self, step: &Step<'a>) -> Result<Progress, OutOfMemory>
        requires sound { IsSound self.old }
        requires at { slice_get self.old.program.now self.old.step ≡ Some step.now }
        requires ticks { ticks_in step.now ≡ true }
        ensures { IfOk result (λ it. Progresses self.old self.new (run_ahead self.old Action.Step) it) }
    {
        if self.budget == 0 {
            return Ok(Progress::Spent);
        }
        self.budget -= 1;
        Ok(Progress::Continue(self.act_after_tick(step)?))
    }

    /// The step that the machine stands at.
    fn advance(&mut self) -> Result<Progress, OutOfMemory>
        requires { IsSound self.old }
        ensures { IfOk result (λ it. Progresses self.old self.new (run_ahead self.old Action.Step) it) }
    {
        let Some(step) = step_at(self.program, self.step) else {
            return Ok(Progress::Continue(Action::Backtrack));
        };
        let ticks = does_tick(step);
        if ticks {
            return self.pay(step);
        }
        self.act_without_tick(step)
    }

    /// A step that does not tick.
    fn act_without_tick(&mut self, step: &Step<'a>) -> Result<Progress, OutOfMemory>
        requires sound { IsSound self.old }
        requires at { slice_get self.old.program.now self.old.step ≡ Some step.now }
        requires ticks { ticks_in step.now ≡ false }
        ensures { IfOk result (λ it. Progresses self.old self.new (run_ahead self.old Action.Step) it) }
    {
        match *step {
            Step::Accept => self.accept(),
            Step::Choose { first, other } => Ok(Progress::Continue(self.choose(first, other)?)),
            Step::Sequence { first, second } => Ok(Progress::Continue(self.sequence(
                first, second,
            )?)),
            Step::Reject => Ok(Progress::Continue(Action::Backtrack)),
            Step::Consume { .. } => unreachable!(),
            Step::Assert { .. } => unreachable!(),
            Step::Refer { .. } => unreachable!(),
            Step::ReferByName { .. } => unreachable!(),
            Step::EnterGroup { .. } => unreachable!(),
            Step::Capture { .. } => unreachable!(),
            Step::LookAround { .. } => unreachable!(),
            Step::Repeat { .. } => unreachable!(),
        }
    }

    /// Does one thing of what is to be done.
    pub fn act(&mut self, now: Action) -> Result<Progress, OutOfMemory>
        requires { IsSound self.old }
        ensures { IfOk result (λ it. Progresses self.old self.new (run_ahead self.old now) it) }
    {
        match now {
            Action::Step => self.advance(),
            Action::Backtrack => self.backtrack(),
            Action::Repeat { repeat, min, max } => {
                Ok(Progress::Continue(self.on_repeat(repeat, min, max)?))
            }
            Action::BeginTurn { repeat, min, max } => {
                Ok(Progress::Continue(self.on_begin_turn(repeat, min, max)?))
            }
        }
    }

    fn on_repeat(
        &mut self,
        repeat: usize,
        min: u64,
        max: Option<u64>,
    ) -> Result<Action, OutOfMemory>
        requires { IsSound self.old }
        ensures { IfOk result (λ now. TakesMarks self.old self.new (run_ahead self.old (Action.Repeat repeat min max)) (run_ahead self.new now)) }
    {
        let Some(parts) = repetition_at(self.program, repeat) else {
            return Ok(Action::Backtrack);
        };
        let it = Repetition {
            repeat,
            parts,
            min,
            max,
        };
        match self.unit_of_turns(parts, max) {
            None => self.repeat(it),
            Some(test) => self.turns_over_units(it, test),
        }
    }

    fn on_begin_turn(
        &mut self,
        repeat: usize,
        min: u64,
        max: Option<u64>,
    ) -> Result<Action, OutOfMemory>
        requires { IsSound self.old }
        ensures { IfOk result (λ now. TakesMarks self.old self.new (run_ahead self.old (Action.BeginTurn repeat min max)) (run_ahead self.new now)) }
    {
        let Some(parts) = repetition_at(self.program, repeat) else {
            return Ok(Action::Backtrack);
        };
        let it = Repetition {
            repeat,
            parts,
            min,
            max,
        };
        match self.unit_of_turn(parts) {
            None => self.begin_turn(it),
            Some(test) => Ok(self.turn_over_unit(it, test)),
        }
    }

    /// Does all that is to be done, up to the first state.
    pub fn run(&mut self) -> Result<Progress, OutOfMemory>
        requires { IsSound self.old }
        ensures { IfOk result (λ it. IsRun self.old self.new (run_ahead self.old Action.Step) it) }
    {
        let mut now = Action::Step;
        loop {
            match self.act(now)? {
                Progress::Continue(next) => now = next,
                Progress::NoMatch => return Ok(Progress::NoMatch),
                Progress::Match => return Ok(Progress::Match),
                Progress::Spent => return Ok(Progress::Spent),
            }
        }
    }
}
