ghost use Rattle.std.specs.Prelude.{[], ◌≡◌, ◌≤◌, ◌<◌, ◌-◌, None, Some, IfOk, OnOk, length, slice_get};
ghost use Rattle.rx_program.specs.Codes.{accept};
ghost use Rattle.rx_match.specs.MachineSteps.{ForgetsFrames, IsSound, Progresses, Resumes, TakesMarks, TakesUp, run_of, run_ahead, return_machine, with_backtracking, with_earlier, with_entry};

use crate::cut::{cut, cut_frames, kept_frames};
use crate::entry::{Backtrack, Frame, OpenLookAround, Pending, Places};
use crate::kinds::{is_negative, one_less};
use crate::machine::{Action, Machine, Progress};
use crate::slots::{restore_slot, set_slot};
use rx_base::OutOfMemory;
use rx_program::Step;
use rx_trace::Slot;

/// Where a body ends.
impl<'a> Machine<'a> {
    /// The end of a body.
    pub fn accept(&mut self) -> Result<Progress, OutOfMemory>
        requires { IsSound self.old }
        ensures { IfOk result (λ it. Progresses self.old self.new (run_of self.old accept) it) }
    {
        if self.head == 0 {
            return self.accept_alone();
        }
        let frame = self.frames.as_slice()[self.head - 1];
        let action = self.resume(frame)?;
        self.forget_frames();
        Ok(Progress::Continue(action))
    }

    /// Goes on with what waits.
    fn resume(&mut self, frame: Frame) -> Result<Action, OutOfMemory>
        requires sound { IsSound self.old }
        requires pending { 0 < self.old.head }
        requires is { slice_get self.old.frames (self.old.head - 1) ≡ Some frame }
        ensures { IfOk result (λ now. TakesMarks self.old self.new (run_of self.old accept) (run_ahead self.new now)) }
    {
        self.head = frame.below;
        match frame.pending {
            Pending::Next { next } => {
                self.step = next;
                Ok(Action::Step)
            }
            Pending::CloseGroup { group, start, next } => {
                let end = self.place;
                let slot = Slot::Set {
                    start: start.min(end),
                    end: start.max(end),
                };
                set_slot(
                    &mut self.entries,
                    &mut self.slots,
                    &mut self.saved,
                    group,
                    slot,
                )?;
                self.step = next;
                Ok(Action::Step)
            }
            Pending::EndTurn {
                min,
                max,
                start,
                repeat,
            } => {
                if min == 0 && self.place == start {
                    return Ok(Action::Backtrack);
                }
                Ok(Action::Repeat {
                    repeat,
                    min: min.saturating_sub(1),
                    max: one_less(max),
                })
            }
        }
    }

    /// Takes off the frames that neither the machine nor anything left for later comes back to.
    // Why: docs/DECISIONS.md, 79.
    fn forget_frames(&mut self)
        requires { IsSound self.old }
        ensures { ForgetsFrames self.old self.new }
    {
        let kept = self.head.max(kept_frames(&self.entries));
        if kept < self.frames.len() {
            cut_frames(&mut self.frames, kept);
        }
    }

    /// Nothing waits: the whole pattern was matched, or the body of a look-around.
    fn accept_alone(&mut self) -> Result<Progress, OutOfMemory>
        requires sound { IsSound self.old }
        requires alone { self.old.head ≡ 0 }
        ensures { IfOk result (λ it. Progresses self.old self.new (run_of self.old accept) it) }
    {
        if self.depth == 0 {
            return Ok(Progress::Match);
        }
        let Some(it) = cut(&mut self.entries)? else {
            unreachable!()
        };
        self.depth -= 1;
        self.back = it.back;
        if is_negative(it.kind) {
            return Ok(Progress::Continue(Action::Backtrack));
        }
        self.return_to(it.place, it.head, it.frames);
        self.step = it.next;
        Ok(Progress::Continue(Action::Step))
    }
}

/// What was left for later.
impl<'a> Machine<'a> {
    /// Goes on with what was left, the last first.
    pub fn backtrack(&mut self) -> Result<Progress, OutOfMemory>
        requires { IsSound self.old }
        ensures { IfOk result (λ it. Progresses self.old self.new (with_backtracking self.old []) it) }
    {
        while let Some(entry) = self.entries.pop() {
            if let Some(action) = self.take_up(entry)? {
                return Ok(Progress::Continue(action));
            }
        }
        Ok(Progress::NoMatch)
    }

    /// Takes up what an entry left for later, if it does not only restore a slot.
    fn take_up(&mut self, entry: Backtrack) -> Result<Option<Action>, OutOfMemory>
        requires { IsSound (with_entry self.old entry) }
        ensures { IfOk result (λ now. TakesUp self.old entry self.new now) }
    {
        match entry {
            Backtrack::RestoreSlot { slot, old, .. } => {
                restore_slot(&mut self.slots, slot, old);
                Ok(None)
            }
            Backtrack::Choice {
                place,
                earlier,
                step,
                head,
                frames,
            } => Ok(Some(self.take_choice(Places { place, earlier }, step, head, frames)?)),
            Backtrack::Turn {
                place,
                repeat,
                min,
                max,
                head,
                frames,
            } => {
                self.return_to(place, head, frames);
                Ok(Some(Action::BeginTurn { repeat, min, max }))
            }
            Backtrack::LookAround {
                place,
                kind,
                next,
                head,
                frames,
                back,
            } => Ok(Some(self.end_look_around(OpenLookAround {
                place,
                kind,
                next,
                head,
                frames,
                back,
            }))),
        }
    }

    /// Goes back to a place, with so many of its frames, of which `head` is the last that waits.
    fn return_to(&mut self, place: usize, head: usize, frames: usize)
        requires { frames ≤ length self.old.frames }
        ensures { self.new ≡ return_machine self.old place head frames }
    {
        cut_frames(&mut self.frames, frames);
        self.place = place;
        self.head = head;
    }

    /// Takes the last of the places of a choice, and leaves the others.
    fn take_choice(
        &mut self,
        places: Places,
        step: usize,
        head: usize,
        frames: usize,
    ) -> Result<Action, OutOfMemory>
        requires { IsSound (with_entry self.old (Backtrack.Choice places.place places.earlier step head frames)) }
        ensures { IfOk result (λ now. Resumes self.old (Backtrack.Choice places.place places.earlier step head frames) self.new now) }
    {
        self.return_to(places.place, head, frames);
        self.leave_earlier(places, step)?;
        self.step = step;
        Ok(Action::Step)
    }

    /// Leaves a step at the places before a place for later.
    pub fn leave_earlier(&mut self, places: Places, step: usize) -> Result<(), OutOfMemory>
        requires { places.earlier ≤ places.place }
        ensures { OnOk result (self.new ≡ with_earlier self.old places.place places.earlier step) }
    {
        if places.earlier == 0 {
            return Ok(());
        }
        let frames = self.frames.len();
        self.entries.push(Backtrack::Choice {
            place: places.place - 1,
            earlier: places.earlier - 1,
            step,
            head: self.head,
            frames,
        })
    }

    /// The body of a look-around has no match.
    fn end_look_around(&mut self, it: OpenLookAround) -> Action
        requires { IsSound (with_entry self.old (Backtrack.LookAround it.place it.kind it.next it.head it.frames it.back)) }
        ensures { Resumes self.old (Backtrack.LookAround it.place it.kind it.next it.head it.frames it.back) self.new result }
    {
        self.depth -= 1;
        self.back = it.back;
        if is_negative(it.kind) {
            self.return_to(it.place, it.head, it.frames);
            self.step = it.next;
            return Action::Step;
        }
        Action::Backtrack
    }
}
