ghost use Rattle.std.specs.Prelude.{◌≡◌, ◌<◌, ◌≤◌, suc, length, OnOk};
ghost use Rattle.rx_trace.specs.Groups.{slot_of, slot_named};
ghost use Rattle.rx_program.specs.Codes.{assert as assert_code, capture as capture_code, choose as choose_code, consume as consume_code, enter_group as enter_group_code, look_around as look_around_code, refer as refer_code, reject as reject_code, repeat as repeat_code, sequence as sequence_code};
ghost use Rattle.rx_program.specs.Steps.{test_holds};
ghost use Rattle.rx_program.specs.Works.{on_one, on_two, swap};
ghost use Rattle.rx_program.specs.BuilderState.{IsProgram, Replaces, TakesRow, with_code, with_step, with_task};

use crate::checks::ClassRow;
use crate::names::GroupNames;
use crate::step::{Step, Test, Turns};
use rx_ast::{Alternative, BoundaryAssertionKind, LookAroundAssertionKind, Quantifier, Term};
use rx_base::{List, OutOfMemory, Text};
use rx_trace::Settings;

/// The settings that a term is compiled under, and whether it is matched backward.
#[derive(Clone, Copy)]
pub struct Context {
    pub settings: Settings,
    pub back: bool,
}

/// What is still to be compiled, from the end of the tree to its beginning.
#[derive(Clone, Copy)]
pub enum Task<'a> {
    /// A disjunction.
    Disjunction {
        context: Context,
        alternatives: &'a [Alternative],
    },
    /// The alternatives of a disjunction that stand before those already compiled.
    Earlier {
        context: Context,
        alternatives: &'a [Alternative],
    },
    Terms {
        context: Context,
        terms: &'a [Term],
    },
    Term {
        context: Context,
        term: &'a Term,
    },
    Capture,
    LookAround {
        kind: LookAroundAssertionKind,
    },
    /// A quantifier, and how many groups open before its end.
    Repeat {
        quantifier: &'a Quantifier,
        end: usize,
    },
    EnterGroup,
    Choose,
    Swap,
    Sequence,
}

/// A program that is built from its end: the rows of the classes that are not yet compiled, the last first; its steps; what is still to be compiled; the codes
/// that are made and not yet part of another, each as the number of its first step; and how many groups open before what is compiled.
#[derive(Drop)]
pub struct Builder<'a> {
    pub names: &'a GroupNames,
    pub rows: &'a [ClassRow],
    pub steps: List<Step<'a>>,
    pub tasks: List<Task<'a>>,
    pub codes: List<usize>,
    pub before: usize,
}

impl<'a> Builder<'a> {
    pub fn push_task(&mut self, task: Task<'a>) -> Result<(), OutOfMemory>
        ensures { OnOk result (self.new ≡ with_task self.old task.entry) }
    {
        self.tasks.push(task)
    }

    pub fn push_code(&mut self, code: usize) -> Result<(), OutOfMemory>
        ensures { OnOk result (self.new ≡ with_code self.old code) }
    {
        self.codes.push(code)
    }

    pub fn pop_code(&mut self) -> usize
        requires { 0 < length self.old.codes }
        ensures popped { self.old ≡ with_code self.new result }
        ensures fewer { length self.old.codes ≡ suc (length self.new.codes) }
    {
        match self.codes.pop() {
            Some(code) => code,
            None => unreachable!(),
        }
    }

    /// The row of the last class that is not yet compiled.
    pub fn pop_row(&mut self) -> &'a ClassRow
        requires { 0 < length self.old.rows.now }
        ensures { TakesRow self.old result.now self.new }
    {
        match self.rows.split_first() {
            Some((row, rows)) => {
                self.rows = rows;
                row
            }
            None => unreachable!(),
        }
    }

    /// Adds a step, and its number to the codes.
    fn add_step(&mut self, step: Step<'a>) -> Result<(), OutOfMemory>
        ensures { OnOk result (self.new ≡ with_step self.old step.entry) }
    {
        let at = self.steps.len();
        self.steps.push(step)?;
        self.codes.push(at)
    }
}

/// Steps that make one code part of another.
impl<'a> Builder<'a> {
    pub fn reject(&mut self) -> Result<(), OutOfMemory>
        requires program { IsProgram self.old }
        requires codes { 1 ≤ length self.old.codes }
        ensures { OnOk result (Replaces self.old (on_one (λ next. reject_code)) self.new) }
    {
        let _next = self.pop_code();
        self.add_step(Step::Reject)
    }

    pub fn consume(&mut self, test: Test<'a>) -> Result<(), OutOfMemory>
        requires program { IsProgram self.old }
        requires codes { 1 ≤ length self.old.codes }
        ensures { OnOk result (Replaces self.old (on_one (consume_code (test_holds test.entry))) self.new) }
    {
        let next = self.pop_code();
        self.add_step(Step::Consume { test, next })
    }

    pub fn assert(
        &mut self,
        kind: BoundaryAssertionKind,
        multiline: bool,
    ) -> Result<(), OutOfMemory>
        requires program { IsProgram self.old }
        requires codes { 1 ≤ length self.old.codes }
        ensures { OnOk result (Replaces self.old (on_one (assert_code kind multiline)) self.new) }
    {
        let next = self.pop_code();
        self.add_step(Step::Assert {
            kind,
            multiline,
            next,
        })
    }

    pub fn refer(&mut self, number: usize) -> Result<(), OutOfMemory>
        requires program { IsProgram self.old }
        requires codes { 1 ≤ length self.old.codes }
        ensures { OnOk result (Replaces self.old (on_one (refer_code (λ slots. slot_of slots number))) self.new) }
    {
        let next = self.pop_code();
        self.add_step(Step::Refer { number, next })
    }

    pub fn refer_by_name(&mut self, name: &Text) -> Result<(), OutOfMemory>
        requires program { IsProgram self.old }
        requires codes { 1 ≤ length self.old.codes }
        ensures { OnOk result (Replaces self.old (on_one (refer_code (slot_named name.now self.old.names.now))) self.new) }
    {
        let names = self.names;
        let numbers = names.numbers_of(name);
        let next = self.pop_code();
        self.add_step(Step::ReferByName { numbers, next })
    }

    pub fn enter_group(&mut self) -> Result<(), OutOfMemory>
        requires program { IsProgram self.old }
        requires codes { 1 ≤ length self.old.codes }
        ensures { OnOk result (Replaces self.old (on_one enter_group_code) self.new) }
    {
        let next = self.pop_code();
        self.add_step(Step::EnterGroup { next })
    }
}

/// Steps that make two codes part of another.
impl<'a> Builder<'a> {
    pub fn choose(&mut self) -> Result<(), OutOfMemory>
        requires program { IsProgram self.old }
        requires codes { 2 ≤ length self.old.codes }
        ensures { OnOk result (Replaces self.old (on_two choose_code) self.new) }
    {
        let first = self.pop_code();
        let other = self.pop_code();
        self.add_step(Step::Choose { first, other })
    }

    pub fn sequence(&mut self) -> Result<(), OutOfMemory>
        requires program { IsProgram self.old }
        requires codes { 2 ≤ length self.old.codes }
        ensures { OnOk result (Replaces self.old (on_two (λ second first. sequence_code first second)) self.new) }
    {
        let second = self.pop_code();
        let first = self.pop_code();
        self.add_step(Step::Sequence { first, second })
    }

    pub fn capture(&mut self, group: usize) -> Result<(), OutOfMemory>
        requires program { IsProgram self.old }
        requires codes { 2 ≤ length self.old.codes }
        ensures { OnOk result (Replaces self.old (on_two (capture_code group)) self.new) }
    {
        let body = self.pop_code();
        let next = self.pop_code();
        self.add_step(Step::Capture { group, body, next })
    }

    pub fn look_around(&mut self, kind: LookAroundAssertionKind) -> Result<(), OutOfMemory>
        requires program { IsProgram self.old }
        requires codes { 2 ≤ length self.old.codes }
        ensures { OnOk result (Replaces self.old (on_two (look_around_code kind)) self.new) }
    {
        let body = self.pop_code();
        let next = self.pop_code();
        self.add_step(Step::LookAround { kind, body, next })
    }

    pub fn repeat(&mut self, turns: Turns) -> Result<(), OutOfMemory>
        requires program { IsProgram self.old }
        requires codes { 2 ≤ length self.old.codes }
        ensures { OnOk result (Replaces self.old (on_two (repeat_code turns.min turns.max turns.greedy turns.from turns.count)) self.new) }
    {
        let body = self.pop_code();
        let next = self.pop_code();
        self.add_step(Step::Repeat { turns, body, next })
    }

    pub fn swap(&mut self) -> Result<(), OutOfMemory>
        requires program { IsProgram self.old }
        requires codes { 2 ≤ length self.old.codes }
        ensures { OnOk result (Replaces self.old swap self.new) }
    {
        let one = self.pop_code();
        let other = self.pop_code();
        self.push_code(one)?;
        self.push_code(other)
    }
}
