ghost use Rattle.std.specs.Prelude.{◌≡◌, ◌≢◌, ◌≤◌, ◌-◌, ◌∷◌, [], true, false, length, OnOk, IfOk};
ghost use Rattle.rx_ast.specs.Tree.{mirror_capturing, mirror_disjunction, mirror_ignore, mirror_look, mirror_quantifier};
ghost use Rattle.rx_program.specs.ClassTests.{each_tests, row_tests};
ghost use Rattle.rx_program.specs.Compiled.{each_code};
ghost use Rattle.rx_program.specs.Codes.{accept};
ghost use Rattle.rx_trace.specs.Groups.{groups_in_each};
ghost use Rattle.rx_program.specs.Steps.{code_at};
ghost use Rattle.rx_program.specs.Steps.{AreOrdered};
ghost use Rattle.rx_program.specs.Works.{all_worked, groups_left, capturing, repeating, term};
ghost use Rattle.rx_program.specs.BuilderState.{Builds, IsBuilding, codes_of, disjunction_work, earlier_work, term_work, terms_work, work_of, works};

use crate::builder::{Builder, Context, Task};
use crate::checks::ClassRow;
use crate::kinds::looks_back;
use crate::names::GroupNames;
use crate::step::{Step, Test, Turns};
use rx_ast::{
    Alternative, CapturingGroup, Disjunction, IgnoreGroup, LookAroundAssertion, Quantifier, Term,
};
use rx_base::{List, OutOfMemory};
use rx_trace::settings_after;
use std::alloc::Global;

/// The steps of a program, and the number of the first.
#[derive(Drop)]
pub struct Program<'a> {
    pub steps: List<Step<'a>>,
    pub entry: usize,
}

/// Alternatives, from the last to the first.
impl<'a> Builder<'a> {
    fn disjunction(
        &mut self,
        context: Context,
        alternatives: &'a [Alternative],
    ) -> Result<(), OutOfMemory>
        requires sound { IsBuilding self.old (disjunction_work context alternatives.now ∷ works self.old) }
        requires codes { 1 ≤ length self.old.codes }
        ensures { OnOk result (Builds self.old (disjunction_work context alternatives.now) self.new) }
    {
        let Some((last, alternatives)) = alternatives.split_last() else {
            return self.reject();
        };
        let next = self.pop_code();
        self.push_code(next)?;
        self.push_code(next)?;
        let terms = last.body.as_slice();
        self.push_task(Task::Earlier {
            context,
            alternatives,
        })?;
        self.push_task(Task::Terms { context, terms })
    }

    fn earlier(
        &mut self,
        context: Context,
        alternatives: &'a [Alternative],
    ) -> Result<(), OutOfMemory>
        requires sound { IsBuilding self.old (earlier_work context alternatives.now ∷ works self.old) }
        requires codes { 2 ≤ length self.old.codes }
        ensures { OnOk result (Builds self.old (earlier_work context alternatives.now) self.new) }
    {
        let entry = self.pop_code();
        let next = self.pop_code();
        let Some((last, alternatives)) = alternatives.split_last() else {
            return self.push_code(entry);
        };
        self.push_code(next)?;
        self.push_code(entry)?;
        self.push_code(next)?;
        let terms = last.body.as_slice();
        self.push_task(Task::Earlier {
            context,
            alternatives,
        })?;
        self.push_task(Task::Choose)?;
        self.push_task(Task::Terms { context, terms })
    }
}

/// Terms, from the last to the first, or backward from the first to the last.
impl<'a> Builder<'a> {
    fn terms_ahead(&mut self, context: Context, terms: &'a [Term]) -> Result<(), OutOfMemory>
        requires sound { IsBuilding self.old (terms_work context terms.now ∷ works self.old) }
        requires ahead { context.back ≡ false }
        ensures { OnOk result (Builds self.old (terms_work context terms.now) self.new) }
    {
        let Some((term, terms)) = terms.split_last() else {
            return Ok(());
        };
        self.push_task(Task::Terms { context, terms })?;
        self.push_task(Task::Term { context, term })
    }

    fn terms_after(&mut self, context: Context, terms: &'a [Term]) -> Result<(), OutOfMemory>
        requires sound { IsBuilding self.old (terms_work context terms.now ∷ works self.old) }
        requires back { context.back ≡ true }
        ensures { OnOk result (Builds self.old (terms_work context terms.now) self.new) }
    {
        let Some((term, terms)) = terms.split_first() else {
            return Ok(());
        };
        self.push_code(0)?;
        self.push_task(Task::Sequence)?;
        self.push_task(Task::Term { context, term })?;
        self.push_task(Task::Swap)?;
        self.push_task(Task::Terms { context, terms })
    }

    fn terms(&mut self, context: Context, terms: &'a [Term]) -> Result<(), OutOfMemory>
        requires sound { IsBuilding self.old (terms_work context terms.now ∷ works self.old) }
        ensures { OnOk result (Builds self.old (terms_work context terms.now) self.new) }
    {
        if context.back {
            self.terms_after(context, terms)
        } else {
            self.terms_ahead(context, terms)
        }
    }
}

pub fn body_of(it: &Quantifier) -> &Term
    ensures { result.now ≡ it.now.body }
{
    &it.body
}

/// Terms with a body, which is compiled before the term itself.
impl<'a> Builder<'a> {
    fn look_around_body(
        &mut self,
        context: Context,
        it: &'a LookAroundAssertion,
    ) -> Result<(), OutOfMemory>
        requires sound { IsBuilding self.old (term context.settings context.back (mirror_look it.now) ∷ works self.old) }
        ensures { OnOk result (Builds self.old (term context.settings context.back (mirror_look it.now)) self.new) }
    {
        let inside = Context {
            settings: context.settings,
            back: looks_back(it.kind),
        };
        self.push_code(0)?;
        self.push_task(Task::LookAround { kind: it.kind })?;
        let alternatives = it.body.body.as_slice();
        self.push_task(Task::Disjunction {
            context: inside,
            alternatives,
        })
    }

    fn quantifier_body(&mut self, context: Context, it: &'a Quantifier) -> Result<(), OutOfMemory>
        requires sound { IsBuilding self.old (term context.settings context.back (mirror_quantifier it.now) ∷ works self.old) }
        ensures { OnOk result (Builds self.old (term context.settings context.back (mirror_quantifier it.now)) self.new) }
    {
        let end = self.before;
        self.push_code(0)?;
        self.push_task(Task::Repeat {
            quantifier: it,
            end,
        })?;
        let term = body_of(it);
        self.push_task(Task::Term { context, term })
    }

    fn capturing_body(
        &mut self,
        context: Context,
        it: &'a CapturingGroup,
    ) -> Result<(), OutOfMemory>
        requires sound { IsBuilding self.old (term context.settings context.back (mirror_capturing it.now) ∷ works self.old) }
        ensures { OnOk result (Builds self.old (term context.settings context.back (mirror_capturing it.now)) self.new) }
    {
        self.push_code(0)?;
        self.push_task(Task::Capture)?;
        let alternatives = it.body.body.as_slice();
        self.push_task(Task::Disjunction {
            context,
            alternatives,
        })
    }

    fn ignored_body(&mut self, context: Context, it: &'a IgnoreGroup) -> Result<(), OutOfMemory>
        requires sound { IsBuilding self.old (term context.settings context.back (mirror_ignore it.now) ∷ works self.old) }
        ensures { OnOk result (Builds self.old (term context.settings context.back (mirror_ignore it.now)) self.new) }
    {
        let inside = Context {
            settings: settings_after(&it.modifiers, context.settings),
            back: context.back,
        };
        self.push_task(Task::EnterGroup)?;
        let alternatives = it.body.body.as_slice();
        self.push_task(Task::Disjunction {
            context: inside,
            alternatives,
        })
    }

    fn term(&mut self, context: Context, term: &'a Term) -> Result<(), OutOfMemory>
        requires sound { IsBuilding self.old (term_work context term.now ∷ works self.old) }
        requires codes { 1 ≤ length self.old.codes }
        ensures { OnOk result (Builds self.old (term_work context term.now) self.new) }
    {
        match term {
            Term::BoundaryAssertion(it) => self.assert(it.kind, context.settings.multiline),
            Term::LookAroundAssertion(it) => self.look_around_body(context, it),
            Term::Quantifier(it) => self.quantifier_body(context, it),
            Term::Character(it) => self.consume(Test::Character(it.value)),
            Term::Dot(_) => self.consume(Test::Dot {
                dot_all: context.settings.dot_all,
            }),
            Term::CharacterClassEscape(it) => self.consume(Test::Escape(it.kind)),
            Term::UnicodePropertyEscape(_) => self.consume(Test::Never),
            Term::CharacterClass(_) => {
                let row = self.pop_row();
                self.consume(Test::Class(row))
            }
            Term::CapturingGroup(it) => self.capturing_body(context, it),
            Term::IgnoreGroup(it) => self.ignored_body(context, it),
            Term::IndexedReference(it) => self.refer(it.index as usize),
            Term::NamedReference(it) => self.refer_by_name(&it.name),
        }
    }
}

impl<'a> Builder<'a> {
    fn close_group(&mut self) -> Result<(), OutOfMemory>
        requires sound { IsBuilding self.old (capturing ∷ works self.old) }
        requires codes { 2 ≤ length self.old.codes }
        ensures { OnOk result (Builds self.old capturing self.new) }
    {
        self.before -= 1;
        self.capture(self.before)
    }

    fn close_quantifier(&mut self, it: &Quantifier, end: usize) -> Result<(), OutOfMemory>
        requires sound { IsBuilding self.old (repeating it.now.min it.now.max it.now.greedy (end - self.old.before) ∷ works self.old) }
        requires codes { 2 ≤ length self.old.codes }
        ensures { OnOk result (Builds self.old (repeating it.now.min it.now.max it.now.greedy (end - self.old.before)) self.new) }
    {
        self.repeat(Turns {
            min: it.min,
            max: it.max,
            greedy: it.greedy,
            from: self.before,
            count: end.saturating_sub(self.before),
        })
    }

    /// Does a task, or cuts it into smaller ones.
    fn perform(&mut self, task: Task<'a>) -> Result<(), OutOfMemory>
        requires sound { IsBuilding self.old (work_of (groups_left (works self.old)) task ∷ works self.old) }
        requires made { all_worked self.old.names.now (work_of (groups_left (works self.old)) task ∷ works self.old) (codes_of self.old) ≢ [] }
        ensures { OnOk result (Builds self.old (work_of (groups_left (works self.old)) task.entry) self.new) }
    {
        match task {
            Task::Disjunction {
                context,
                alternatives,
            } => self.disjunction(context, alternatives),
            Task::Earlier {
                context,
                alternatives,
            } => self.earlier(context, alternatives),
            Task::Terms { context, terms } => self.terms(context, terms),
            Task::Term { context, term } => self.term(context, term),
            Task::Capture => self.close_group(),
            Task::LookAround { kind } => self.look_around(kind),
            Task::Repeat { quantifier, end } => self.close_quantifier(quantifier, end),
            Task::EnterGroup => self.enter_group(),
            Task::Choose => self.choose(),
            Task::Swap => self.swap(),
            Task::Sequence => self.sequence(),
        }
    }
}

/// The program of a disjunction in which groups of these names open, in order, and whose classes have these rows, from the last to the first.
pub fn compile<'a>(
    alloc: Global,
    names: &'a GroupNames,
    rows: &'a [ClassRow],
    body: &'a Disjunction,
    context: Context,
) -> Result<Program<'a>, OutOfMemory>
    requires names { length names.now ≡ groups_in_each (mirror_disjunction body.now).1 }
    requires rows { row_tests rows.now ≡ each_tests (mirror_disjunction body.now).1 [] }
    ensures ordered { IfOk result (λ it. AreOrdered it.steps) }
    ensures code { IfOk result (λ it. code_at it.steps it.entry ≡ each_code names.now (mirror_disjunction body.now).1 context.settings context.back 0 accept) }
{
    let mut builder = Builder {
        names,
        rows,
        steps: List::new(alloc),
        tasks: List::new(alloc),
        codes: List::new(alloc),
        before: names.len(),
    };
    builder.steps.push(Step::Accept)?;
    builder.codes.push(0)?;
    let alternatives = body.body.as_slice();
    builder.tasks.push(Task::Disjunction {
        context,
        alternatives,
    })?;
    while let Some(task) = builder.tasks.pop() {
        builder.perform(task)?;
    }
    let entry = builder.pop_code();
    let Builder { steps, .. } = builder;
    Ok(Program { steps, entry })
}
