ghost use Rattle.std.specs.Prelude.{◌≡◌, ◌≤◌, ◌-◌, [], false, IfOk, OnOk, length, replicate};
ghost use Rattle.rx_ast.specs.Tree.{mirror};
ghost use Rattle.rx_trace.specs.Answers.{IsAnswer, IsTickCount};
ghost use Rattle.rx_match.specs.Programs.{IsOutcome, IsOutcomeOf, IsRunFrom, trace_of};
ghost use Rattle.rx_program.specs.Steps.{AreOrdered};
ghost use Rattle.rx_trace.specs.declared.answer.Slot.TheVariants.{Unset};

use crate::entry::{Backtrack, Frame};
use crate::machine::{Machine, Progress};
use rx_ast::Pattern;
use rx_base::{List, OutOfMemory};
use rx_program::{Context, GroupNames, Step, Survey, class_rows, compile, survey_tree};
use rx_trace::{Found, MatchFault, MatchFlags, Slot, settings_at_start};
use std::alloc::Global;

/// What a search came to: a match, if there is one, and how many Ticks came before it, or in all.
#[derive(Drop)]
struct Outcome {
    found: Option<Found>,
    ticks: u64,
}

/// Where a match may begin in an input, from the first place to the last, and within how many Ticks it has to be found.
#[derive(Clone, Copy)]
struct Attempts<'a> {
    input: &'a [u32],
    start: usize,
    last: usize,
    budget: u64,
}

/// Makes a list of so many slots, none of them set, in the memory that it has.
fn unset(slots: &mut Vec<Slot>, groups: usize) -> Result<(), OutOfMemory>
    ensures { OnOk result (slots.new.items ≡ replicate groups Unset) }
{
    slots.clear();
    for i in 0..groups {
        slots.push(Slot::Unset)?;
    }
    Ok(())
}

/// Makes the list at least so long.
fn fill(saved: &mut Vec<usize>, groups: usize) -> Result<(), OutOfMemory> {
    for _ in saved.len()..groups {
        saved.push(0)?;
    }
    Ok(())
}

fn clear_frames(frames: &mut List<Frame>)
    ensures { frames.new ≡ [] }
{
    while let Some(_) = frames.pop() {}
}

fn clear_entries(entries: &mut List<Backtrack>)
    ensures { entries.new ≡ [] }
{
    while let Some(_) = entries.pop() {}
}

impl<'a> Machine<'a> {
    /// A machine before its first run.
    fn new(alloc: Global, program: &'a [Step<'a>], input: &'a [u32], budget: u64) -> Machine<'a>
        ensures program { result.program.now ≡ program.now }
        ensures input { result.input.now ≡ input.now }
        ensures budget { result.budget ≡ budget }
    {
        Machine {
            program,
            input,
            frames: List::new(alloc),
            entries: List::new(alloc),
            slots: Vec::new(alloc),
            saved: Vec::new(alloc),
            place: 0,
            step: 0,
            head: 0,
            back: false,
            depth: 0,
            budget,
        }
    }

    /// Runs a program from a place of the input, with nothing left of an earlier run but the memory and the budget.
    fn run_from(
        &mut self,
        entry: usize,
        groups: usize,
        place: usize,
    ) -> Result<Progress, OutOfMemory>
        requires ordered { AreOrdered self.old.program.now }
        requires within { place ≤ length self.old.input.now }
        ensures { IfOk result (λ it. IsRunFrom self.old self.new (trace_of self.old.input.now self.old.program.now entry groups place) it) }
    {
        clear_frames(&mut self.frames);
        clear_entries(&mut self.entries);
        unset(&mut self.slots, groups)?;
        fill(&mut self.saved, groups)?;
        self.place = place;
        self.step = entry;
        self.head = 0;
        self.back = false;
        self.depth = 0;
        self.run()
    }
}

/// The match that a machine came to, from a place on.
fn match_from(place: usize, machine: Machine<'_>) -> Found
    ensures { result ≡ record { start = place; end = machine.entry.place; groups = machine.entry.slots.items } }
{
    let Machine {
        place: end,
        slots,
        ..
    } = machine;
    Found {
        start: place,
        end,
        groups: List::from_vec(slots),
    }
}

/// Runs a program from each place up to the last, up to the first match.
fn match_program(
    alloc: Global,
    program: &[Step<'_>],
    entry: usize,
    groups: usize,
    attempts: Attempts<'_>,
) -> Result<Outcome, MatchFault>
    requires ordered { AreOrdered program.now }
    requires start { attempts.start ≤ attempts.last }
    requires last { attempts.last ≤ length attempts.input.now }
    ensures { IsOutcome (trace_of attempts.entry.input.now program.now entry groups) (attempts.entry.last - attempts.entry.start) attempts.entry.start attempts.entry.budget result }
{
    let mut machine = Machine::new(alloc, program, attempts.input, attempts.budget);
    let mut place = attempts.start;
    loop {
        match machine.run_from(entry, groups, place)? {
            Progress::Match => {
                let ticks = attempts.budget - machine.budget;
                let found = Some(match_from(place, machine));
                return Ok(Outcome { found, ticks });
            }
            Progress::Spent => return Err(MatchFault::Spent),
            Progress::NoMatch => {}
            Progress::Continue(_) => unreachable!(),
        }
        if place == attempts.last {
            let ticks = attempts.budget - machine.budget;
            return Ok(Outcome { found: None, ticks });
        }
        place += 1;
    }
}

/// Matches a pattern from each place up to the last, up to the first match.
fn answer(
    alloc: Global,
    pattern: &Pattern,
    flags: MatchFlags,
    attempts: Attempts<'_>,
) -> Result<Outcome, MatchFault>
    requires start { attempts.start ≤ attempts.last }
    requires last { attempts.last ≤ length attempts.input.now }
    ensures { IsOutcomeOf flags (mirror pattern.now) attempts.entry.input.now (attempts.entry.last - attempts.entry.start) attempts.entry.start attempts.entry.budget result }
{
    if flags.ignore_case {
        return Err(MatchFault::IgnoreCase);
    }
    let names = match survey_tree(alloc, &pattern.body)? {
        Survey::Unsupported(span) => return Err(MatchFault::Unsupported { span }),
        Survey::Names(names) => names,
    };
    let groups = GroupNames::new(alloc, names)?;
    let classes = class_rows(alloc, &pattern.body)?;
    let rows = classes.as_slice();
    let forward = Context {
        settings: settings_at_start(flags),
        back: false,
    };
    let program = compile(alloc, &groups, rows, &pattern.body, forward)?;
    let steps = program.steps.as_slice();
    match_program(alloc, steps, program.entry, groups.len(), attempts)
}

/// The first outcome of a pattern from a place of the input, or none, within a budget of Ticks. A flag or a node that is not supported is refused first.
pub fn match_at(
    alloc: Global,
    pattern: &Pattern,
    flags: MatchFlags,
    input: &[u32],
    start: usize,
    budget: u64,
) -> Result<Option<Found>, MatchFault>
    requires { start ≤ length input.now }
    ensures { IsAnswer flags (mirror pattern.now) input.now 0 start budget result }
{
    let here = Attempts {
        input,
        start,
        last: start,
        budget,
    };
    let outcome = answer(alloc, pattern, flags, here)?;
    Ok(outcome.found)
}

/// The first outcome of a pattern from a place of the input, or from the next place, and so on to the end of the input. All share the budget of Ticks.
pub fn search(
    alloc: Global,
    pattern: &Pattern,
    flags: MatchFlags,
    input: &[u32],
    start: usize,
    budget: u64,
) -> Result<Option<Found>, MatchFault>
    requires { start ≤ length input.now }
    ensures { IsAnswer flags (mirror pattern.now) input.now (length input.now - start) start budget result }
{
    let onward = Attempts {
        input,
        start,
        last: input.len(),
        budget,
    };
    let outcome = answer(alloc, pattern, flags, onward)?;
    Ok(outcome.found)
}

/// How many Ticks `search` takes from a place of the input, which is the least budget that it does not find spent; or none where they are more than `most`.
/// What `search` refuses is refused.
// Why: docs/DECISIONS.md, 82.
pub fn ticks_of_search(
    alloc: Global,
    pattern: &Pattern,
    flags: MatchFlags,
    input: &[u32],
    start: usize,
    most: u64,
) -> Result<Option<u64>, MatchFault>
    requires { start ≤ length input.now }
    ensures { IsTickCount flags (mirror pattern.now) input.now (length input.now - start) start most result }
{
    let onward = Attempts {
        input,
        start,
        last: input.len(),
        budget: most,
    };
    match answer(alloc, pattern, flags, onward) {
        Ok(outcome) => Ok(Some(outcome.ticks)),
        Err(MatchFault::Spent) => Ok(None),
        Err(fault) => Err(fault),
    }
}
