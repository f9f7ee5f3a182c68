ghost use Rattle.std.specs.Prelude.{◌≡◌, slice_get, IfSome};
ghost use Rattle.std.specs.Option.{option_copied};
ghost use Rattle.rx_match.specs.Runs.{is_negative as says_no};
ghost use Rattle.rx_match.specs.Kinds.{IsUnit, allowed_within, fewer, repetition_in, repetition_of, ticks_in};
ghost use Rattle.rx_trace.specs.Repeats.{is_over as over, one_less as less};
ghost use Rattle.rx_program.specs.Steps.{AreOrdered};

use rx_ast::LookAroundAssertionKind;
use rx_program::{Step, Test, Turns};

pub fn is_negative(kind: LookAroundAssertionKind) -> bool
    ensures { result ≡ says_no kind }
{
    match kind {
        LookAroundAssertionKind::Lookahead => false,
        LookAroundAssertionKind::NegativeLookahead => true,
        LookAroundAssertionKind::Lookbehind => false,
        LookAroundAssertionKind::NegativeLookbehind => true,
    }
}

/// Whether no further turn is allowed.
pub fn is_over(max: Option<u64>) -> bool
    ensures { result ≡ over max }
{
    match max {
        None => false,
        Some(max) => max == 0,
    }
}

/// The bound after one turn.
pub fn one_less(max: Option<u64>) -> Option<u64>
    ensures { result ≡ less max }
{
    match max {
        None => None,
        Some(max) => Some(max.saturating_sub(1)),
    }
}

/// The bound after so many turns.
pub fn less_by(max: Option<u64>, turns: u64) -> Option<u64>
    ensures { result ≡ fewer max turns }
{
    match max {
        None => None,
        Some(max) => Some(max.saturating_sub(turns)),
    }
}

/// How many turns the bound allows and the budget pays for.
pub fn most_turns(max: Option<u64>, budget: u64) -> u64
    ensures { result ≡ allowed_within max budget }
{
    match max {
        None => budget,
        Some(max) => max.min(budget),
    }
}

/// A repetition's parts.
#[derive(Clone, Copy)]
pub struct Repeated {
    pub turns: Turns,
    pub body: usize,
    pub next: usize,
}

pub fn repetition(step: &Step<'_>) -> Option<Repeated>
    ensures { result ≡ repetition_in step.now }
{
    match *step {
        Step::Accept => None,
        Step::Reject => None,
        Step::Consume { .. } => None,
        Step::Assert { .. } => None,
        Step::Refer { .. } => None,
        Step::ReferByName { .. } => None,
        Step::EnterGroup { .. } => None,
        Step::Choose { .. } => None,
        Step::Sequence { .. } => None,
        Step::Capture { .. } => None,
        Step::LookAround { .. } => None,
        Step::Repeat { turns, body, next } => Some(Repeated { turns, body, next }),
    }
}

/// The repetition that the step with a number is, if it is one.
pub fn repetition_at(program: &[Step<'_>], i: usize) -> Option<Repeated>
    ensures { result ≡ repetition_of (slice_get program.now i) }
{
    match program.get(i) {
        None => None,
        Some(step) => repetition(step),
    }
}

/// The test of a repetition's body, where that is one unit.
pub fn unit_test<'a>(program: &[Step<'a>], it: Repeated) -> Option<Test<'a>>
    requires { AreOrdered program.now }
    ensures { IfSome result (λ test. IsUnit program.now it test) }
{
    if it.turns.count > 0 {
        return None;
    }
    let Some(Step::Consume { test, next }) = step_at(program, it.body) else {
        return None;
    };
    let Some(Step::Accept) = step_at(program, *next) else {
        return None;
    };
    Some(*test)
}

/// Whether a step begins with a Tick.
pub fn does_tick(step: &Step<'_>) -> bool
    ensures { result ≡ ticks_in step.now }
{
    match step {
        Step::Accept => false,
        Step::Reject => false,
        Step::Consume { .. } => true,
        Step::Assert { .. } => true,
        Step::Refer { .. } => true,
        Step::ReferByName { .. } => true,
        Step::EnterGroup { .. } => true,
        Step::Choose { .. } => false,
        Step::Sequence { .. } => false,
        Step::Capture { .. } => true,
        Step::LookAround { .. } => true,
        Step::Repeat { .. } => true,
    }
}

/// The step with a number, if there is one.
pub fn step_at<'p, 'a>(program: &'p [Step<'a>], i: usize) -> Option<&'p Step<'a>>
    ensures { option_copied result ≡ slice_get program.now i }
{
    program.get(i)
}
