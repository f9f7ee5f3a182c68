ghost use Rattle.std.specs.Prelude.{◌≡◌, ◌++◌, ◌+◌, ◌*◌, ◌<◌, ◌≤◌, IfOk, OnOk, codes, length, sum_by, true};
ghost use Rattle.std.specs.Io.KnownBytes.{Appends};
ghost use Rattle.rx_ast.specs.Forget.{bare};
ghost use Rattle.rx_ast.specs.Size.{disjunction_size, term_size};
ghost use Rattle.rx_ast.specs.Texts.{quantifier_text};
ghost use Rattle.rx_ast.specs.Tree.{mirror_disjunction, mirror_term};
ghost use Rattle.rx_base.specs.Writing.{Written};
ghost use Rattle.rx_model.specs.Spelling.Spelling.{alternatives_text, node_text, spelling};
ghost use Rattle.rx_tasks.specs.Tasks.{tasks_of};
ghost use Rattle.rx_tasks.specs.Texts.{Goes, texts_of};
ghost use Rattle.rx_tools.specs.Leaves.{is_leaf as stands_alone};
ghost use Rattle.rx_tools.specs.Tasks.{body_text, body_weight, closer_text, opening_text, suffix_text, task_text, task_weight};
ghost use Rattle.rx_tools.specs.Utf8.{utf8};
ghost use Rattle.rx_tools.specs.Writes.{writes};

use crate::class_task::write_class;
use crate::leaf::{Rest, write_leaf, write_leaves};
use crate::quantifier::write_quantifier;
use crate::task::{Body, Task, lone_body, whole_body};
use crate::term::{refers, write_capturing, write_ignoring};
use crate::write::{write_char, write_str};
use rx_ast::parts::look_text;
use rx_ast::{Disjunction, Pattern, Quantifier, Term};
use rx_base::{Failed, List, OutOfMemory, Text, TextSink};
use rx_model::Mode;
use rx_tasks::{Next, Work, work_through};
use std::alloc::Global;

/// The canonical spelling of a tree in a mode, also of a tree that no text spells. However deep it is, it takes no deep stack.
/// Fails only where there is not enough memory.
pub fn canonical_text(alloc: Global, pattern: &Pattern, mode: Mode) -> Result<Text, OutOfMemory>
    ensures { IfOk result (λ t. t ≡ spelling (bare pattern.now) mode) }
{
    let mut text = Text::from_str(alloc, "")?;
    write_pattern(alloc, &mut text, pattern, mode)?;
    Ok(text)
}

/// Adds the canonical spelling of a tree in a mode, in UTF-8, after the bytes. However deep the tree is, it takes no deep stack.
/// Fails only where there is not enough memory, and then a part of the spelling may stand at the end.
// Why: docs/DECISIONS.md, 40.
pub fn append_canonical(
    alloc: Global,
    bytes: &mut List<u8>,
    pattern: &Pattern,
    mode: Mode,
) -> Result<(), OutOfMemory>
    ensures { OnOk result (bytes.new ≡ bytes.old ++ utf8 (spelling (bare pattern.now) mode)) }
{
    write_pattern(alloc, bytes, pattern, mode)
}

/// Writes a pattern, by a loop over tasks on the heap. The sinks that it is used with are in memory, so the only fault is that there is not enough of it.
fn write_pattern<W: TextSink>(
    alloc: Global,
    sink: &mut W,
    pattern: &Pattern,
    mode: Mode,
) -> Result<(), OutOfMemory>
    ensures { OnOk result (Appends (W.taken sink.old) (W.taken sink.new) (utf8 (spelling (bare pattern.now) mode))) }
{
    let body = whole_body(mode, pattern.body.body.as_slice());
    work_through(alloc, sink, Task::new(false, None, body))
}

impl<'a, W: TextSink> Work<W> for Task<'a> {
    ghost use Rattle.rx_tools.specs.Tasks.{task_text, task_weight};
    ghost use Rattle.rx_tools.specs.Writes.{writes};

    ghost does = { λ task old new. writes W.taken old (task_text task) new };

    ghost weight = { task_weight };

    #[inline(always)]
    fn work(self, alloc: Global, sink: &mut W) -> Result<Next<Self>, OutOfMemory> {
        match write_task(alloc, sink, self) {
            Ok(next) => Ok(next),
            Err(Failed) => Err(OutOfMemory),
        }
    }
}

/// Writes what ends a term, and a front of what is after the term.
#[inline(always)]
fn write_task<'a, W: TextSink>(
    alloc: Global,
    sink: &mut W,
    task: Task<'a>,
) -> Result<Next<Task<'a>>, Failed>
    ensures text { IfOk result (λ next. Goes (writes W.taken) sink.old sink.new (task_text task.entry) (texts_of task_text next)) }
    ensures lighter { IfOk result (λ next. sum_by task_weight (tasks_of next) < task_weight task.entry) }
{
    write_closer(sink, task.closes)?;
    write_suffix(sink, task.suffix)?;
    write_body(alloc, sink, task.body())
}

#[inline(always)]
#[tactic(auto, using(crate::proofs::Pieces::in_pieces))]
fn write_closer<W: TextSink>(sink: &mut W, closes: bool) -> Result<(), Failed>
    ensures { Written W.taken W.fixed W.faults sink.old sink.new result (utf8 (closer_text closes)) }
{
    if closes {
        write_char(sink, ')')
    } else {
        Ok(())
    }
}

#[inline(always)]
#[tactic(auto, using(crate::proofs::Pieces::in_pieces))]
fn write_suffix<W: TextSink>(sink: &mut W, suffix: Option<&Quantifier>) -> Result<(), Failed>
    ensures { Written W.taken W.fixed W.faults sink.old sink.new result (utf8 (suffix_text suffix.entry)) }
{
    match suffix {
        Some(it) => write_quantifier(sink, it.min, it.max, it.greedy),
        None => Ok(()),
    }
}

/// Writes what is left of a disjunction up to the first term in which something nests, and what that term begins with.
#[inline(always)]
fn write_body<'a, W: TextSink>(
    alloc: Global,
    sink: &mut W,
    body: Body<'a>,
) -> Result<Next<Task<'a>>, Failed>
    ensures text { IfOk result (λ next. Goes (writes W.taken) sink.old sink.new (body_text body.entry) (texts_of task_text next)) }
    ensures lighter { IfOk result (λ next. sum_by task_weight (tasks_of next) < body_weight body.entry) }
{
    let left = write_leading(sink, body)?;
    let Some((first, terms)) = left.terms.split_first() else {
        return Ok(Next::Nothing);
    };
    write_opening(alloc, sink, left.mode, left.after_reference, first)?;
    let after = Body {
        after_reference: refers(first),
        terms,
        ..left
    };
    Ok(tasks_after(left.after_reference, first, after))
}

/// Writes terms and alternatives before the first term in which something nests, and answers what is left.
#[inline(always)]
fn write_leading<'a, W: TextSink>(sink: &mut W, body: Body<'a>) -> Result<Body<'a>, Failed>
    ensures text { IfOk result (λ left. Goes (writes W.taken) sink.old sink.new (body_text body.entry) (body_text left)) }
    ensures lighter { IfOk result (λ left. body_weight left ≤ body_weight body.entry) }
    ensures ends { IfOk result (λ left. length left.terms.now ≡ 0 → length left.more.now ≡ 0) }
{
    let mut left = body;
    loop {
        let alternative = Rest {
            after_reference: left.after_reference,
            terms: left.terms,
        };
        let rest = write_leaves(sink, left.mode, alternative)?;
        if !rest.terms.is_empty() || left.more.is_empty() {
            return Ok(Body {
                after_reference: rest.after_reference,
                terms: rest.terms,
                ..left
            });
        }
        write_char(sink, '|')?;
        left = whole_body(left.mode, left.more);
    }
}

/// Writes a term in which nothing nests.
fn write_alone<W: TextSink>(
    sink: &mut W,
    mode: Mode,
    after_reference: bool,
    term: &Term,
) -> Result<(), Failed>
    requires { stands_alone (mirror_term term.now) ≡ true }
    ensures { OnOk result (writes W.taken sink.old (opening_text mode after_reference (mirror_term term.now)) sink.new) }
{
    write_leaf(sink, mode, after_reference, term)
}

/// Writes a term in which nothing nests, or what another begins with.
#[tactic(auto, using(rx_ast::proofs::Equations::mirrors))]
fn write_opening<W: TextSink>(
    alloc: Global,
    sink: &mut W,
    mode: Mode,
    after_reference: bool,
    term: &Term,
) -> Result<(), Failed>
    ensures { OnOk result (writes W.taken sink.old (opening_text mode after_reference (mirror_term term.now)) sink.new) }
{
    match term {
        Term::Quantifier(_) => Ok(()),
        Term::LookAroundAssertion(it) => write_str(sink, look_text(it.kind)),
        Term::CapturingGroup(it) => write_capturing(sink, &it.name),
        Term::IgnoreGroup(it) => write_ignoring(sink, &it.modifiers),
        Term::CharacterClass(it) => write_class(alloc, sink, mode, it),
        Term::BoundaryAssertion(_) => write_alone(sink, mode, after_reference, term),
        Term::Character(_) => write_alone(sink, mode, after_reference, term),
        Term::Dot(_) => write_alone(sink, mode, after_reference, term),
        Term::CharacterClassEscape(_) => write_alone(sink, mode, after_reference, term),
        Term::UnicodePropertyEscape(_) => write_alone(sink, mode, after_reference, term),
        Term::IndexedReference(_) => write_alone(sink, mode, after_reference, term),
        Term::NamedReference(_) => write_alone(sink, mode, after_reference, term),
    }
}

/// The tasks that are left once what a term begins with is written: what nests in it, what ends it, and what is after it.
#[inline(always)]
#[tactic(auto, using(rx_ast::proofs::Equations::mirrors, rx_ast::proofs::Sizes::sizes))]
fn tasks_after<'a>(after_reference: bool, term: &'a Term, after: Body<'a>) -> Next<Task<'a>>
    ensures text { node_text after.entry.mode after_reference (mirror_term term.now) ++ body_text after.entry ≡ opening_text after.entry.mode after_reference (mirror_term term.now) ++ texts_of task_text result }
    ensures lighter { sum_by task_weight (tasks_of result) < 2 * term_size term.now + body_weight after.entry }
{
    match term {
        Term::Quantifier(it) => before_suffix(after_reference, it, after),
        Term::LookAroundAssertion(it) => before_closer(&it.body, after),
        Term::CapturingGroup(it) => before_closer(&it.body, after),
        Term::IgnoreGroup(it) => before_closer(&it.body, after),
        Term::BoundaryAssertion(_) => Next::One(Task::new(false, None, after)),
        Term::Character(_) => Next::One(Task::new(false, None, after)),
        Term::Dot(_) => Next::One(Task::new(false, None, after)),
        Term::CharacterClassEscape(_) => Next::One(Task::new(false, None, after)),
        Term::CharacterClass(_) => Next::One(Task::new(false, None, after)),
        Term::UnicodePropertyEscape(_) => Next::One(Task::new(false, None, after)),
        Term::IndexedReference(_) => Next::One(Task::new(false, None, after)),
        Term::NamedReference(_) => Next::One(Task::new(false, None, after)),
    }
}

/// What a quantifier stands after, and then the quantifier with what is after it.
#[inline(always)]
fn before_suffix<'a>(after_reference: bool, it: &'a Quantifier, after: Body<'a>) -> Next<Task<'a>>
    ensures text { texts_of task_text result ≡ node_text after.entry.mode after_reference (mirror_term it.now.body) ++ (quantifier_text it.now.min it.now.max it.now.greedy ++ body_text after.entry) }
    ensures lighter { sum_by task_weight (tasks_of result) ≡ 1 + 2 * term_size it.now.body + body_weight after.entry }
{
    let inner = lone_body(after.mode, after_reference, &it.body);
    Next::Two(
        Task::new(false, None, inner),
        Task::new(false, Some(it), after),
    )
}

/// What a group holds, and then its end with what is after it.
#[inline(always)]
#[tactic(auto, using(rx_ast::proofs::Sizes::sizes))]
fn before_closer<'a>(body: &'a Disjunction, after: Body<'a>) -> Next<Task<'a>>
    ensures text { texts_of task_text result ≡ (alternatives_text after.entry.mode (mirror_disjunction body.now).1 ++ codes ")") ++ body_text after.entry }
    ensures lighter { sum_by task_weight (tasks_of result) ≤ 1 + 2 * disjunction_size body.now + body_weight after.entry }
{
    let inner = whole_body(after.mode, body.body.as_slice());
    Next::Two(Task::new(false, None, inner), Task::new(true, None, after))
}
