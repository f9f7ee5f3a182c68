ghost use Rattle.std.specs.Prelude.{◌≡◌, ◌+◌, ◌*◌, ◌-◌, ◌<◌, IfOk, map, sum_by};
ghost use Rattle.std.specs.Fmt.{IsPlainFormatter};
ghost use Rattle.rx_ast.specs.Shown.{barred_shown, node_shown, nodes_shown, pattern_shown};
ghost use Rattle.rx_ast.specs.Size.{all_alternatives_size, term_size, terms_size};
ghost use Rattle.rx_ast.specs.Tree.{mirror_term, nodes};
ghost use Rattle.rx_display.specs.Tasks.{task_text, task_weight, tree_of};
ghost use Rattle.rx_display.specs.Writes.{writes};
ghost use Rattle.rx_tasks.specs.Tasks.{tasks_of};
ghost use Rattle.rx_tasks.specs.Texts.{Goes, texts_of};

use crate::class_task::write_class;
use crate::pair::write_pair_or;
use crate::task::{Task, group_body, split_disjunction};
use crate::writer::Writer;
use rx_ast::parts::{look_text, term_pair, write_capturing, write_ignoring, write_suffix};
use rx_ast::{Alternative, Pattern, Term};
use rx_base::{OutOfMemory, Text};
use rx_tasks::{Next, Work, work_through};
use std::alloc::Global;
use std::fmt;
use std::fmt::Display;

/// The text of a pattern, as `{}` writes it. However deep the pattern nests, it takes no deep stack.
/// Fails only where there is not enough memory.
pub fn display_text(alloc: Global, pattern: &Pattern) -> Result<Text, OutOfMemory>
    ensures { IfOk result (λ text. text ≡ pattern_shown pattern.now) }
{
    let text = Text::from_str(alloc, "")?;
    let mut f = fmt::Formatter::new(Writer { text });
    let whole = Task::Disjunction(pattern.body.body.as_slice());
    work_through(alloc, &mut f, whole)?;
    Ok(f.into_inner().text)
}

impl<'a, W: fmt::Write> Work<fmt::Formatter<W>> for Task<'a> {
    ghost use Rattle.std.specs.Fmt.{IsPlainFormatter};
    ghost use Rattle.rx_display.specs.Tasks.{task_text, task_weight};
    ghost use Rattle.rx_display.specs.Writes.{writes};

    ghost ready = { λ f. IsPlainFormatter f };

    ghost does = { λ task f g. writes W.write_str_gives f (task_text task) g };

    ghost weight = { task_weight };

    fn work(self, alloc: Global, f: &mut fmt::Formatter<W>) -> Result<Next<Self>, OutOfMemory> {
        match write_task(alloc, f, self) {
            Ok(next) => Ok(next),
            Err(fmt::Error) => Err(OutOfMemory),
        }
    }
}

/// Writes a front of what a task is to write.
fn write_task<'a, W: fmt::Write>(
    alloc: Global,
    f: &mut fmt::Formatter<W>,
    task: Task<'a>,
) -> Result<Next<Task<'a>>, fmt::Error>
    requires { IsPlainFormatter f.old }
    ensures text { IfOk result (λ next. Goes (writes W.write_str_gives) f.old f.new (task_text task.entry) (texts_of task_text next)) }
    ensures lighter { IfOk result (λ next. sum_by task_weight (tasks_of next) < task_weight task.entry) }
{
    match task {
        Task::Disjunction(alternatives) => Ok(split_disjunction(alternatives)),
        Task::Alternatives(alternatives) => write_bar(f, alternatives),
        Task::Terms { joined, terms } => write_terms(f, joined, terms),
        Task::Term(term) => write_term(alloc, f, term),
        Task::Suffix(it) => {
            write_suffix(f, it)?;
            Ok(Next::Nothing)
        }
        Task::GroupEnd => {
            f.write_str(")")?;
            Ok(Next::Nothing)
        }
    }
}

/// Writes a bar before alternatives, if there are any.
fn write_bar<'a, W: fmt::Write>(
    f: &mut fmt::Formatter<W>,
    alternatives: &'a [Alternative],
) -> Result<Next<Task<'a>>, fmt::Error>
    requires { IsPlainFormatter f.old }
    ensures text { IfOk result (λ next. Goes (writes W.write_str_gives) f.old f.new (barred_shown (tree_of alternatives.now)) (texts_of task_text next)) }
    ensures lighter { IfOk result (λ next. sum_by task_weight (tasks_of next) < 2 + 4 * all_alternatives_size alternatives.now) }
{
    if alternatives.is_empty() {
        return Ok(Next::Nothing);
    }
    f.write_str("|")?;
    Ok(Next::One(Task::Disjunction(alternatives)))
}

/// Writes the next of some terms where it is joined with the one after it, or else puts it back.
fn write_terms<'a, W: fmt::Write>(
    f: &mut fmt::Formatter<W>,
    joined: bool,
    terms: &'a [Term],
) -> Result<Next<Task<'a>>, fmt::Error>
    requires { IsPlainFormatter f.old }
    ensures text { IfOk result (λ next. Goes (writes W.write_str_gives) f.old f.new (nodes_shown joined (nodes (map mirror_term terms.now))) (texts_of task_text next)) }
    ensures lighter { IfOk result (λ next. sum_by task_weight (tasks_of next) < 1 + 4 * terms_size terms.now) }
{
    let Some((first, following)) = terms.split_first() else {
        return Ok(Next::Nothing);
    };
    let pair = term_pair(first, following);
    let rest = Task::Terms {
        joined: pair.is_some(),
        terms: following,
    };
    if joined {
        return Ok(Next::One(rest));
    }
    write_pair_or(f, pair, Task::Term(first), rest)
}

/// Writes a term in which nothing nests, or what another begins with.
#[tactic(auto, using(rx_ast::proofs::Equations::mirrors, rx_ast::proofs::Sizes::sizes))]
fn write_term<'a, W: fmt::Write>(
    alloc: Global,
    f: &mut fmt::Formatter<W>,
    term: &'a Term,
) -> Result<Next<Task<'a>>, fmt::Error>
    requires { IsPlainFormatter f.old }
    ensures text { IfOk result (λ next. Goes (writes W.write_str_gives) f.old f.new (node_shown (mirror_term term.now)) (texts_of task_text next)) }
    ensures lighter { IfOk result (λ next. sum_by task_weight (tasks_of next) < 4 * term_size term.now - 1) }
{
    match term {
        Term::Quantifier(it) => Ok(Next::Two(Task::Term(&it.body), Task::Suffix(it))),
        Term::LookAroundAssertion(it) => {
            f.write_str(look_text(it.kind))?;
            Ok(group_body(&it.body))
        }
        Term::CapturingGroup(it) => {
            write_capturing(f, &it.name)?;
            Ok(group_body(&it.body))
        }
        Term::IgnoreGroup(it) => {
            write_ignoring(f, &it.modifiers)?;
            Ok(group_body(&it.body))
        }
        Term::CharacterClass(it) => {
            write_class(alloc, f, it)?;
            Ok(Next::Nothing)
        }
        // Nothing nests in the others, so this does not call itself.
        _ => {
            term.fmt(f)?;
            Ok(Next::Nothing)
        }
    }
}
