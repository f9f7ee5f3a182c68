ghost use Rattle.std.specs.Prelude.{◌++◌, ◌+◌, ◌*◌, ◌-◌, ◌<◌, IfOk, OnOk, codes, map, sum_by};
ghost use Rattle.std.specs.Fmt.{IsPlainFormatter};
ghost use Rattle.rx_ast.specs.ClassTree.{members, mirror_class, mirror_contents};
ghost use Rattle.rx_ast.specs.Shown.{class_shown, member_shown, more_members_shown};
ghost use Rattle.rx_ast.specs.Size.{all_contents_size, contents_size};
ghost use Rattle.rx_ast.specs.Texts.{operator_text as operator};
ghost use Rattle.rx_display.specs.ClassTasks.{class_task_text, class_task_weight};
ghost use Rattle.rx_display.specs.Writes.{writes};
ghost use Rattle.rx_tasks.specs.Tasks.{tasks_of};
ghost use Rattle.rx_tasks.specs.Texts.{Goes, texts_of};

use crate::pair::write_pair_or;
use rx_ast::parts::{class_opener, contents_pair, operator_text};
use rx_ast::{CharacterClass, CharacterClassContents, CharacterClassContentsKind};
use rx_base::OutOfMemory;
use rx_tasks::{Next, Work, work_through};
use std::alloc::Global;
use std::fmt;
use std::fmt::Display;

/// What is still to be written of a class.
#[derive(Clone, Copy)]
enum ClassTask<'a> {
    /// A class.
    Class(&'a CharacterClass),

    /// One of a class's contents.
    Contents(&'a CharacterClassContents),

    /// The rest of a class: contents, each after the operator of that kind, and the closer. The first may have been written together
    /// with the one before it.
    Rest {
        joined: bool,
        kind: CharacterClassContentsKind,
        contents: &'a [CharacterClassContents],
    },
}

impl<'a, W: fmt::Write> Work<fmt::Formatter<W>> for ClassTask<'a> {
    ghost use Rattle.std.specs.Fmt.{IsPlainFormatter};
    ghost use Rattle.rx_display.specs.ClassTasks.{class_task_text, class_task_weight};
    ghost use Rattle.rx_display.specs.Writes.{writes};

    ghost ready = { λ f. IsPlainFormatter f };

    ghost does = { λ task f g. writes W.write_str_gives f (class_task_text task) g };

    ghost weight = { class_task_weight };

    fn work(self, _alloc: Global, f: &mut fmt::Formatter<W>) -> Result<Next<Self>, OutOfMemory> {
        match write_class_task(f, self) {
            Ok(next) => Ok(next),
            Err(fmt::Error) => Err(OutOfMemory),
        }
    }
}

/// Writes a class, also one with classes in it.
pub fn write_class<W: fmt::Write>(
    alloc: Global,
    f: &mut fmt::Formatter<W>,
    class: &CharacterClass,
) -> fmt::Result
    requires { IsPlainFormatter f.old }
    ensures { OnOk result (writes W.write_str_gives f.old (class_shown (mirror_class class.now)) f.new) }
{
    match work_through(alloc, f, ClassTask::Class(class)) {
        Ok(()) => Ok(()),
        Err(OutOfMemory) => Err(fmt::Error),
    }
}

/// Writes a front of what a task is to write.
fn write_class_task<'a, W: fmt::Write>(
    f: &mut fmt::Formatter<W>,
    task: ClassTask<'a>,
) -> Result<Next<ClassTask<'a>>, fmt::Error>
    requires { IsPlainFormatter f.old }
    ensures text { IfOk result (λ next. Goes (writes W.write_str_gives) f.old f.new (class_task_text task.entry) (texts_of class_task_text next)) }
    ensures lighter { IfOk result (λ next. sum_by class_task_weight (tasks_of next) < class_task_weight task.entry) }
{
    match task {
        ClassTask::Class(class) => open_class(f, class),
        ClassTask::Contents(contents) => write_contents(f, contents),
        ClassTask::Rest {
            joined,
            kind,
            contents,
        } => write_rest(f, joined, kind, contents),
    }
}

/// Writes the opener of a class.
fn open_class<'a, W: fmt::Write>(
    f: &mut fmt::Formatter<W>,
    class: &'a CharacterClass,
) -> Result<Next<ClassTask<'a>>, fmt::Error>
    requires { IsPlainFormatter f.old }
    ensures text { IfOk result (λ next. Goes (writes W.write_str_gives) f.old f.new (class_shown (mirror_class class.now)) (texts_of class_task_text next)) }
    ensures lighter { IfOk result (λ next. sum_by class_task_weight (tasks_of next) < 1 + 3 * all_contents_size class.now.body) }
{
    f.write_str(class_opener(class.negative))?;
    let Some((first, contents)) = class.body.as_slice().split_first() else {
        f.write_str("]")?;
        return Ok(Next::Nothing);
    };
    let pair = contents_pair(first, contents);
    let rest = ClassTask::Rest {
        joined: pair.is_some(),
        kind: class.kind,
        contents,
    };
    write_pair_or(f, pair, ClassTask::Contents(first), rest)
}

/// Writes one of a class's contents that is no class.
#[tactic(auto, using(rx_ast::proofs::ClassEquations::class_mirrors, rx_ast::proofs::ClassSizes::class_sizes))]
fn write_contents<'a, W: fmt::Write>(
    f: &mut fmt::Formatter<W>,
    contents: &'a CharacterClassContents,
) -> Result<Next<ClassTask<'a>>, fmt::Error>
    requires { IsPlainFormatter f.old }
    ensures text { IfOk result (λ next. Goes (writes W.write_str_gives) f.old f.new (member_shown (mirror_contents contents.now)) (texts_of class_task_text next)) }
    ensures lighter { IfOk result (λ next. sum_by class_task_weight (tasks_of next) < 3 * contents_size contents.now - 1) }
{
    if let CharacterClassContents::NestedCharacterClass(class) = contents {
        return Ok(Next::One(ClassTask::Class(class)));
    }
    contents.fmt(f)?;
    Ok(Next::Nothing)
}

/// Writes the operator, and the next of the contents where it is joined with the one after it; where there is none, the closer.
fn write_rest<'a, W: fmt::Write>(
    f: &mut fmt::Formatter<W>,
    joined: bool,
    kind: CharacterClassContentsKind,
    contents: &'a [CharacterClassContents],
) -> Result<Next<ClassTask<'a>>, fmt::Error>
    requires { IsPlainFormatter f.old }
    ensures text { IfOk result (λ next. Goes (writes W.write_str_gives) f.old f.new (more_members_shown (operator kind) joined (members (map mirror_contents contents.now)) ++ codes "]") (texts_of class_task_text next)) }
    ensures lighter { IfOk result (λ next. sum_by class_task_weight (tasks_of next) < 1 + 3 * all_contents_size contents.now) }
{
    let Some((first, following)) = contents.split_first() else {
        f.write_str("]")?;
        return Ok(Next::Nothing);
    };
    let pair = contents_pair(first, following);
    let rest = ClassTask::Rest {
        joined: pair.is_some(),
        kind,
        contents: following,
    };
    if joined {
        return Ok(Next::One(rest));
    }
    f.write_str(operator_text(kind))?;
    write_pair_or(f, pair, ClassTask::Contents(first), rest)
}
