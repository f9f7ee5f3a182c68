ghost use Rattle.std.specs.Prelude.{◌≡◌, ◌++◌, ◌+◌, ◌*◌, ◌<◌, IfOk, OnOk, codes, false, map, sum_by};
ghost use Rattle.std.specs.Io.KnownBytes.{Appends};
ghost use Rattle.rx_ast.specs.ClassTree.{members, mirror_class, mirror_contents};
ghost use Rattle.rx_ast.specs.Size.{all_contents_size, contents_size};
ghost use Rattle.rx_ast.specs.Texts.{operator_text as operator};
ghost use Rattle.rx_model.specs.Spelling.ClassText.{class_text, member_text, more_members_text};
ghost use Rattle.rx_tasks.specs.Tasks.{tasks_of};
ghost use Rattle.rx_tasks.specs.Texts.{Goes, texts_of};
ghost use Rattle.rx_tools.specs.ClassTasks.{class_task_text, class_task_weight};
ghost use Rattle.rx_tools.specs.Leaves.{is_nested as is_class};
ghost use Rattle.rx_tools.specs.Utf8.{utf8};
ghost use Rattle.rx_tools.specs.Writes.{writes};

use crate::class::{write_flat_contents, write_opener};
use crate::write::{write_char, write_str};
use rx_ast::parts::operator_text;
use rx_ast::{CharacterClass, CharacterClassContents, CharacterClassContentsKind};
use rx_base::{Failed, OutOfMemory, TextSink};
use rx_model::Mode;
use rx_tasks::{Next, Work, work_through};
use std::alloc::Global;

/// What is still to be written of a class.
#[derive(Clone, Copy)]
enum ClassTask<'a> {
    /// A class.
    Class(Mode, &'a CharacterClass),

    /// The rest of a class: contents, each after the operator of that kind, and the closer.
    Rest(Mode, CharacterClassContentsKind, &'a [CharacterClassContents]),
}

impl<'a, W: TextSink> Work<W> for ClassTask<'a> {
    ghost use Rattle.rx_tools.specs.ClassTasks.{class_task_text, class_task_weight};
    ghost use Rattle.rx_tools.specs.Writes.{writes};

    ghost does = { λ task old new. writes W.taken old (class_task_text task) new };

    ghost weight = { class_task_weight };

    #[inline(always)]
    fn work(self, _alloc: Global, sink: &mut W) -> Result<Next<Self>, OutOfMemory> {
        match write_class_task(sink, self) {
            Ok(next) => Ok(next),
            Err(Failed) => Err(OutOfMemory),
        }
    }
}

/// Writes a class, also one with classes in it, by a loop over tasks on the heap.
pub fn write_class<W: TextSink>(
    alloc: Global,
    sink: &mut W,
    mode: Mode,
    class: &CharacterClass,
) -> Result<(), Failed>
    ensures { OnOk result (Appends (W.taken sink.old) (W.taken sink.new) (utf8 (class_text mode (mirror_class class.now)))) }
{
    match work_through(alloc, sink, ClassTask::Class(mode, class)) {
        Ok(()) => Ok(()),
        Err(OutOfMemory) => Err(Failed),
    }
}

/// Writes what a task is to write, up to the next class in it.
#[inline(always)]
fn write_class_task<'a, W: TextSink>(
    sink: &mut W,
    task: ClassTask<'a>,
) -> Result<Next<ClassTask<'a>>, Failed>
    ensures text { IfOk result (λ next. Goes (writes W.taken) sink.old sink.new (class_task_text task.entry) (texts_of class_task_text next)) }
    ensures lighter { IfOk result (λ next. sum_by class_task_weight (tasks_of next) < class_task_weight task.entry) }
{
    match task {
        ClassTask::Class(mode, class) => open_class(sink, mode, class),
        ClassTask::Rest(mode, kind, contents) => write_rest(sink, mode, kind, contents),
    }
}

/// Writes the opener of a class, and the first of its contents.
fn open_class<'a, W: TextSink>(
    sink: &mut W,
    mode: Mode,
    class: &'a CharacterClass,
) -> Result<Next<ClassTask<'a>>, Failed>
    ensures text { IfOk result (λ next. Goes (writes W.taken) sink.old sink.new (class_text mode (mirror_class class.now)) (texts_of class_task_text next)) }
    ensures lighter { IfOk result (λ next. sum_by class_task_weight (tasks_of next) < 1 + 2 * all_contents_size class.now.body) }
{
    write_opener(sink, class.negative)?;
    let Some((first, others)) = class.body.as_slice().split_first() else {
        write_char(sink, ']')?;
        return Ok(Next::Nothing);
    };
    write_or_put_back(sink, mode, first, ClassTask::Rest(mode, class.kind, others))
}

/// Writes the next of the contents after the operator; where there is none, the closer.
fn write_rest<'a, W: TextSink>(
    sink: &mut W,
    mode: Mode,
    kind: CharacterClassContentsKind,
    contents: &'a [CharacterClassContents],
) -> Result<Next<ClassTask<'a>>, Failed>
    ensures text { IfOk result (λ next. Goes (writes W.taken) sink.old sink.new (more_members_text mode (operator kind) (members (map mirror_contents contents.now)) ++ codes "]") (texts_of class_task_text next)) }
    ensures lighter { IfOk result (λ next. sum_by class_task_weight (tasks_of next) < 1 + 2 * all_contents_size contents.now) }
{
    let Some((first, others)) = contents.split_first() else {
        write_char(sink, ']')?;
        return Ok(Next::Nothing);
    };
    write_str(sink, operator_text(kind))?;
    write_or_put_back(sink, mode, first, ClassTask::Rest(mode, kind, others))
}

/// Writes one of a class's contents, or puts it back where it is a class. The rest is put back after that.
#[inline(always)]
#[tactic(auto, using(rx_ast::proofs::ClassEquations::class_mirrors, rx_ast::proofs::ClassSizes::class_sizes))]
fn write_or_put_back<'a, W: TextSink>(
    sink: &mut W,
    mode: Mode,
    contents: &'a CharacterClassContents,
    rest: ClassTask<'a>,
) -> Result<Next<ClassTask<'a>>, Failed>
    ensures text { IfOk result (λ next. Goes (writes W.taken) sink.old sink.new (member_text mode (mirror_contents contents.now) ++ class_task_text rest.entry) (texts_of class_task_text next)) }
    ensures lighter { IfOk result (λ next. sum_by class_task_weight (tasks_of next) < 2 * contents_size contents.now + class_task_weight rest.entry) }
{
    match contents {
        CharacterClassContents::NestedCharacterClass(class) => {
            Ok(Next::Two(ClassTask::Class(mode, class), rest))
        }
        CharacterClassContents::CharacterClassRange(_) => write_alone(sink, mode, contents, rest),
        CharacterClassContents::CharacterClassEscape(_) => write_alone(sink, mode, contents, rest),
        CharacterClassContents::UnicodePropertyEscape(_) => write_alone(sink, mode, contents, rest),
        CharacterClassContents::Character(_) => write_alone(sink, mode, contents, rest),
        CharacterClassContents::ClassStringDisjunction(_) => write_alone(
            sink, mode, contents, rest,
        ),
    }
}

/// Writes one of a class's contents that is no class. The rest is put back.
#[tactic(auto, using(rx_ast::proofs::ClassSizes::class_sizes))]
fn write_alone<'a, W: TextSink>(
    sink: &mut W,
    mode: Mode,
    contents: &'a CharacterClassContents,
    rest: ClassTask<'a>,
) -> Result<Next<ClassTask<'a>>, Failed>
    requires { is_class (mirror_contents contents.now) ≡ false }
    ensures text { IfOk result (λ next. Goes (writes W.taken) sink.old sink.new (member_text mode (mirror_contents contents.now) ++ class_task_text rest.entry) (texts_of class_task_text next)) }
    ensures lighter { IfOk result (λ next. sum_by class_task_weight (tasks_of next) < 2 * contents_size contents.now + class_task_weight rest.entry) }
{
    write_flat_contents(sink, mode, contents)?;
    Ok(Next::One(rest))
}
