ghost use Rattle.std.specs.Prelude.{◌≡◌, IfOk, OnOk, map};
ghost use Rattle.rx_ast.specs.ClassTree.{class as class_of, members, mirror_class, mirror_contents, nested};
ghost use Rattle.rx_rewrite.specs.ClassWorks.{Copies, class_work, contents as contents_work, ending, one, with_class_task};

use rx_ast::{CharacterClass, CharacterClassContents};
use rx_base::{List, OutOfMemory};
use std::alloc::Global;

/// What is still to be copied of a class.
#[derive(Drop)]
pub enum ClassTask<'a> {
    Contents(&'a [CharacterClassContents]),
    /// The end of a nested class, with the copies of what stands before it.
    EndClass {
        class: &'a CharacterClass,
        before: List<CharacterClassContents>,
    },
}

/// The copies so far of what the innermost class that has not ended holds, and what is still to be copied, the next last.
#[derive(Drop)]
pub struct Copier<'a> {
    pub alloc: Global,
    pub tasks: List<ClassTask<'a>>,
    pub body: List<CharacterClassContents>,
}

/// A class with an equal mirror. What is still to be copied waits on the heap, so that deep brackets need no deep stack.
pub fn copy_class(alloc: Global, class: &CharacterClass) -> Result<CharacterClass, OutOfMemory>
    ensures { IfOk result (λ it. mirror_class it ≡ mirror_class class.now) }
{
    let contents = class.body.as_slice();
    let mut copier = Copier {
        alloc,
        tasks: List::new(alloc),
        body: List::with_capacity(alloc, contents.len())?,
    };
    copier.tasks.push(ClassTask::Contents(contents))?;
    while let Some(task) = copier.tasks.pop() {
        copier.perform(task)?;
    }
    let Copier { body, .. } = copier;
    Ok(with_body(class, body))
}

/// The same class with another body.
#[tactic(auto, using(rx_ast::proofs::ClassEquations::class_mirrors))]
fn with_body(class: &CharacterClass, body: List<CharacterClassContents>) -> CharacterClass
    ensures { mirror_class result ≡ class_of class.now.span class.now.negative class.now.strings class.now.kind (members (map mirror_contents body)) }
{
    CharacterClass {
        span: class.span,
        negative: class.negative,
        strings: class.strings,
        kind: class.kind,
        body,
    }
}

impl<'a> Copier<'a> {
    /// Does a task, or cuts it into smaller ones.
    fn perform(&mut self, task: ClassTask<'a>) -> Result<(), OutOfMemory>
        ensures { OnOk result (Copies self.old (class_work task.entry) self.new) }
    {
        match task {
            ClassTask::Contents(contents) => self.contents(contents),
            ClassTask::EndClass { class, before } => self.end_class(class, before),
        }
    }

    fn contents(&mut self, contents: &'a [CharacterClassContents]) -> Result<(), OutOfMemory>
        ensures { OnOk result (Copies self.old (contents_work (members (map mirror_contents contents.now))) self.new) }
    {
        let Some((first, more)) = contents.split_first() else {
            return Ok(());
        };
        self.push_task(ClassTask::Contents(more))?;
        self.copy(first)
    }

    fn copy(&mut self, contents: &'a CharacterClassContents) -> Result<(), OutOfMemory>
        ensures { OnOk result (Copies self.old (one (mirror_contents contents.now)) self.new) }
    {
        match contents {
            CharacterClassContents::NestedCharacterClass(it) => self.open_class(it),
            CharacterClassContents::CharacterClassRange(_) => self.copy_flat(contents),
            CharacterClassContents::CharacterClassEscape(_) => self.copy_flat(contents),
            CharacterClassContents::UnicodePropertyEscape(_) => self.copy_flat(contents),
            CharacterClassContents::Character(_) => self.copy_flat(contents),
            CharacterClassContents::ClassStringDisjunction(_) => self.copy_flat(contents),
        }
    }

    fn open_class(&mut self, class: &'a CharacterClass) -> Result<(), OutOfMemory>
        ensures { OnOk result (Copies self.old (one (nested (mirror_class class.now))) self.new) }
    {
        let contents = class.body.as_slice();
        let inner = List::with_capacity(self.alloc, contents.len())?;
        let before = std::mem::replace(&mut self.body, inner);
        self.push_task(ClassTask::EndClass { class, before })?;
        self.push_task(ClassTask::Contents(contents))
    }

    fn end_class(
        &mut self,
        class: &CharacterClass,
        before: List<CharacterClassContents>,
    ) -> Result<(), OutOfMemory>
        ensures { OnOk result (Copies self.old (ending class.now.span class.now.negative class.now.strings class.now.kind (map mirror_contents before)) self.new) }
    {
        let body = std::mem::replace(&mut self.body, before);
        let copy = with_body(class, body);
        let copy = Box::new(self.alloc, copy)?;
        self.body
            .push(CharacterClassContents::NestedCharacterClass(copy))
    }

    /// Adds a copy of what holds no class.
    fn copy_flat(&mut self, contents: &CharacterClassContents) -> Result<(), OutOfMemory>
        ensures { OnOk result (Copies self.old (one (mirror_contents contents.now)) self.new) }
    {
        let copy = contents.clone(self.alloc)?;
        self.body.push(copy)
    }

    fn push_task(&mut self, task: ClassTask<'a>) -> Result<(), OutOfMemory>
        ensures { OnOk result (self.new ≡ with_class_task self.old task.entry) }
    {
        self.tasks.push(task)
    }
}
