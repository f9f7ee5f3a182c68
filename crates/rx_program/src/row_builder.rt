ghost use Rattle.std.specs.Prelude.{◌≡◌, ℕ, ◌+◌, ◌*◌, ◌∷◌, false, IfOk, OnOk, map, reverse};
ghost use Rattle.rx_ast.specs.ClassTree.{class as class_of, members, mirror_class, mirror_contents};
ghost use Rattle.rx_ast.specs.Forget.{nowhere};
ghost use Rattle.rx_program.specs.Checks.{row_holds};
ghost use Rattle.rx_trace.specs.Holding.{class_holds, first_holds, member_holds};
ghost use Rattle.rx_program.specs.RowParts.{CanLead, IsRow, LeadsOn, MakesPart, with_check, with_part};
ghost use Rattle.rx_program.specs.SurveyState.{class_looks, member_looks, members_looks};

use crate::checks::{Check, ClassRow, ItemTest, Target, answers_from};
use rx_ast::{CharacterClass, CharacterClassContents, CharacterClassContentsKind};
use rx_base::{List, OutOfMemory};
use std::alloc::Global;

/// Items that are still to be made into checks, which come before what is made.
#[derive(Clone, Copy)]
pub enum Part<'a> {
    /// Where one of them holds, `held` comes next. Where none does, what is made comes next.
    Any {
        items: &'a [CharacterClassContents],
        held: Target,
    },
    /// Where all of them hold, what is made comes next. Where one does not, `not_held` comes next.
    All {
        items: &'a [CharacterClassContents],
        not_held: Target,
    },
    /// Where it holds, what is made comes next. Where it does not, `not_held` comes next.
    Item {
        item: &'a CharacterClassContents,
        not_held: Target,
    },
}

/// The checks of a class, which are made from its end: what is still to be made, and the target that what is made begins with.
#[derive(Drop)]
pub struct RowBuilder<'a> {
    pub checks: List<Check>,
    pub parts: List<Part<'a>>,
    pub target: Target,
}

impl<'a> RowBuilder<'a> {
    fn push_part(&mut self, part: Part<'a>) -> Result<(), OutOfMemory>
        ensures { OnOk result (self.new ≡ with_part self.old part.entry) }
    {
        self.parts.push(part)
    }

    fn push_check(
        &mut self,
        test: ItemTest,
        held: Target,
        not_held: Target,
    ) -> Result<(), OutOfMemory>
        ensures { OnOk result (self.new ≡ with_check self.old (record { test = test; held = held; not_held = not_held })) }
    {
        let at = self.checks.len();
        self.checks.push(Check {
            test,
            held,
            not_held,
        })?;
        self.target = Target::Check(at);
        Ok(())
    }
}

/// Items, each with what comes after it.
impl<'a> RowBuilder<'a> {
    #[tactic(auto, using(rx_ast::proofs::ClassEquations::class_mirrors))]
    fn item(
        &mut self,
        item: &'a CharacterClassContents,
        held: Target,
        not_held: Target,
    ) -> Result<(), OutOfMemory>
        requires { CanLead self.old held not_held }
        ensures { OnOk result (LeadsOn self.old (member_holds (mirror_contents item.now)) (2 * member_looks (mirror_contents item.now)) held not_held self.new) }
    {
        match item {
            CharacterClassContents::CharacterClassRange(it) => {
                let test = ItemTest::Range {
                    min: it.min.value,
                    max: it.max.value,
                };
                self.push_check(test, held, not_held)
            }
            CharacterClassContents::CharacterClassEscape(it) => {
                self.push_check(ItemTest::Escape(it.kind), held, not_held)
            }
            CharacterClassContents::UnicodePropertyEscape(_) => {
                self.target = not_held;
                Ok(())
            }
            CharacterClassContents::Character(it) => {
                self.push_check(ItemTest::Character(it.value), held, not_held)
            }
            CharacterClassContents::NestedCharacterClass(it) => self.class(it, held, not_held),
            CharacterClassContents::ClassStringDisjunction(_) => {
                self.target = not_held;
                Ok(())
            }
        }
    }

    /// A negative class is the other way round.
    fn class(
        &mut self,
        class: &'a CharacterClass,
        held: Target,
        not_held: Target,
    ) -> Result<(), OutOfMemory>
        requires { CanLead self.old held not_held }
        ensures { OnOk result (LeadsOn self.old (class_holds (mirror_class class.now)) (1 + 2 * class_looks (mirror_class class.now)) held not_held self.new) }
    {
        let items = class.body.as_slice();
        if class.negative {
            self.contents(class.kind, items, not_held, held)
        } else {
            self.contents(class.kind, items, held, not_held)
        }
    }

    fn contents(
        &mut self,
        kind: CharacterClassContentsKind,
        items: &'a [CharacterClassContents],
        held: Target,
        not_held: Target,
    ) -> Result<(), OutOfMemory>
        requires { CanLead self.old held not_held }
        ensures { OnOk result (LeadsOn self.old (class_holds (class_of nowhere false false kind (members (map mirror_contents items.now)))) (1 + 2 * members_looks (members (map mirror_contents items.now))) held not_held self.new) }
    {
        match kind {
            CharacterClassContentsKind::Union => {
                self.target = not_held;
                self.push_part(Part::Any { items, held })
            }
            CharacterClassContentsKind::Intersection => {
                self.target = held;
                self.push_part(Part::All { items, not_held })
            }
            CharacterClassContentsKind::Subtraction => self.subtraction(items, held, not_held),
        }
    }

    /// The first item holds, and no later one.
    fn subtraction(
        &mut self,
        items: &'a [CharacterClassContents],
        held: Target,
        not_held: Target,
    ) -> Result<(), OutOfMemory>
        requires { CanLead self.old held not_held }
        ensures { OnOk result (LeadsOn self.old (first_holds (members (map mirror_contents items.now))) (1 + 2 * members_looks (members (map mirror_contents items.now))) held not_held self.new) }
    {
        let Some((item, items)) = items.split_first() else {
            self.target = not_held;
            return Ok(());
        };
        self.target = held;
        self.push_part(Part::Item { item, not_held })?;
        self.push_part(Part::Any {
            items,
            held: not_held,
        })
    }

    fn any(&mut self, items: &'a [CharacterClassContents], held: Target) -> Result<(), OutOfMemory>
        requires { CanLead self.old held self.old.target }
        ensures { OnOk result (MakesPart self.old (Part.Any items.entry held) self.new) }
    {
        let Some((last, items)) = items.split_last() else {
            return Ok(());
        };
        self.push_part(Part::Any { items, held })?;
        self.item(last, held, self.target)
    }

    fn all(
        &mut self,
        items: &'a [CharacterClassContents],
        not_held: Target,
    ) -> Result<(), OutOfMemory>
        requires { CanLead self.old self.old.target not_held }
        ensures { OnOk result (MakesPart self.old (Part.All items.entry not_held) self.new) }
    {
        let Some((last, items)) = items.split_last() else {
            return Ok(());
        };
        self.push_part(Part::All { items, not_held })?;
        self.item(last, self.target, not_held)
    }

    /// Makes the last item of a part, and leaves the others for later.
    fn make(&mut self, part: Part<'a>) -> Result<(), OutOfMemory>
        requires { IsRow self.old (part ∷ reverse self.old.parts) }
        ensures { OnOk result (MakesPart self.old part.entry self.new) }
    {
        match part {
            Part::Any { items, held } => self.any(items, held),
            Part::All { items, not_held } => self.all(items, not_held),
            Part::Item { item, not_held } => self.item(item, self.target, not_held),
        }
    }
}

/// The row of a class. What is still to be made waits on the heap, so that a deep class needs no deep stack.
pub fn class_row(alloc: Global, class: &CharacterClass) -> Result<ClassRow, OutOfMemory>
    ensures { IfOk result (λ row. (c : ℕ) → row_holds row c ≡ class_holds (mirror_class class.now) c) }
{
    let mut builder = RowBuilder {
        checks: List::new(alloc),
        parts: List::new(alloc),
        target: Target::NotHeld,
    };
    builder.class(class, Target::Held, Target::NotHeld)?;
    while let Some(part) = builder.parts.pop() {
        builder.make(part)?;
    }
    let RowBuilder { checks, target, .. } = builder;
    let low = answers_from(checks.as_slice(), target, 0);
    let high = answers_from(checks.as_slice(), target, 64);
    Ok(ClassRow {
        low,
        high,
        checks,
        first: target,
    })
}
