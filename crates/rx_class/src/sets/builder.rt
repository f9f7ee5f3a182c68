ghost use Rattle.std.specs.Prelude.{◌≡◌, ◌≢◌, ◌++◌, ◌∷◌, ◌&&◌, ◌↔◌, [], IsSome, IsTrue, OnOk, Some, false, true};
ghost use Rattle.rx_ast.specs.ClassTree.{mirror_class, mirror_contents};
ghost use Rattle.rx_model.specs.Classes.ClassRuns.{empty, is_whole, operand, with_operator};
ghost use Rattle.rx_model.specs.Classes.ClassShapes.{IsFitting, IsFlagged};
ghost use Rattle.rx_model.specs.Classes.ClassTokens.{bracket, class_events, closer, enter, leave, member_events, token, operator as token_of};
ghost use Rattle.rx_model.specs.Trees.Early.{IsEarlyClass, member_strings};
ghost use Rattle.rx_class.specs.SetReading.BuilderEvents.{builder_events, with_member};
ghost use Rattle.rx_class.specs.SetReading.HeldMirror.{mirror_held};
ghost use Rattle.rx_class.specs.SetReading.WellBuilt.{IsSound, IsWellBuilt};

use crate::sets::held::Held;
use crate::sets::open_bracket::OpenBracket;
use rx_ast::{CharacterClass, CharacterClassContents};
use rx_base::{List, OutOfMemory, SetOperator};
use std::alloc::Global;

/// All that was read of a class whose brackets may nest (ClassUnicodeSets and NestedClass of ECMA-262, 22.2.1): the open
/// brackets, which stand on the heap, so that deep brackets need no deep stack. Offsets are in bytes.
#[derive(Drop)]
pub struct ClassBuilder {
    /// The innermost bracket.
    pub inner: OpenBracket,

    /// The brackets around it, the outermost first.
    pub outer: List<OpenBracket>,
}

impl ClassBuilder {
    /// A class of which only its bracket was read.
    #[tactic(auto, using(crate::proofs::SetReading::BuilderGrowth::new_events, crate::proofs::SetReading::BuilderGrowth::new_well))]
    pub fn new(alloc: Global, start: u32, negative: bool) -> ClassBuilder
        ensures events { builder_events result ≡ enter start ∷ token (bracket negative) ∷ [] }
        ensures held { mirror_held result.inner.held ≡ empty }
        ensures well { IsWellBuilt result }
    {
        ClassBuilder {
            inner: OpenBracket::new(alloc, start, negative),
            outer: List::new(alloc),
        }
    }

    /// Opens a bracket where an operand may stand.
    #[tactic(auto, using(crate::proofs::SetReading::BuilderGrowth::open_events, crate::proofs::SetReading::BuilderGrowth::open_well))]
    #[inline(always)]
    pub fn open(&mut self, alloc: Global, start: u32, negative: bool) -> Result<(), OutOfMemory>
        requires well { IsWellBuilt self.old }
        requires operand { IsSome (operand (mirror_held self.old.inner.held)) }
        ensures events { OnOk result (builder_events self.new ≡ builder_events self.old ++ enter start ∷ token (bracket negative) ∷ []) }
        ensures held { OnOk result (mirror_held self.new.inner.held ≡ empty) }
        ensures well { OnOk result (IsWellBuilt self.new) }
    {
        let around = std::mem::replace(&mut self.inner, OpenBracket::new(alloc, start, negative));
        self.outer.push(around)
    }

    /// Adds an operand or a range, which may match strings or not. After it the innermost bracket holds `held`.
    #[tactic(auto, using(crate::proofs::SetReading::BuilderGrowth::inner_events, crate::proofs::SetReading::BuilderGrowth::inner_well))]
    #[inline(always)]
    pub fn push(
        &mut self,
        contents: CharacterClassContents,
        strings: bool,
        held: Held,
    ) -> Result<(), OutOfMemory>
        requires well { IsWellBuilt self.old }
        requires sound { IsSound (mirror_contents contents) }
        requires strings { strings ≡ member_strings (mirror_contents contents) }
        requires held { with_member (mirror_contents contents) (mirror_held self.old.inner.held) ≡ Some (mirror_held held) }
        ensures events { OnOk result (builder_events self.new ≡ builder_events self.old ++ member_events (mirror_contents contents)) }
        ensures held { OnOk result (mirror_held self.new.inner.held ≡ mirror_held held) }
        ensures well { OnOk result (IsWellBuilt self.new) }
    {
        self.inner.push(contents, strings, held)
    }

    /// Adds an operator. After it the innermost bracket holds `held`.
    pub fn join(&mut self, operator: SetOperator, held: Held)
        requires well { IsWellBuilt self.old }
        requires held { with_operator operator (mirror_held self.old.inner.held) ≡ Some (mirror_held held) }
        ensures events { builder_events self.new ≡ builder_events self.old ++ token (token_of operator) ∷ [] }
        ensures held { mirror_held self.new.inner.held ≡ mirror_held held }
        ensures well { IsWellBuilt self.new }
    {
        self.inner.held = held;
    }

    /// Whether only the class's own bracket is open.
    pub fn is_outermost(&self) -> bool
        ensures { IsTrue result ↔ (self.now.outer ≡ []) }
    {
        self.outer.is_empty()
    }

    /// Closes the innermost bracket, which ends before the byte `end`: it is an operand of the one around it. `last` says that a `]` stands next, so that
    /// the one around it takes no more. It decides only how much memory is taken.
    #[inline(always)]
    pub fn close(&mut self, alloc: Global, end: u32, last: bool) -> Result<(), OutOfMemory>
        requires well { IsWellBuilt self.old }
        requires nested { self.old.outer ≢ [] }
        requires whole { is_whole (mirror_held self.old.inner.held) ≡ true }
        requires no_strings { (self.old.inner.negative && self.old.inner.strings) ≡ false }
        ensures events { OnOk result (builder_events self.new ≡ builder_events self.old ++ token closer ∷ leave end ∷ []) }
        ensures held { OnOk result (is_whole (mirror_held self.new.inner.held) ≡ true) }
        ensures well { OnOk result (IsWellBuilt self.new) }
    {
        let Some(around) = self.outer.pop() else {
            unreachable!();
        };
        // Why: docs/DECISIONS.md, 129.
        let closed = std::mem::replace(&mut self.inner, around);
        let Some(held) = self.inner.held.with_operand() else {
            unreachable!();
        };
        let strings = closed.strings;
        let class = Box::new(alloc, closed.finish(end))?;
        let contents = CharacterClassContents::NestedCharacterClass(class);
        self.inner.reserve_operand(last)?;
        self.inner.push(contents, strings, held)
    }

    /// The class, whose own bracket ends before the byte `end`.
    pub fn finish(self, end: u32) -> CharacterClass
        requires well { IsWellBuilt self }
        requires outermost { self.outer ≡ [] }
        requires whole { is_whole (mirror_held self.inner.held) ≡ true }
        requires no_strings { (self.inner.negative && self.inner.strings) ≡ false }
        ensures events { class_events (mirror_class result) ≡ builder_events self ++ token closer ∷ leave end ∷ [] }
        ensures fitting { IsFitting (mirror_class result) }
        ensures flagged { IsFlagged (mirror_class result) }
        ensures early { IsEarlyClass (mirror_class result) }
    {
        let ClassBuilder { inner, .. } = self;
        inner.finish(end)
    }
}
