ghost use Rattle.std.specs.Prelude.{◌≡◌, ◌≤◌, ◌++◌, ◌∷◌, ◌&&◌, [], OnOk, Some, false, true};
ghost use Rattle.rx_ast.specs.ClassTree as ClassTree;
ghost use Rattle.rx_ast.specs.ClassTree.{mirror_class, mirror_contents};
ghost use Rattle.rx_model.specs.Classes.ClassRuns.{bracket_of, empty, is_union, operand, with_range, with_strings};
ghost use Rattle.rx_model.specs.Classes.ClassTokens.{bracket, enter, member_events, token};
ghost use Rattle.rx_model.specs.Trees.Early.{member_strings};
ghost use Rattle.rx_class.specs.SetReading.BuilderEvents.{bracket_at, bracket_events, class_of, with_member};
ghost use Rattle.rx_class.specs.SetReading.HeldMirror.{mirror_held};
ghost use Rattle.rx_class.specs.SetReading.WellBuilt.{IsSound, IsWellHeld};

use crate::classes::item::range_contents;
use crate::sets::held::Held;
use rx_ast::{Character, CharacterClass, CharacterClassContents, CharacterClassRange};
use rx_base::{List, OutOfMemory, Span};
use std::alloc::Global;

/// A bracket of a class that has not closed yet, and what was read in it (ClassContents of ECMA-262, 22.2.1).
#[derive(Drop)]
pub struct OpenBracket {
    /// The byte at which it begins.
    pub start: u32,

    /// Whether it begins with `^`.
    pub negative: bool,
    pub held: Held,

    /// Whether what it holds may match a string that is not one character.
    pub strings: bool,
    pub body: List<CharacterClassContents>,
}

impl OpenBracket {
    /// A bracket in which nothing was read.
    #[tactic(auto, using(crate::proofs::SetReading::OpenBrackets::new_bracket, crate::proofs::SetReading::OpenBrackets::well_new))]
    #[inline(always)]
    pub fn new(alloc: Global, start: u32, negative: bool) -> OpenBracket
        ensures events { bracket_events result ≡ enter start ∷ token (bracket negative) ∷ [] }
        ensures bracket { bracket_at result ≡ bracket_of negative empty false }
        ensures well { IsWellHeld result }
    {
        OpenBracket {
            start,
            negative,
            held: Held::Empty,
            strings: false,
            body: List::new(alloc),
        }
    }

    /// Takes memory for one operand alone, where none is held yet and the next one is the `last`. Otherwise the first operand takes memory for four.
    #[inline(always)]
    pub fn reserve_operand(&mut self, last: bool) -> Result<(), OutOfMemory>
        ensures { self.new ≡ self.old }
    {
        if last && self.body.is_empty() {
            self.body = List::with_capacity(self.body.allocator(), 1)?;
        }
        Ok(())
    }

    /// Adds an operand or a range, which may match strings or not. After it the bracket holds `held`.
    #[inline(always)]
    pub fn push(
        &mut self,
        contents: CharacterClassContents,
        strings: bool,
        held: Held,
    ) -> Result<(), OutOfMemory>
        requires well { IsWellHeld self.old }
        requires sound { IsSound (mirror_contents contents) }
        requires strings { strings ≡ member_strings (mirror_contents contents) }
        requires held { with_member (mirror_contents contents) (mirror_held self.old.held) ≡ Some (mirror_held held) }
        ensures events { OnOk result (bracket_events self.new ≡ bracket_events self.old ++ member_events (mirror_contents contents)) }
        ensures bracket { OnOk result (bracket_at self.new ≡ bracket_of self.old.negative (mirror_held held) (with_strings (mirror_held self.old.held) self.old.strings strings)) }
        ensures well { OnOk result (IsWellHeld self.new) }
    {
        self.body.push(contents)?;
        self.strings = self.held.with_strings(self.strings, strings);
        self.held = held;
        Ok(())
    }

    /// Adds a character to a union.
    #[inline(always)]
    pub fn add_character(&mut self, character: Character) -> Result<(), OutOfMemory>
        requires union { is_union (mirror_held self.old.held) ≡ true }
        requires well { IsWellHeld self.old }
        requires code_point { character.value ≤ 0x10FFFF }
        ensures events { OnOk result (bracket_events self.new ≡ bracket_events self.old ++ member_events (ClassTree.character character)) }
        ensures held { OnOk result (operand (mirror_held self.old.held) ≡ Some (mirror_held self.new.held)) }
        ensures well { OnOk result (IsWellHeld self.new) }
    {
        self.body
            .push(CharacterClassContents::Character(character))?;
        self.held = self.held.with_member();
        Ok(())
    }

    /// Adds a range to a union.
    #[inline(always)]
    pub fn add_range(
        &mut self,
        alloc: Global,
        range: CharacterClassRange,
    ) -> Result<(), OutOfMemory>
        requires union { is_union (mirror_held self.old.held) ≡ true }
        requires well { IsWellHeld self.old }
        requires sound { IsSound (ClassTree.range range) }
        ensures events { OnOk result (bracket_events self.new ≡ bracket_events self.old ++ member_events (ClassTree.range range)) }
        ensures held { OnOk result (with_range (mirror_held self.old.held) ≡ Some (mirror_held self.new.held)) }
        ensures well { OnOk result (IsWellHeld self.new) }
    {
        self.body.push(range_contents(alloc, range)?)?;
        self.held = Held::Several;
        Ok(())
    }

    /// Whether it is refused where it closes: it is negative, and may match strings (22.2.1.1).
    pub fn is_refused(&self) -> bool
        ensures { result ≡ (self.now.negative && self.now.strings) }
    {
        self.negative && self.strings
    }

    /// The bracket as a class, which ends before the byte `end`.
    #[tactic(auto, using(rx_ast::proofs::ClassEquations::class_mirrors))]
    pub fn finish(self, end: u32) -> CharacterClass
        ensures { mirror_class result ≡ class_of self end }
    {
        let OpenBracket {
            start,
            negative,
            held,
            strings,
            body,
        } = self;
        CharacterClass {
            span: Span::new(start, end),
            negative,
            strings,
            kind: held.kind(),
            body,
        }
    }
}
