use crate::ranges::Ranges;
use rx_ast::{Character, CharacterClassContents, CharacterClassEscape, CharacterClassRange};
use rx_base::OutOfMemory;
use rx_kinds::class_escape_code;
use std::alloc::Global;
use std::collections::BTreeSet;

/// Items of a class, as far as they make later ones useless: the values of the characters, the ranges, and the numbers of the kinds of the class escapes.
#[derive(Drop)]
pub(crate) struct Items {
    characters: BTreeSet<u32>,
    ranges: Ranges,
    escapes: BTreeSet<u8>,
}

impl Items {
    ghost use Rattle.std.specs.Prelude.{◌≡◌, [], ◌∷◌, ◌++◌, List as Sequence, IfOk};
    ghost use Rattle.rx_ast.specs.ClassTree.{Member, range, escape, character, mirror_contents};
    ghost use Rattle.rx_lint.specs.Items.{AreItems, is_useless};

    pub fn new(alloc: Global) -> Items
        ensures { AreItems result [] }
    {
        Items {
            characters: BTreeSet::new(alloc),
            ranges: Ranges::new(alloc),
            escapes: BTreeSet::new(alloc),
        }
    }

    /// Adds an item, and says whether an earlier one makes it useless.
    pub fn add(&mut self, item: &CharacterClassContents) -> Result<bool, OutOfMemory>
        ensures { IfOk result (λ useless. (before : Sequence Member) → AreItems self.old before → (useless ≡ is_useless (mirror_contents item.now) before) × AreItems self.new (before ++ mirror_contents item.now ∷ [])) }
    {
        match item {
            CharacterClassContents::CharacterClassRange(it) => self.add_range(it),
            CharacterClassContents::CharacterClassEscape(it) => self.add_escape(it),
            CharacterClassContents::UnicodePropertyEscape(_) => Ok(false),
            CharacterClassContents::Character(it) => self.add_character(it),
            CharacterClassContents::NestedCharacterClass(_) => Ok(false),
            CharacterClassContents::ClassStringDisjunction(_) => Ok(false),
        }
    }

    fn add_character(&mut self, it: &Character) -> Result<bool, OutOfMemory>
        ensures { IfOk result (λ useless. (before : Sequence Member) → AreItems self.old before → (useless ≡ is_useless (character it.now) before) × AreItems self.new (before ++ character it.now ∷ [])) }
    {
        let is_covered = self.ranges.covers(it.value, it.value);
        let is_new = self.characters.insert(it.value)?;
        Ok(is_covered || !is_new)
    }

    fn add_range(&mut self, it: &CharacterClassRange) -> Result<bool, OutOfMemory>
        ensures { IfOk result (λ useless. (before : Sequence Member) → AreItems self.old before → (useless ≡ is_useless (range it.now) before) × AreItems self.new (before ++ range it.now ∷ [])) }
    {
        let min = it.min.value;
        let max = it.max.value;
        let is_covered = self.ranges.covers(min.min(max), min.max(max));
        if min > max || is_covered {
            return Ok(is_covered);
        }
        self.ranges.add(min, max)?;
        Ok(false)
    }

    fn add_escape(&mut self, it: &CharacterClassEscape) -> Result<bool, OutOfMemory>
        ensures { IfOk result (λ useless. (before : Sequence Member) → AreItems self.old before → (useless ≡ is_useless (escape it.now) before) × AreItems self.new (before ++ escape it.now ∷ [])) }
    {
        let is_new = self.escapes.insert(class_escape_code(it.kind))?;
        Ok(!is_new)
    }
}
