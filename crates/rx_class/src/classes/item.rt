ghost use Rattle.std.specs.Prelude.{◌≡◌, ◌++◌, ◌∷◌, [], Err, IfErr, IfOk, MatchResult, Ok, OnOk, false, true};
ghost use Rattle.rx_ast.specs.ClassTree as ClassTree;
ghost use Rattle.rx_ast.specs.ClassTree.{mirror_contents};
ghost use Rattle.rx_units.specs.Cursor.{Cursor, move_on, offset_of, rest};
ghost use Rattle.rx_units.specs.Pace.{IsMove, IsPaced, TakesSteps};
ghost use Rattle.rx_units.specs.Units.{values};
ghost use Rattle.rx_model.specs.Classes.ClassRows.{is_dashed};
ghost use Rattle.rx_model.specs.Classes.ClassTokens.{is_character};
ghost use Rattle.rx_model.specs.Inputs.Environment.{is_sets};
ghost use Rattle.rx_class.specs.EscapeReading.Answers.{environment_of, span_to};
ghost use Rattle.rx_class.specs.ClassReading.Items.{AddsItem, AddsRange, BeginsItem, GivesAtom, GivesItem, IsBetween, IsRangeItem, StandsAlone, StandsInOrder, StandsItem, are_three, atom_member, atom_of, hyphen_member, item_contents, item_members};
ghost use Rattle.rx_class.specs.Keeping.{KeepsUnits};

use crate::classes::atom::{ClassAtom, CommonAtom, common_atom_at};
use crate::reading::Reading;
use rx_ast::{Character, CharacterClassContents, CharacterClassRange, CharacterKind};
use rx_base::{Counter, Diagnostic, Fault, List, OutOfMemory, RangeKind, Span};
use rx_units::{Ahead, Unit, UnitSource};
use std::alloc::Global;

/// An item of a class, as it is read.
#[derive(Drop)]
pub enum ClassItem {
    One(CharacterClassContents),
    /// An atom, a `-` and an atom that make no range.
    Three {
        first: CharacterClassContents,
        hyphen: CharacterClassContents,
        last: CharacterClassContents,
    },
}

/// What stands next in a class without `v`.
#[derive(Clone, Copy)]
pub enum ItemFront {
    /// A common character with no range after it.
    Character(CommonAtom),
    /// A range of two common characters.
    Range { low: CommonAtom, high: CommonAtom },
    /// Anything else.
    Other,
}

impl<S: UnitSource, C: Counter> Reading<'_, '_, '_, '_, '_, S, C> {
    ghost use Rattle.rx_class.specs.Readings.{ReadsOn};

    /// Reads the item that stands next in a class without `v`, moves over it, and adds what it is to the contents.
    pub(crate) fn add_item(&mut self, body: &mut List<CharacterClassContents>) -> Result<(), Fault>
        requires stands { StandsItem (rest self.old.reader.now) }
        requires no_sets { is_sets (environment_of self.old.state.now).mode ≡ false }
        ensures added { OnOk result (AddsItem (environment_of self.old.state.now) self.old.spans.now self.old.reader.now self.new.reader.now body.old body.new) }
        ensures refused { IfErr result (λ fault. GivesItem (environment_of self.old.state.now) self.old.spans.now self.old.reader.now self.new.reader.now (Err fault)) }
        ensures steps { TakesSteps 6 (C.count self.old.steps.now) (C.count self.new.steps.now) self.old.reader.now self.new.reader.now result }
        ensures on { ReadsOn self.old self.new }
    {
        match self.item_front() {
            ItemFront::Character(atom) => self.add_common_atom(body, atom),
            ItemFront::Range { low, high } => self.add_common_range(body, low, high),
            ItemFront::Other => self.add_other_item(body),
        }
    }

    /// What stands next, where each of its atoms is a common one.
    #[inline(always)]
    fn item_front(&self) -> ItemFront
        requires stands { StandsItem (rest self.now.reader.now) }
        requires no_sets { is_sets (environment_of self.now.state.now).mode ≡ false }
        ensures { BeginsItem (environment_of self.now.state.now) (rest self.now.reader.now) result }
    {
        let unicode = self.is_unicode();
        let units = self.units();
        let Some(low) = common_atom_at(&units, unicode) else {
            return ItemFront::Other;
        };
        let after = units.from(low.length);
        if !is_dashed(&after) {
            return ItemFront::Character(low);
        }
        let Some(high) = common_atom_at(&after.from(1), unicode) else {
            return ItemFront::Other;
        };
        if high.value < low.value {
            return ItemFront::Other;
        }
        ItemFront::Range { low, high }
    }

    /// Moves over an atom that was found at the place with no range after it, and adds it.
    #[inline(always)]
    fn add_common_atom(
        &mut self,
        body: &mut List<CharacterClassContents>,
        atom: CommonAtom,
    ) -> Result<(), Fault>
        requires front { StandsAlone (environment_of self.old.state.now) (rest self.old.reader.now) atom }
        requires no_sets { is_sets (environment_of self.old.state.now).mode ≡ false }
        ensures added { OnOk result (AddsItem (environment_of self.old.state.now) self.old.spans.now self.old.reader.now self.new.reader.now body.old body.new) }
        ensures refused { IfErr result (λ fault. GivesItem (environment_of self.old.state.now) self.old.spans.now self.old.reader.now self.new.reader.now (Err fault)) }
        ensures steps { TakesSteps 6 (C.count self.old.steps.now) (C.count self.new.steps.now) self.old.reader.now self.new.reader.now result }
        ensures on { ReadsOn self.old self.new }
    {
        let character = self.take_common(atom);
        Ok(body.push(CharacterClassContents::Character(character))?)
    }

    /// Moves over a range that was found at the place, and adds it.
    #[inline(always)]
    fn add_common_range(
        &mut self,
        body: &mut List<CharacterClassContents>,
        low: CommonAtom,
        high: CommonAtom,
    ) -> Result<(), Fault>
        requires front { StandsInOrder (environment_of self.old.state.now) (rest self.old.reader.now) low high }
        ensures added { OnOk result (AddsItem (environment_of self.old.state.now) self.old.spans.now self.old.reader.now self.new.reader.now body.old body.new) }
        ensures refused { IfErr result (λ fault. GivesItem (environment_of self.old.state.now) self.old.spans.now self.old.reader.now self.new.reader.now (Err fault)) }
        ensures steps { TakesSteps 6 (C.count self.old.steps.now) (C.count self.new.steps.now) self.old.reader.now self.new.reader.now result }
        ensures on { ReadsOn self.old self.new }
    {
        let range = self.take_common_range(low, high);
        push_range(self.alloc, body, range)
    }

    /// Moves over a range that was found at the place, and gives it.
    #[inline(always)]
    fn take_common_range(&mut self, low: CommonAtom, high: CommonAtom) -> CharacterClassRange
        requires front { StandsInOrder (environment_of self.old.state.now) (rest self.old.reader.now) low high }
        ensures gives { (given : CharacterClassContents) → mirror_contents given ≡ ClassTree.range result
            → GivesItem (environment_of self.old.state.now) self.old.spans.now self.old.reader.now self.new.reader.now (Ok (ClassItem.One given)) }
        ensures keeps { KeepsUnits self.old.reader.now self.new.reader.now }
        ensures steps { IsPaced 6 (C.count self.old.steps.now) (C.count self.new.steps.now) self.old.reader.now self.new.reader.now }
        ensures on { ReadsOn self.old self.new }
    {
        let min = self.take_common(low);
        self.advance();
        let max = self.take_common(high);
        let span = Span::new(min.span.start, max.span.end);
        CharacterClassRange { span, min, max }
    }

    /// Reads the item that stands next, whatever it is, moves over it, and adds what it is to the contents.
    fn add_other_item(&mut self, body: &mut List<CharacterClassContents>) -> Result<(), Fault>
        requires stands { StandsItem (rest self.old.reader.now) }
        requires no_sets { is_sets (environment_of self.old.state.now).mode ≡ false }
        ensures added { OnOk result (AddsItem (environment_of self.old.state.now) self.old.spans.now self.old.reader.now self.new.reader.now body.old body.new) }
        ensures refused { IfErr result (λ fault. GivesItem (environment_of self.old.state.now) self.old.spans.now self.old.reader.now self.new.reader.now (Err fault)) }
        ensures steps { TakesSteps 6 (C.count self.old.steps.now) (C.count self.new.steps.now) self.old.reader.now self.new.reader.now result }
        ensures on { ReadsOn self.old self.new }
    {
        let item = self.class_item()?;
        Ok(push_item(body, item)?)
    }

    /// Reads the item that stands next in a class, an atom or a range (NonemptyClassRanges of ECMA-262, 22.2.1), and moves over it.
    /// With neither `u` nor `v` two atoms with a `-` between, of which one is no character, are three items (CharacterRangeOrUnion,
    /// B.1.2).
    fn class_item(&mut self) -> Result<ClassItem, Fault>
        requires stands { StandsItem (rest self.old.reader.now) }
        requires no_sets { is_sets (environment_of self.old.state.now).mode ≡ false }
        ensures gives { GivesItem (environment_of self.old.state.now) self.old.spans.now self.old.reader.now self.new.reader.now result }
        ensures steps { TakesSteps 6 (C.count self.old.steps.now) (C.count self.new.steps.now) self.old.reader.now self.new.reader.now result }
        ensures on { ReadsOn self.old self.new }
    {
        let low = self.class_atom()?;
        if is_dashed(&self.units()) {
            return self.dashed_item(low);
        }
        one_atom(self.alloc, low)
    }

    /// Reads the `-` at the place and the atom after it, which make an item with the atom that was read before them.
    fn dashed_item(&mut self, low: ClassAtom) -> Result<ClassItem, Fault>
        requires dashed { is_dashed (values (rest self.old.reader.now)) ≡ true }
        requires no_sets { is_sets (environment_of self.old.state.now).mode ≡ false }
        ensures gives { (start : Cursor) → GivesAtom (environment_of self.old.state.now) self.old.spans.now start self.old.reader.now (Ok low)
            → GivesItem (environment_of self.old.state.now) self.old.spans.now start self.new.reader.now result }
        ensures steps { TakesSteps 6 (C.count self.old.steps.now) (C.count self.new.steps.now) self.old.reader.now self.new.reader.now result }
        ensures on { ReadsOn self.old self.new }
    {
        let hyphen = self.take_hyphen();
        let high = self.class_atom()?;
        two_atoms(self.alloc, self.is_unicode(), low, hyphen, high)
    }

    /// Moves over the `-` at the place, and gives its span.
    fn take_hyphen(&mut self) -> Span
        ensures span { result ≡ span_to self.old.spans.now (offset_of self.old.reader.now) self.new.reader.now }
        ensures reader { self.new.reader.now ≡ move_on 1 self.old.reader.now }
        ensures steps { IsMove (C.count self.old.steps.now) (C.count self.new.steps.now) self.old.reader.now self.new.reader.now }
        ensures on { ReadsOn self.old self.new }
    {
        let start = self.offset();
        self.advance();
        self.span_from(start)
    }
}

/// The item that an atom is with no range after it.
fn one_atom(alloc: Global, atom: ClassAtom) -> Result<ClassItem, Fault>
    ensures { MatchResult result (λ it. item_members it ≡ atom_member atom ∷ []) (λ fault. fault ≡ Fault.OutOfMemory) }
{
    Ok(ClassItem::One(atom.into_contents(alloc)?))
}

/// The item that two atoms with a `-` between are, with `u` or without.
fn two_atoms(
    alloc: Global,
    unicode: bool,
    low: ClassAtom,
    hyphen: Span,
    high: ClassAtom,
) -> Result<ClassItem, Fault>
    ensures three { are_three unicode (atom_of low) (atom_of high) ≡ true
        → MatchResult result (λ it. item_members it ≡ atom_member low ∷ hyphen_member hyphen ∷ atom_member high ∷ []) (λ fault. fault ≡ Fault.OutOfMemory) }
    ensures range { are_three unicode (atom_of low) (atom_of high) ≡ false → IsRangeItem low high result }
{
    if are_three(&low, &high, unicode) {
        return three_items(alloc, low, hyphen, high);
    }
    range_item(alloc, &low, &high)
}

/// The range from one atom to another as an item, or why they are none.
fn range_item(alloc: Global, low: &ClassAtom, high: &ClassAtom) -> Result<ClassItem, Fault>
    ensures { IsRangeItem low.now high.now result }
{
    let range = range_between(low, high)?;
    Ok(ClassItem::One(range_contents(alloc, range)?))
}

/// Adds what an item is to the contents of a class.
fn push_item(body: &mut List<CharacterClassContents>, item: ClassItem) -> Result<(), OutOfMemory>
    ensures { OnOk result (body.new ≡ body.old ++ item_contents item) }
{
    match item {
        ClassItem::One(it) => body.push(it),
        ClassItem::Three {
            first,
            hyphen,
            last,
        } => {
            body.push(first)?;
            body.push(hyphen)?;
            body.push(last)
        }
    }
}

/// Adds a range to the contents of a class.
fn push_range(
    alloc: Global,
    body: &mut List<CharacterClassContents>,
    range: CharacterClassRange,
) -> Result<(), Fault>
    ensures { MatchResult result (λ none. AddsRange body.old body.new range) (λ fault. fault ≡ Fault.OutOfMemory) }
{
    let contents = range_contents(alloc, range)?;
    Ok(body.push(contents)?)
}

/// Whether two atoms with a `-` between are three items, with `u` or without.
fn are_three(low: &ClassAtom, high: &ClassAtom, unicode: bool) -> bool
    ensures { result ≡ are_three unicode (atom_of low.now) (atom_of high.now) }
{
    !unicode && !(is_character(low) && is_character(high))
}

fn is_character(atom: &ClassAtom) -> bool
    ensures { result ≡ is_character (atom_of atom.now) }
{
    match atom {
        ClassAtom::Character(_) => true,
        ClassAtom::Escape(_) | ClassAtom::Property(_) => false,
    }
}

/// Two atoms and the `-` between them.
fn three_items(
    alloc: Global,
    low: ClassAtom,
    hyphen: Span,
    high: ClassAtom,
) -> Result<ClassItem, Fault>
    ensures { MatchResult result (λ it. item_members it ≡ atom_member low ∷ hyphen_member hyphen ∷ atom_member high ∷ []) (λ fault. fault ≡ Fault.OutOfMemory) }
{
    let first = low.into_contents(alloc)?;
    let last = high.into_contents(alloc)?;
    let hyphen = CharacterClassContents::Character(Character {
        span: hyphen,
        kind: CharacterKind::Symbol,
        value: '-' as u32,
    });
    Ok(ClassItem::Three {
        first,
        hyphen,
        last,
    })
}

/// The range as an item of a class.
#[tactic(auto, using(rx_ast::proofs::ClassEquations::class_mirrors))]
pub fn range_contents(
    alloc: Global,
    range: CharacterClassRange,
) -> Result<CharacterClassContents, OutOfMemory>
    ensures { IfOk result (λ it. mirror_contents it ≡ ClassTree.range range) }
{
    Ok(CharacterClassContents::CharacterClassRange(Box::new(alloc, range)?))
}

/// Whether a `-` stands next that may begin the second half of a range: neither `]` nor the end follows it.
fn is_dashed<U: Unit>(units: &Ahead<'_, U>) -> bool
    ensures { result ≡ is_dashed (values units.now) }
{
    match units.items() {
        [hyphen, next, ..] => hyphen.value() == '-' as u32 && next.value() != ']' as u32,
        _ => false,
    }
}

/// The range from one atom to another, after which it stands with a `-` between; or why they are no range.
fn range_between(low: &ClassAtom, high: &ClassAtom) -> Result<CharacterClassRange, Diagnostic>
    ensures { IsBetween low.now high.now result }
{
    let (ClassAtom::Character(min), ClassAtom::Character(max)) = (low, high) else {
        let span = Span::new(low.span().start, high.span().end);
        return Err(Diagnostic::CharacterClassRangeInvalidAtom { span });
    };
    if min.value <= max.value {
        let span = Span::new(min.span.start, max.span.end);
        return Ok(CharacterClassRange {
            span,
            min: *min,
            max: *max,
        });
    }
    let span = Span::new(min.span.end, max.span.end);
    if max.value == '-' as u32 {
        return Err(Diagnostic::CharacterClassRangeDashNotSubtraction { span });
    }
    let what = RangeKind::ClassAtom;
    Err(Diagnostic::CharacterClassRangeOutOfOrder { span, what })
}
