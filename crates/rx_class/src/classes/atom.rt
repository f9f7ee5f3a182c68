ghost use Rattle.std.specs.Prelude.{◌≡◌, ◌≤◌, All, IfOk, IfSome, None, Ok, Some, false};
ghost use Rattle.rx_ast.specs.ClassTree.{mirror_contents};
ghost use Rattle.rx_units.specs.Cursor.{move_on, rest};
ghost use Rattle.rx_units.specs.Pace.{IsPaced, TakesSteps};
ghost use Rattle.rx_units.specs.Units.{values};
ghost use Rattle.rx_units.specs.declared.code_point.CodePoint.{CodePoint as UnitValue};
ghost use Rattle.rx_model.specs.Characters.UnitKinds.{unit_kind};
ghost use Rattle.rx_model.specs.Inputs.Environment.{Environment, is_sets, is_unicode};
ghost use Rattle.rx_class.specs.EscapeReading.Answers.{IsAfterBackslash, environment_of};
ghost use Rattle.rx_class.specs.ClassReading.Items.{BeginsNone, GivesAtom, IsCommonAtom, StandsItem, StandsOneUnit, alone_in_class, atom_member, atom_span, back, kind_in_class};

use crate::reading::Reading;
use crate::{class_escape_at, common_escape_at};
use rx_ast::{
    Character, CharacterClassContents, CharacterClassEscape, CharacterClassEscapeKind,
    CharacterKind, UnicodePropertyEscape,
};
use rx_base::{Counter, Diagnostic, Fault, OutOfMemory, Span};
use rx_units::{Ahead, EscapeKind, Unit, UnitSource};
use std::alloc::Global;

/// What stands alone in a class, or at an end of a range (ClassAtom of ECMA-262, 22.2.1).
#[derive(Drop)]
pub enum ClassAtom {
    Character(Character),
    Escape(CharacterClassEscape),
    Property(UnicodePropertyEscape),
}

/// A common character that stands next in a class, and how many units spell it.
#[derive(Clone, Copy)]
pub struct CommonAtom {
    /// How it is written.
    pub kind: CharacterKind,
    /// The code point that it stands for.
    pub value: u32,
    /// How many units spell it.
    pub length: usize,
}

/// What a single unit after a backslash is in a class: a character in classes alone, or a class escape.
#[derive(Clone, Copy)]
pub enum OneUnit {
    /// A character, by its value.
    Character(u32),
    Class(CharacterClassEscapeKind),
}

impl ClassAtom {
    /// Its span, in bytes.
    pub fn span(&self) -> Span
        ensures { result ≡ atom_span self.now }
    {
        match self {
            ClassAtom::Character(it) => it.span,
            ClassAtom::Escape(it) => it.span,
            ClassAtom::Property(it) => it.span,
        }
    }

    /// The atom as an item of a class.
    #[tactic(auto, using(rx_ast::proofs::ClassEquations::class_mirrors))]
    pub fn into_contents(self, alloc: Global) -> Result<CharacterClassContents, OutOfMemory>
        ensures { IfOk result (λ it. mirror_contents it ≡ atom_member self) }
    {
        match self {
            ClassAtom::Character(it) => Ok(CharacterClassContents::Character(it)),
            ClassAtom::Escape(it) => Ok(CharacterClassContents::CharacterClassEscape(it)),
            ClassAtom::Property(it) => {
                Ok(CharacterClassContents::UnicodePropertyEscape(Box::new(alloc, it)?))
            }
        }
    }
}

impl<S: UnitSource, C: Counter> Reading<'_, '_, '_, '_, '_, S, C> {
    ghost use Rattle.rx_class.specs.Readings.{ReadsOn};

    /// Reads the atom that stands next in a class without `v`, and moves over it.
    // Why: docs/DECISIONS.md, 32.
    pub(crate) fn class_atom(&mut self) -> Result<ClassAtom, Fault>
        requires stands { StandsItem (rest self.old.reader.now) }
        requires no_sets { is_sets (environment_of self.old.state.now).mode ≡ false }
        ensures gives { GivesAtom (environment_of self.old.state.now) self.old.spans.now self.old.reader.now self.new.reader.now result }
        ensures steps { TakesSteps 6 (C.count self.old.steps.now) (C.count self.new.steps.now) self.old.reader.now self.new.reader.now result }
        ensures on { ReadsOn self.old self.new }
    {
        let units = self.units();
        let first = units.items()[0].value();
        if first == '\\' as u32 {
            let start = self.offset();
            self.advance();
            return self.escaped_atom(start);
        }
        let atom = unit_atom(first, units.escape_kind());
        Ok(ClassAtom::Character(self.take_common(atom)))
    }

    /// Moves over an atom that was found at the place, and gives its character. What stands after a backslash and a letter are digits, and
    /// to have looked at each is a step.
    #[inline(always)]
    pub(crate) fn take_common(&mut self, atom: CommonAtom) -> Character
        requires { IsCommonAtom (environment_of self.old.state.now) (rest self.old.reader.now) atom }
        ensures gives { GivesAtom (environment_of self.old.state.now) self.old.spans.now self.old.reader.now self.new.reader.now (Ok (ClassAtom.Character result)) }
        ensures value { result.value ≡ atom.value }
        ensures reader { self.new.reader.now ≡ move_on atom.length self.old.reader.now }
        ensures steps { IsPaced 6 (C.count self.old.steps.now) (C.count self.new.steps.now) self.old.reader.now self.new.reader.now }
        ensures on { ReadsOn self.old self.new }
    {
        let start = self.offset();
        self.steps.add(atom.length.saturating_sub(2));
        self.skip(atom.length);
        Character {
            span: self.span_from(start),
            kind: atom.kind,
            value: atom.value,
        }
    }

    /// Reads the atom that a backslash begins (ClassEscape of ECMA-262, 22.2.1). The backslash was read, and the atom begins at
    /// `start`, in bytes.
    fn escaped_atom(&mut self, start: u32) -> Result<ClassAtom, Fault>
        requires backslash { IsAfterBackslash self.old.reader.now start }
        requires no_sets { is_sets (environment_of self.old.state.now).mode ≡ false }
        ensures gives { GivesAtom (environment_of self.old.state.now) self.old.spans.now (back self.old.reader.now) self.new.reader.now result }
        ensures steps { TakesSteps 6 (C.count self.old.steps.now) (C.count self.new.steps.now) self.old.reader.now self.new.reader.now result }
        ensures on { ReadsOn self.old self.new }
    {
        match one_unit_at(&self.units(), self.is_unicode()) {
            Some(escape) => Ok(self.take_one_unit(start, escape)),
            None => self.longer_atom(start),
        }
    }

    /// Moves over the unit at the place, which is an atom with the backslash before it, and gives the atom.
    fn take_one_unit(&mut self, start: u32, escape: OneUnit) -> ClassAtom
        requires backslash { IsAfterBackslash self.old.reader.now start }
        requires no_sets { is_sets (environment_of self.old.state.now).mode ≡ false }
        requires stands { StandsOneUnit (is_unicode (environment_of self.old.state.now).mode) (values (rest self.old.reader.now)) (Some escape) }
        ensures gives { GivesAtom (environment_of self.old.state.now) self.old.spans.now (back self.old.reader.now) self.new.reader.now (Ok result) }
        ensures steps { IsPaced 6 (C.count self.old.steps.now) (C.count self.new.steps.now) self.old.reader.now self.new.reader.now }
        ensures on { ReadsOn self.old self.new }
    {
        self.advance();
        let span = self.span_from(start);
        match escape {
            OneUnit::Character(value) => ClassAtom::Character(Character {
                span,
                kind: CharacterKind::SingleEscape,
                value,
            }),
            OneUnit::Class(kind) => ClassAtom::Escape(CharacterClassEscape { span, kind }),
        }
    }

    /// Reads the atom that a backslash begins where no single unit after it makes one in classes alone.
    fn longer_atom(&mut self, start: u32) -> Result<ClassAtom, Fault>
        requires backslash { IsAfterBackslash self.old.reader.now start }
        requires none { StandsOneUnit (is_unicode (environment_of self.old.state.now).mode) (values (rest self.old.reader.now)) None }
        requires no_sets { is_sets (environment_of self.old.state.now).mode ≡ false }
        ensures gives { GivesAtom (environment_of self.old.state.now) self.old.spans.now (back self.old.reader.now) self.new.reader.now result }
        ensures steps { TakesSteps 6 (C.count self.old.steps.now) (C.count self.new.steps.now) self.old.reader.now self.new.reader.now result }
        ensures on { ReadsOn self.old self.new }
    {
        if let Some(escape) = self.property_escape(start)? {
            return Ok(ClassAtom::Property(escape));
        }
        self.character_atom(start)
    }

    /// Reads the atom that a backslash begins where it is a character, and none that a backslash begins in classes alone.
    fn character_atom(&mut self, start: u32) -> Result<ClassAtom, Fault>
        requires backslash { IsAfterBackslash self.old.reader.now start }
        requires none { BeginsNone (environment_of self.old.state.now) (values (rest self.old.reader.now)) }
        requires no_sets { is_sets (environment_of self.old.state.now).mode ≡ false }
        ensures gives { GivesAtom (environment_of self.old.state.now) self.old.spans.now (back self.old.reader.now) self.new.reader.now result }
        ensures steps { TakesSteps 6 (C.count self.old.steps.now) (C.count self.new.steps.now) self.old.reader.now self.new.reader.now result }
        ensures on { ReadsOn self.old self.new }
    {
        if let Some(character) = self.character_in_class(start)? {
            return Ok(ClassAtom::Character(character));
        }
        let span = self.span_from(start);
        Err(Fault::Diagnostic(Diagnostic::InvalidClassAtom { span }))
    }
}

/// The character that the units begin with as an atom of a class without `v`, where it is a unit that stands for itself or a common
/// escape. `None` does not mean that no character stands there.
#[inline(always)]
pub fn common_atom_at<U: Unit>(units: &Ahead<'_, U>, unicode_mode: bool) -> Option<CommonAtom>
    requires stands { StandsItem units.now }
    requires code_points { All (λ unit. unit.value ≤ 0x10FFFF) units.now }
    ensures { IfSome result (λ it. (e : Environment) → is_unicode e.mode ≡ unicode_mode → is_sets e.mode ≡ false → IsCommonAtom e units.now it) }
{
    let first = units.items()[0].value();
    if first != '\\' as u32 {
        return Some(unit_atom(first, units.escape_kind()));
    }
    let escape = common_escape_at(&units.from(1), unicode_mode)?;
    Some(CommonAtom {
        kind: escape.kind,
        value: escape.value,
        length: escape.length + 1,
    })
}

/// A unit that stands for itself, as an atom.
#[inline(always)]
fn unit_atom(value: u32, escape_kind: EscapeKind) -> CommonAtom
    ensures kind { (unit : UnitValue) → unit.value ≡ value → unit.escape_kind ≡ escape_kind → result.kind ≡ kind_in_class unit }
    ensures value { result.value ≡ value }
    ensures length { result.length ≡ 1 }
{
    CommonAtom {
        kind: kind_in_class(value, escape_kind),
        value,
        length: 1,
    }
}

/// The kind of a character that is one unit of a class. A `-` is a symbol, however it was written.
#[inline]
fn kind_in_class(value: u32, escape_kind: EscapeKind) -> CharacterKind
    ensures { (unit : UnitValue) → unit.value ≡ value → unit.escape_kind ≡ escape_kind → result ≡ kind_in_class unit }
{
    if value == '-' as u32 {
        CharacterKind::Symbol
    } else {
        unit_kind(escape_kind)
    }
}

/// The kind of a character that is one unit.
#[inline]
pub fn unit_kind(escape_kind: EscapeKind) -> CharacterKind
    ensures { result ≡ unit_kind escape_kind }
{
    match escape_kind {
        EscapeKind::None => CharacterKind::Symbol,
        EscapeKind::Unicode => CharacterKind::UnicodeEscape,
        EscapeKind::Hexadecimal => CharacterKind::HexadecimalEscape,
    }
}

/// What the unit after a backslash is where it is a character in classes alone, or a class escape.
fn one_unit_at<U: Unit>(units: &Ahead<'_, U>, unicode: bool) -> Option<OneUnit>
    ensures { StandsOneUnit unicode (values units.now) result }
{
    if let Some(value) = alone_in_class(units, unicode) {
        return Some(OneUnit::Character(value));
    }
    match class_escape_at(units) {
        Some(kind) => Some(OneUnit::Class(kind)),
        None => None,
    }
}

/// The character that the unit after a backslash stands for in classes alone: `b` for a backspace and, with `u`, `-` for itself.
fn alone_in_class<U: Unit>(units: &Ahead<'_, U>, unicode: bool) -> Option<u32>
    ensures { result ≡ alone_in_class unicode (values units.now) }
{
    let value = units.first()?;
    if value == 'b' as u32 {
        Some(8)
    } else if value == '-' as u32 && unicode {
        Some(value)
    } else {
        None
    }
}
