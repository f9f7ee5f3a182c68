ghost use Rattle.std.specs.Prelude.{◌≡◌, ◌+◌, ◌-◌, ◌*◌, ◌≤◌, ◌<◌, ◌∷◌, [], false, true, All, IfErr, IfOk, IfSome, IsTrue, OnOk, Some, codes, drop, length, take};
ghost use Rattle.rx_base.specs.Ascii as ascii;
ghost use Rattle.rx_base.specs.Characters.{is_one_of};
ghost use Rattle.rx_base.specs.Rising.{Rises};
ghost use Rattle.rx_tables.specs.Characters.{is_syntax_character};
ghost use Rattle.rx_units.specs.Cursor.{front, move_on, offset_of, rest};
ghost use Rattle.rx_units.specs.Pace.{IsMove, TakesSteps, units_left};
ghost use Rattle.rx_class.specs.Fitting.{AreFitting};
ghost use Rattle.rx_model.specs.Quantifiers.CountsReading.{counts_read, counts_read_at};
ghost use Rattle.rx_parser.specs.Faults.{IsSmall};
ghost use Rattle.rx_parser.specs.declared.found.Halt.{Halt};
ghost use Rattle.rx_parser.specs.declared.found.OpenerFound.{OpenerFound};
ghost use Rattle.rx_parser.specs.GroupKinds.{IsGroupKindOf};
ghost use Rattle.rx_parser.specs.Frames.{openers, ready};
ghost use Rattle.rx_parser.specs.Pace.{MayTakeToken, MayTakeTurn, MovesOver, TakesFound, TakesToken, looks, plain};
ghost use Rattle.rx_parser.specs.Turns.{HasMore, HasTurned, IsBefore, IsTurned, MayTurn, RefusesText, StandsNext};

use crate::ahead::stands_at;
use crate::builder::Builder;
use crate::fault::{fault, here, lone_quantifier, span_ahead};
use crate::found::{Found, Halt, Leaf, OpenerFound};
use crate::frame::GroupKind;
use crate::front::{common_leaf_at, front_at};
use crate::term::{class_term, name_in, named_term, property_term, term};
use rx_ast::{BoundaryAssertionKind, CharacterClassContents, Modifiers};
use rx_base::{Counter, Diagnostic, Fault, List, OutOfMemory, Span, Text};
use rx_class::{parse_character_class_escape_unicode, parse_character_class_with_list, unit_kind};
use rx_scan::{Environment, SpanFactory, State};
use rx_tables::is_syntax_character;
use rx_units::{Ahead, Reader, Unit, UnitSource};
use std::alloc::Global;

/// A pattern that is being read: where its reader stands, what the first pass found in its units, and what is built of those before the reader.
// Why: docs/DECISIONS.md, 102.
#[derive(Drop)]
pub struct Parse<'a, S: UnitSource> {
    pub alloc: Global,
    pub reader: Reader<'a, S>,
    pub state: State,
    pub spans: SpanFactory,
    pub builder: Builder,
    /// What the class that is being read holds so far. Between classes it is memory for the next.
    pub class_contents: List<CharacterClassContents>,
}

impl<'a, S: UnitSource + 'a> Parse<'a, S> {
    /// What is built of the units before the reader.
    #[inline(always)]
    pub fn into_builder(self) -> Builder
        ensures { result ≡ self.entry.builder }
    {
        self.builder
    }

    /// Reads a run of units that stand for themselves, or a common token, and gives it to the builder. `false` may be answered whatever stands there; then the
    /// parse is as it was. Fails only for lack of memory. A unit that is no SyntaxCharacter stands for itself in every mode (PatternCharacter of ECMA-262,
    /// 22.2.1), so nothing else is looked for there.
    // Why: docs/DECISIONS.md, 41, 127.
    #[inline(always)]
    pub fn take_common<C: Counter>(&mut self, steps: &mut C) -> Result<bool, OutOfMemory>
        requires { HasMore self.old }
        ensures turned { MayTurn self.old self.new result }
        ensures steps { MayTakeTurn (C.count steps.old) (C.count steps.new) self.old.reader self.new.reader result }
    {
        let count = plain_length(&self.reader.ahead(), steps);
        if count == 0 {
            return self.take_by_first_unit(steps);
        }
        plain_run(
            &mut self.reader,
            &self.spans,
            &mut self.builder,
            count,
            steps,
        )?;
        Ok(true)
    }

    /// Reads the token that stands where the reader does, whichever it is, and gives it to the builder.
    #[inline(never)]
    pub fn take_token<C: Counter>(&mut self, steps: &mut C) -> Result<(), Fault>
        requires { HasMore self.old }
        ensures turned { OnOk result (HasTurned self.old self.new) }
        ensures refused { IfErr result (RefusesText self.old) }
        ensures steps { TakesToken (C.count steps.old) (C.count steps.new) self.old.reader self.new.reader result }
    {
        if first_ascii(&self.reader.ahead()) == Some(b'[') {
            return self.class(steps);
        }
        self.take_found(steps)
    }

    /// Reads a common token, told by its first unit, and gives it to the builder. `false` may be answered whatever stands there; then nothing changes. Fails
    /// only for lack of memory.
    #[inline(always)]
    fn take_by_first_unit<C: Counter>(&mut self, steps: &mut C) -> Result<bool, OutOfMemory>
        requires { HasMore self.old }
        ensures turned { MayTurn self.old self.new result }
        ensures steps { MayTakeToken (C.count steps.old) (C.count steps.new) self.old.reader self.new.reader result }
    {
        match first_ascii(&self.reader.ahead()) {
            Some(b'|') => self.take_bar(steps),
            Some(b'.') => self.take_common_leaf(Leaf::Dot, 1, steps),
            Some(b'^') => {
                self.take_common_leaf(Leaf::Boundary(BoundaryAssertionKind::Start), 1, steps)
            }
            Some(b'$') => {
                self.take_common_leaf(Leaf::Boundary(BoundaryAssertionKind::End), 1, steps)
            }
            Some(b')') => self.take_closer(steps),
            Some(b'\\') => self.take_escape(steps),
            Some(b'(') => self.take_opener(steps),
            Some(sign) if is_quantifier_sign(sign) => self.take_quantifier(sign, steps),
            _ => Ok(false),
        }
    }

    /// Reads a bar, begins an alternative in the builder, and answers `true`.
    #[inline(always)]
    fn take_bar<C: Counter>(&mut self, steps: &mut C) -> Result<bool, OutOfMemory>
        requires more { HasMore self.old }
        requires found { StandsNext self.old Found.Bar }
        ensures turned { MayTurn self.old self.new result }
        ensures answer { IfOk result IsTrue }
        ensures steps { MayTakeToken (C.count steps.old) (C.count steps.new) self.old.reader self.new.reader result }
    {
        self.bar(steps)?;
        Ok(true)
    }

    /// Reads a common term that is one token of n units, gives it to the builder, and answers `true`. Looking for it takes a step for each unit past the
    /// second.
    #[inline(always)]
    fn take_common_leaf<C: Counter>(
        &mut self,
        leaf: Leaf,
        length: usize,
        steps: &mut C,
    ) -> Result<bool, OutOfMemory>
        requires more { HasMore self.old }
        requires found { StandsNext self.old (Found.Leaf leaf length) }
        ensures turned { MayTurn self.old self.new result }
        ensures answer { IfOk result IsTrue }
        ensures steps { MayTakeToken (C.count steps.old) (C.count steps.new) self.old.reader self.new.reader result }
    {
        steps.add(length.saturating_sub(2));
        self.take_leaf(leaf, length, steps)?;
        Ok(true)
    }

    /// The end of the span of the next n units.
    #[inline(always)]
    fn end_after(&self, length: usize) -> u32
        requires some { 0 < length }
        requires within { length ≤ units_left self.now.reader }
        requires fits { AreFitting self.now.spans self.now.reader }
        ensures { result ≡ offset_of (move_on length self.now.reader) + self.now.spans }
    {
        let end = self.reader.ahead().end_of(length);
        self.spans.create(end, end).end
    }

    /// Reads the escape that stands next, where it is a common one, and gives it to the builder. Else it answers `false`, and nothing changes.
    #[inline(always)]
    fn take_escape<C: Counter>(&mut self, steps: &mut C) -> Result<bool, OutOfMemory>
        requires more { HasMore self.old }
        requires stands { front (rest self.old.reader) ≡ Some ascii.backslash }
        ensures turned { MayTurn self.old self.new result }
        ensures steps { MayTakeToken (C.count steps.old) (C.count steps.new) self.old.reader self.new.reader result }
    {
        match self.common_leaf() {
            Some((leaf, length)) => self.take_common_leaf(leaf, length, steps),
            None => Ok(false),
        }
    }

    /// The leaf that stands next, and how many units it has, where it is a common escape.
    #[inline(always)]
    fn common_leaf(&self) -> Option<(Leaf, usize)>
        requires more { HasMore self.now }
        requires stands { front (rest self.now.reader) ≡ Some ascii.backslash }
        ensures found { IfSome result (λ it. StandsNext self.now (Found.Leaf it.0 it.1)) }
        ensures long { IfSome result (λ it. 2 ≤ it.1) }
        ensures within { IfSome result (λ it. it.1 ≤ units_left self.now.reader) }
    {
        common_leaf_at(&self.reader.ahead(), self.builder.mode.is_unicode())
    }

    /// Reads `(` that no `?` follows, or `(?:`, and opens its group in the builder. Else it answers `false`, and nothing changes.
    #[inline(always)]
    fn take_opener<C: Counter>(&mut self, steps: &mut C) -> Result<bool, OutOfMemory>
        requires more { HasMore self.old }
        requires stands { front (rest self.old.reader) ≡ Some ascii.left_parenthesis }
        ensures turned { MayTurn self.old self.new result }
        ensures steps { IsMove (C.count steps.old) (C.count steps.new) self.old.reader self.new.reader }
    {
        let units = self.reader.ahead();
        if !stands_at(&units, 1, '?') {
            return self.take_common_group(GroupKind::Capturing(None), 1, steps);
        }
        if !stands_at(&units, 2, ':') {
            return Ok(false);
        }
        self.take_common_group(GroupKind::Ignoring(None), 3, steps)
    }

    /// Reads n units, which a group of this kind begins with, opens it in the builder, and answers `true`.
    #[inline(always)]
    fn take_common_group<C: Counter>(
        &mut self,
        group_kind: GroupKind,
        length: usize,
        steps: &mut C,
    ) -> Result<bool, OutOfMemory>
        requires more { HasMore self.old }
        requires found { (opener : OpenerFound) × StandsNext self.old (Found.Open opener length) × IsGroupKindOf self.old.builder.mode self.old.reader self.old.spans length opener group_kind }
        ensures turned { MayTurn self.old self.new result }
        ensures answer { IfOk result IsTrue }
        ensures steps { IsMove (C.count steps.old) (C.count steps.new) self.old.reader self.new.reader }
    {
        self.open_group(group_kind, length, steps)?;
        Ok(true)
    }

    /// Reads a `)`, and ends the group or the look-around that it closes. Where none is open it answers `false`, and nothing changes.
    #[inline(always)]
    fn take_closer<C: Counter>(&mut self, steps: &mut C) -> Result<bool, OutOfMemory>
        requires more { HasMore self.old }
        requires found { StandsNext self.old Found.Close }
        ensures turned { MayTurn self.old self.new result }
        ensures none { IfOk result (λ it. it ≡ false → openers self.old.builder ≡ []) }
        ensures reader { IfOk result (λ it. IsTrue it → self.new.reader ≡ move_on 1 self.old.reader) }
        ensures steps { IsMove (C.count steps.old) (C.count steps.new) self.old.reader self.new.reader }
    {
        let start = here(&self.reader, &self.spans);
        let end = self.end_after(1);
        if !self.builder.close(self.alloc, start, end)? {
            return Ok(false);
        }
        self.reader.skip_counted(1, steps);
        Ok(true)
    }

    /// Reads a quantifier that begins with this sign (`*`, `+` or `?`), and makes the last term its body. Where no term that may have a quantifier stands there
    /// it answers `false`, and nothing changes.
    #[inline(always)]
    fn take_quantifier<C: Counter>(&mut self, sign: u8, steps: &mut C) -> Result<bool, OutOfMemory>
        requires more { HasMore self.old }
        requires one { is_one_of (codes "*+?") sign ≡ true }
        requires stands { front (rest self.old.reader) ≡ Some sign }
        ensures turned { MayTurn self.old self.new result }
        ensures steps { IsMove (C.count steps.old) (C.count steps.new) self.old.reader self.new.reader }
    {
        let is_lazy = stands_at(&self.reader.ahead(), 1, '?');
        let length = 1 + is_lazy as usize;
        self.quantify_last(counts_of_sign(sign), !is_lazy, length, steps)
    }

    /// Reads a quantifier of n units with these counts, and makes the last term its body. Where no term that may have a quantifier stands there it answers
    /// `false`, and nothing changes.
    #[inline(always)]
    fn quantify_last<C: Counter>(
        &mut self,
        counts: (u64, Option<u64>),
        greedy: bool,
        length: usize,
        steps: &mut C,
    ) -> Result<bool, OutOfMemory>
        requires more { HasMore self.old }
        requires found { StandsNext self.old (Found.Quantifier counts.0 counts.1 greedy length) }
        ensures turned { MayTurn self.old self.new result }
        ensures none { IfOk result (λ it. it ≡ false → ready self.old.builder ≡ false) }
        ensures reader { IfOk result (λ it. IsTrue it → self.new.reader ≡ move_on length self.old.reader) }
        ensures steps { IsMove (C.count steps.old) (C.count steps.new) self.old.reader self.new.reader }
    {
        let end = self.end_after(length);
        if !self.builder.quantify(counts, greedy, end)? {
            return Ok(false);
        }
        self.reader.skip_counted(length, steps);
        Ok(true)
    }

    /// Reads the token that is found where the reader stands, and gives it to the builder.
    #[inline(never)]
    fn take_found<C: Counter>(&mut self, steps: &mut C) -> Result<(), Fault>
        requires { HasMore self.old }
        ensures turned { OnOk result (HasTurned self.old self.new) }
        ensures refused { IfErr result (RefusesText self.old) }
        ensures steps { TakesToken (C.count steps.old) (C.count steps.new) self.old.reader self.new.reader result }
    {
        let found = self.find_here(steps);
        self.take(found, steps)
    }

    /// Reads this token, which stands next, and gives it to the builder.
    #[inline(always)]
    fn take<C: Counter>(&mut self, found: Found, steps: &mut C) -> Result<(), Fault>
        requires more { HasMore self.old }
        requires found { StandsNext self.old found }
        requires small { (halt : Halt) → found ≡ Found.Halt halt → IsSmall halt }
        ensures turned { OnOk result (HasTurned self.old self.new) }
        ensures refused { IfErr result (RefusesText self.old) }
        ensures steps { TakesFound found (C.count steps.old) (C.count steps.new) self.old.reader self.new.reader result }
    {
        match found {
            Found::Leaf { leaf, length } => Ok(self.take_leaf(leaf, length, steps)?),
            Found::NamedReference { length } => self.named_reference(length, steps),
            Found::Property => self.property(steps),
            Found::Class => self.class(steps),
            Found::Open { opener, length } => self.open(opener, length, steps),
            Found::Close => self.close(steps),
            Found::Bar => Ok(self.bar(steps)?),
            Found::Quantifier {
                min,
                max,
                greedy,
                length,
            } => self.quantify((min, max), greedy, length, steps),
            Found::Halt(halt) => Err(fault(self, halt, steps)),
        }
    }

    /// What stands where the reader does, in the environment that the state tells.
    fn find_here<C: Counter>(&self, steps: &mut C) -> Found
        requires { HasMore self.now }
        ensures found { StandsNext self.now result }
        ensures small { (halt : Halt) → result ≡ Found.Halt halt → IsSmall halt }
        ensures steps { Rises (C.count steps.old) (C.count steps.new) 0 (looks (drop 1 (rest self.now.reader)) result) }
    {
        let environment = Environment::of(&self.state, self.builder.rules.buffer_boundaries);
        front_at(&self.reader.ahead(), environment, steps)
    }

    /// Reads a term that is one token of n units, and gives it to the builder.
    #[inline(always)]
    fn take_leaf<C: Counter>(
        &mut self,
        leaf: Leaf,
        length: usize,
        steps: &mut C,
    ) -> Result<(), OutOfMemory>
        requires more { HasMore self.old }
        requires found { StandsNext self.old (Found.Leaf leaf length) }
        ensures turned { OnOk result (HasTurned self.old self.new) }
        ensures steps { MovesOver length (C.count steps.old) (C.count steps.new) self.old.reader self.new.reader result }
    {
        let span = span_over(&mut self.reader, &self.spans, length, steps);
        self.builder.leaf(term(leaf, span))
    }

    /// Reads a reference by name of n units, and gives it to the builder.
    fn named_reference<C: Counter>(&mut self, length: usize, steps: &mut C) -> Result<(), Fault>
        requires more { HasMore self.old }
        requires found { StandsNext self.old (Found.NamedReference length) }
        ensures turned { OnOk result (HasTurned self.old self.new) }
        ensures refused { IfErr result (RefusesText self.old) }
        ensures steps { MovesOver length (C.count steps.old) (C.count steps.new) self.old.reader self.new.reader result }
    {
        let unicode_mode = self.builder.mode.is_unicode();
        let units = self.reader.ahead();
        let name = name_in(self.alloc, &units, length, unicode_mode, steps)?;
        let span = span_over(&mut self.reader, &self.spans, length, steps);
        if !self.state.capturing_group_names.contains(name.as_str()) {
            let names = copy(self.alloc, self.state.capturing_group_names.as_slice())?;
            return Err(Fault::Diagnostic(Diagnostic::InvalidNamedReference { span, names }));
        }
        self.builder.leaf(named_term(self.alloc, name, span)?)?;
        Ok(())
    }

    /// Reads a property escape, and gives it to the builder.
    fn property<C: Counter>(&mut self, steps: &mut C) -> Result<(), Fault>
        requires more { HasMore self.old }
        requires found { StandsNext self.old Found.Property }
        ensures turned { OnOk result (HasTurned self.old self.new) }
        ensures refused { IfErr result (RefusesText self.old) }
        ensures steps { TakesSteps 6 (C.count steps.old) (C.count steps.new) self.old.reader self.new.reader result }
    {
        let start = self.reader.offset();
        self.reader.advance_counted(steps);
        match parse_character_class_escape_unicode(
            self.alloc,
            &mut self.reader,
            &self.state,
            &self.spans,
            start,
            steps,
        )? {
            Some(escape) => {
                self.builder.leaf(property_term(self.alloc, escape)?)?;
                Ok(())
            }
            None => unreachable!(),
        }
    }

    /// Reads a class, and gives it to the builder.
    #[inline(never)]
    fn class<C: Counter>(&mut self, steps: &mut C) -> Result<(), Fault>
        requires more { HasMore self.old }
        requires found { StandsNext self.old Found.Class }
        ensures turned { OnOk result (HasTurned self.old self.new) }
        ensures refused { IfErr result (RefusesText self.old) }
        ensures steps { TakesSteps 6 (C.count steps.old) (C.count steps.new) self.old.reader self.new.reader result }
    {
        match parse_character_class_with_list(
            &mut self.reader,
            &self.state,
            &self.spans,
            &mut self.class_contents,
            steps,
        )? {
            Some(class) => {
                self.builder.leaf(class_term(self.alloc, class)?)?;
                Ok(())
            }
            None => unreachable!(),
        }
    }

    /// Reads what a group or a look-around of n units begins with, and opens it in the builder.
    fn open<C: Counter>(
        &mut self,
        opener: OpenerFound,
        length: usize,
        steps: &mut C,
    ) -> Result<(), Fault>
        requires more { HasMore self.old }
        requires found { StandsNext self.old (Found.Open opener length) }
        ensures turned { OnOk result (HasTurned self.old self.new) }
        ensures refused { IfErr result (RefusesText self.old) }
        ensures steps { MovesOver length (C.count steps.old) (C.count steps.new) self.old.reader self.new.reader result }
    {
        let group_kind = self.group_kind(opener, length, steps)?;
        Ok(self.open_group(group_kind, length, steps)?)
    }

    /// Reads n units, which a group or a look-around of this kind begins with, and opens it in the builder.
    #[inline(always)]
    fn open_group<C: Counter>(
        &mut self,
        group_kind: GroupKind,
        length: usize,
        steps: &mut C,
    ) -> Result<(), OutOfMemory>
        requires more { HasMore self.old }
        requires found { (opener : OpenerFound) × StandsNext self.old (Found.Open opener length) × IsGroupKindOf self.old.builder.mode self.old.reader self.old.spans length opener group_kind }
        ensures turned { OnOk result (HasTurned self.old self.new) }
        ensures reader { self.new.reader ≡ move_on length self.old.reader }
        ensures steps { IsMove (C.count steps.old) (C.count steps.new) self.old.reader self.new.reader }
    {
        let span = span_over(&mut self.reader, &self.spans, length, steps);
        self.builder
            .open(self.alloc, group_kind, span.start, span.end)
    }

    /// What a group or look-around of n units, which stands next, begins with. The reader stays where it stands.
    fn group_kind<C: Counter>(
        &mut self,
        opener: OpenerFound,
        length: usize,
        steps: &mut C,
    ) -> Result<GroupKind, OutOfMemory>
        requires more { HasMore self.old }
        requires found { StandsNext self.old (Found.Open opener length) }
        ensures group_kind { IfOk result (IsGroupKindOf self.old.builder.mode self.old.reader self.old.spans length opener) }
        ensures kept { self.new ≡ self.old }
        ensures steps { C.count steps.new ≤ C.count steps.old + 2 * (length - 1) }
        ensures least { OnOk result (C.count steps.old ≤ C.count steps.new) }
    {
        match opener {
            OpenerFound::Capturing => Ok(GroupKind::Capturing(None)),
            OpenerFound::Named => {
                let unicode_mode = self.builder.mode.is_unicode();
                let units = self.reader.ahead();
                let name = name_in(self.alloc, &units, length, unicode_mode, steps)?;
                Ok(GroupKind::Capturing(Some(name)))
            }
            OpenerFound::Ignoring => Ok(GroupKind::Ignoring(None)),
            OpenerFound::Modified {
                enabling,
                disabling,
            } => {
                let span = span_ahead(&mut self.reader, &self.spans, 2, length - 1, steps);
                Ok(GroupKind::Ignoring(Some(Modifiers {
                    span,
                    enabling,
                    disabling,
                })))
            }
            OpenerFound::LookAround(kind) => Ok(GroupKind::LookAround(kind)),
        }
    }

    /// Reads a `)`, and ends a group or a look-around in the builder.
    #[inline(always)]
    fn close<C: Counter>(&mut self, steps: &mut C) -> Result<(), Fault>
        requires more { HasMore self.old }
        requires found { StandsNext self.old Found.Close }
        ensures turned { OnOk result (HasTurned self.old self.new) }
        ensures refused { IfErr result (RefusesText self.old) }
        ensures steps { MovesOver 1 (C.count steps.old) (C.count steps.new) self.old.reader self.new.reader result }
    {
        if self.take_closer(steps)? {
            return Ok(());
        }
        let at = span_over(&mut self.reader, &self.spans, 1, steps).start;
        let span = Span::empty(at);
        Err(Fault::Diagnostic(Diagnostic::ParsePatternIncomplete { span }))
    }

    /// Reads a bar, and begins an alternative in the builder.
    #[inline(always)]
    fn bar<C: Counter>(&mut self, steps: &mut C) -> Result<(), OutOfMemory>
        requires more { HasMore self.old }
        requires found { StandsNext self.old Found.Bar }
        ensures turned { OnOk result (HasTurned self.old self.new) }
        ensures steps { MovesOver 1 (C.count steps.old) (C.count steps.new) self.old.reader self.new.reader result }
    {
        let span = span_over(&mut self.reader, &self.spans, 1, steps);
        self.builder.bar(self.alloc, span.start, span.end)
    }

    /// Reads a quantifier of n units with these counts, and gives it the last term as its body.
    // Why: docs/DECISIONS.md, 20.
    #[inline(always)]
    fn quantify<C: Counter>(
        &mut self,
        counts: (u64, Option<u64>),
        greedy: bool,
        length: usize,
        steps: &mut C,
    ) -> Result<(), Fault>
        requires more { HasMore self.old }
        requires found { StandsNext self.old (Found.Quantifier counts.0 counts.1 greedy length) }
        ensures turned { OnOk result (HasTurned self.old self.new) }
        ensures refused { IfErr result (RefusesText self.old) }
        ensures steps { MovesOver length (C.count steps.old) (C.count steps.new) self.old.reader self.new.reader result }
    {
        if self.quantify_last(counts, greedy, length, steps)? {
            return Ok(());
        }
        let span = span_over(&mut self.reader, &self.spans, length, steps);
        Err(Fault::Diagnostic(lone_quantifier(self.builder.mode, span)))
    }
}

/// The value of the first unit, where it is an ASCII character. `None` where there is none, or it is past ASCII.
#[inline(always)]
fn first_ascii<U: Unit>(units: &Ahead<'_, U>) -> Option<u8>
    ensures { IfSome result (λ it. front units.now ≡ Some it) }
{
    match units.first() {
        Some(first) if first < 128 => Some(first as u8),
        _ => None,
    }
}

/// The counts of `*`, `+` or `?` (QuantifierPrefix of ECMA-262, 22.2.1).
#[inline(always)]
#[tactic(auto, unfolding(rx_model::specs::Quantifiers::CountsReading::counts_read_at))]
fn counts_of_sign(sign: u8) -> (u64, Option<u64>)
    requires { is_one_of (codes "*+?") sign ≡ true }
    ensures { counts_read_at (sign ∷ []) ≡ counts_read result.0 result.1 1 }
{
    match sign {
        b'+' => (1, None),
        b'?' => (0, Some(1)),
        _ => (0, None),
    }
}

/// Whether a value is one of `*`, `+` and `?`.
#[inline(always)]
fn is_quantifier_sign(value: u8) -> bool
    ensures { result ≡ is_one_of (codes "*+?") value }
{
    matches!(value, b'*' | b'+' | b'?')
}

/// How many units stand before the first SyntaxCharacter: they stand for themselves in every mode.
#[inline(always)]
#[tactic(auto, using(crate::proofs::Paces::plain_ends))]
fn plain_length<U: Unit, C: Counter>(units: &Ahead<'_, U>, steps: &mut C) -> usize
    ensures within { result ≤ length units.now }
    ensures plain { All (λ unit. is_syntax_character unit.value ≡ false) (take result units.now) }
    ensures whole { result ≡ plain units.now }
    ensures steps { C.count steps.new ≡ C.count steps.old + result }
{
    let items = units.items();
    let mut count = 0;
    while count < items.len() && !is_syntax_character(items[count].value()) {
        steps.tick();
        count += 1;
    }
    count
}

/// Reads the n units that stand next and for themselves, and gives them to the builder. Memory for them is taken at once.
fn plain_run<S: UnitSource, C: Counter>(
    reader: &mut Reader<'_, S>,
    spans: &SpanFactory,
    builder: &mut Builder,
    count: usize,
    steps: &mut C,
) -> Result<(), OutOfMemory>
    requires before { IsBefore spans.now builder.old reader.old }
    requires some { 0 < count }
    requires within { count ≤ length (rest reader.old) }
    requires plain { All (λ unit. is_syntax_character unit.value ≡ false) (take count (rest reader.old)) }
    ensures turned { OnOk result (IsTurned spans.now builder.old builder.new reader.old reader.new) }
    ensures reader { OnOk result (reader.new ≡ move_on count reader.old) }
    ensures steps { Rises (C.count steps.old) (C.count steps.new) 0 (2 * count) }
    ensures least { OnOk result (C.count steps.new ≡ C.count steps.old + 2 * count) }
{
    builder.level.reserve(count)?;
    let mut start = here(reader, spans);
    let mut left = reader.ahead().front(count);
    while let Some(value) = left.first() {
        steps.tick();
        let end = left.end_of(1);
        let end = spans.create(end, end).end;
        let kind = unit_kind(left.escape_kind());
        let leaf = Leaf::Character { kind, value };
        builder.leaf(term(leaf, Span::new(start, end)))?;
        start = end;
        left = left.from(1);
    }
    reader.skip_counted(count, steps);
    Ok(())
}

/// Moves over n units, and gives their span.
#[inline(always)]
#[tactic(auto, using(rx_class::proofs::Fitting::moved_are_fitting))]
fn span_over<S: UnitSource, C: Counter>(
    reader: &mut Reader<'_, S>,
    spans: &SpanFactory,
    length: usize,
    steps: &mut C,
) -> Span
    requires fits { AreFitting spans.now reader.old }
    ensures start { result.start ≡ offset_of reader.old + spans.now }
    ensures end { result.end ≡ offset_of reader.new + spans.now }
    ensures reader { reader.new ≡ move_on length reader.old }
    ensures steps { IsMove (C.count steps.old) (C.count steps.new) reader.old reader.new }
{
    let at = here(reader, spans);
    reader.skip_counted(length, steps);
    Span::new(at, here(reader, spans))
}

fn copy(alloc: Global, names: &[Text]) -> Result<List<Text>, OutOfMemory>
    ensures { IfOk result (λ it. it ≡ names.now) }
{
    let mut copies = List::new(alloc);
    for name in names {
        copies.push(name.clone(alloc)?)?;
    }
    Ok(copies)
}
