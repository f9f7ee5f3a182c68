ghost use Rattle.std.specs.Prelude.{◌≡◌, ◌+◌, ◌<◌, ◌^◌, ◌∷◌, [], IfErr, IfOk, MatchResult, OnOk, false, if◌then◌else◌, true};
ghost use Rattle.rx_base.specs.Ascii as ascii;
ghost use Rattle.rx_units.specs.Cursor.{begins, move_on, rest};
ghost use Rattle.rx_units.specs.Pace.{IsMove, IsPaced, TakesSteps};
ghost use Rattle.rx_units.specs.Units.{values};
ghost use Rattle.rx_model.specs.FirstPass.Marks.{starts};
ghost use Rattle.rx_model.specs.Inputs.Environment.{is_sets};
ghost use Rattle.rx_ast.specs.ClassTree as ClassTree;
ghost use Rattle.rx_ast.specs.ClassTree.{mirror_class};
ghost use Rattle.rx_ast.specs.declared.class.CharacterClassContentsKind.TheVariants.{Union};
ghost use Rattle.rx_class.specs.EscapeReading.Answers.{environment_of, span_to};
ghost use Rattle.rx_class.specs.ClassReading.Answers.{GivesClass, GivesOneClass, HoldsFirstPass};
ghost use Rattle.rx_class.specs.ClassReading.Items.{AddsItem, IsOfText, RefusesItem, contents as members_of};
ghost use Rattle.rx_class.specs.Fitting.{AreFitting};
ghost use Rattle.rx_class.specs.ReadingSteps.{IsReading};

use crate::reading::{Reading, is_sets};
use crate::sets::front::begins_with;
use rx_ast::{CharacterClass, CharacterClassContents, CharacterClassContentsKind};
use rx_base::{Counter, Diagnostic, Fault, List, OutOfMemory, Unterminated};
use rx_scan::{SpanFactory, State};
use rx_units::{Reader, UnitSource};
use std::alloc::Global;

/// Reads the class (CharacterClass of ECMA-262, 22.2.1) that stands next, and moves over it. Where no `[` stands the answer is
/// `None`, and the reader stays.
///
/// It is refused by `UnterminatedPattern` where the text ends in it. Without `v` it is refused by `CharacterClassRangeOutOfOrder` or,
/// where the end is a `-`, by `CharacterClassRangeDashNotSubtraction` where a range ends below its start; with `u` by
/// `CharacterClassRangeInvalidAtom` where an end of a range is no character; by `InvalidClassAtom` where a backslash begins no escape
/// of a class; and as the escapes in it are. Spans are in bytes.
///
/// With `v` brackets nest, and it is refused too by `EmptyClassSetExpression` where a bracket begins with no operand; by
/// `ClassIntersectionUnexpectedAmpersand` where a `&` stands after `&&`; by `ClassSetExpressionInvalidCharacter` where no operand
/// stands after an operator, or neither that operator nor `]` after one of its operands; by `UnterminatedPattern` where class strings or a bracket
/// do not end; by `CharacterClassRangeOutOfOrder`; and by `InvalidCharacterClass` or, where it is nested, by
/// `CharacterClassContentsInvalidOperands` where a negative class may contain strings.
// Why: docs/DECISIONS.md, 44.
pub fn parse_character_class<'text, S: UnitSource + 'text, C: Counter>(
    alloc: Global,
    reader: &mut Reader<'text, S>,
    state: &State,
    spans: &SpanFactory,
    steps: &mut C,
) -> Result<Option<CharacterClass>, Fault>
    requires pass { HoldsFirstPass state.now reader.old.units }
    requires fits { AreFitting spans.now reader.old }
    ensures gives { GivesClass (environment_of state.now) spans.now reader.old reader.new result }
    ensures steps { IsReading 6 (C.count steps.old) (C.count steps.new) reader.old reader.new result }
{
    parse_character_class_with_list(reader, state, spans, &mut List::new(alloc), steps)
}

/// Reads the class that stands next as `parse_character_class` does, and gathers what it holds in a list, whose memory then serves the
/// next class too. What the list holds before and after does not matter.
pub fn parse_character_class_with_list<'text, S: UnitSource + 'text, C: Counter>(
    reader: &mut Reader<'text, S>,
    state: &State,
    spans: &SpanFactory,
    contents: &mut List<CharacterClassContents>,
    steps: &mut C,
) -> Result<Option<CharacterClass>, Fault>
    requires fits { AreFitting spans.now reader.old }
    requires pass { HoldsFirstPass state.now reader.old.units }
    ensures gives { GivesClass (environment_of state.now) spans.now reader.old reader.new result }
    ensures steps { IsReading 6 (C.count steps.old) (C.count steps.new) reader.old reader.new result }
{
    let alloc = contents.allocator();
    let mut reading = Reading {
        reader,
        state,
        spans,
        alloc,
        steps,
    };
    reading.character_class(contents)
}

impl<S: UnitSource, C: Counter> Reading<'_, '_, '_, '_, '_, S, C> {
    ghost use Rattle.rx_class.specs.Readings.{ReadsOn};

    /// Reads the class that stands next.
    pub(crate) fn character_class(
        &mut self,
        contents: &mut List<CharacterClassContents>,
    ) -> Result<Option<CharacterClass>, Fault>
        requires pass { HoldsFirstPass self.old.state.now self.old.reader.now.units }
        ensures gives { GivesClass (environment_of self.old.state.now) self.old.spans.now self.old.reader.now self.new.reader.now result }
        ensures steps { IsReading 6 (C.count self.old.steps.now) (C.count self.new.steps.now) self.old.reader.now self.new.reader.now result }
        ensures on { ReadsOn self.old self.new }
    {
        if !begins_with(&self.units(), '[') {
            return Ok(None);
        }
        Ok(Some(self.class_here(contents)?))
    }

    /// Reads the class whose `[` stands next, and moves over it.
    fn class_here(
        &mut self,
        contents: &mut List<CharacterClassContents>,
    ) -> Result<CharacterClass, Fault>
        requires bracket { starts ascii.left_bracket (values (rest self.old.reader.now)) ≡ true }
        requires pass { HoldsFirstPass self.old.state.now self.old.reader.now.units }
        ensures gives { GivesOneClass (environment_of self.old.state.now) self.old.spans.now self.old.reader.now self.new.reader.now result }
        ensures steps { TakesSteps 6 (C.count self.old.steps.now) (C.count self.new.steps.now) self.old.reader.now self.new.reader.now result }
        ensures on { ReadsOn self.old self.new }
    {
        if is_sets(self.state.mode()) {
            return self.sets_mode_class();
        }
        self.items_class(contents)
    }

    /// Reads the class without `v` (CharacterClass and NonemptyClassRanges of ECMA-262, 22.2.1) whose `[` stands next, and moves
    /// over it.
    fn items_class(
        &mut self,
        contents: &mut List<CharacterClassContents>,
    ) -> Result<CharacterClass, Fault>
        requires bracket { starts ascii.left_bracket (values (rest self.old.reader.now)) ≡ true }
        requires no_sets { is_sets (environment_of self.old.state.now).mode ≡ false }
        requires environment { IsOfText (environment_of self.old.state.now) self.old.reader.now }
        ensures gives { GivesOneClass (environment_of self.old.state.now) self.old.spans.now self.old.reader.now self.new.reader.now result }
        ensures steps { TakesSteps 6 (C.count self.old.steps.now) (C.count self.new.steps.now) self.old.reader.now self.new.reader.now result }
        ensures on { ReadsOn self.old self.new }
    {
        let start = self.offset();
        let negative = self.class_opener();
        prepare(contents)?;
        while !begins_with(&self.units(), ']') {
            self.next_item(start, contents)?;
        }
        self.closed_class(contents, start, negative)
    }

    /// Reads the item at the place, and adds it to the contents of the class, which begins at `start`, in bytes.
    #[inline(always)]
    fn next_item(
        &mut self,
        start: u32,
        contents: &mut List<CharacterClassContents>,
    ) -> Result<(), Fault>
        requires goes_on { starts ascii.right_bracket (values (rest self.old.reader.now)) ≡ false }
        requires no_sets { is_sets (environment_of self.old.state.now).mode ≡ false }
        requires start { start + self.old.spans.now < 2 ^ 32 }
        ensures added { OnOk result (AddsItem (environment_of self.old.state.now) self.old.spans.now self.old.reader.now self.new.reader.now contents.old contents.new) }
        ensures refused { IfErr result (RefusesItem (environment_of self.old.state.now) self.old.spans.now start self.old.reader.now self.new.reader.now) }
        ensures steps { TakesSteps 6 (C.count self.old.steps.now) (C.count self.new.steps.now) self.old.reader.now self.new.reader.now result }
        ensures on { ReadsOn self.old self.new }
    {
        if self.peek().is_none() {
            let span = self.span_from(start);
            let what = Unterminated::CharacterClass;
            return Err(Fault::Diagnostic(Diagnostic::UnterminatedPattern { span, what }));
        }
        self.add_item(contents)
    }

    /// Moves over the `]` at the place, and gives the class, which begins at `start`, in bytes, with the contents that were gathered.
    fn closed_class(
        &mut self,
        contents: &mut List<CharacterClassContents>,
        start: u32,
        negative: bool,
    ) -> Result<CharacterClass, Fault>
        requires start { start + self.old.spans.now < 2 ^ 32 }
        ensures gives { MatchResult result
            (λ it. (it.span ≡ span_to self.old.spans.now start self.new.reader.now) × (mirror_class it ≡ ClassTree.class it.span negative false Union (members_of contents.old)))
            (λ fault. fault ≡ Fault.OutOfMemory) }
        ensures reader { self.new.reader.now ≡ move_on 1 self.old.reader.now }
        ensures steps { IsMove (C.count self.old.steps.now) (C.count self.new.steps.now) self.old.reader.now self.new.reader.now }
        ensures on { ReadsOn self.old self.new }
    {
        self.advance();
        let span = self.span_from(start);
        let body = take_out(contents)?;
        Ok(CharacterClass {
            span,
            negative,
            strings: false,
            kind: CharacterClassContentsKind::Union,
            body,
        })
    }

    /// Moves over the `[` of a class, and the `^` after it where one stands, and says whether it does.
    #[tactic(auto, using(crate::proofs::ReadingSteps::eaten_paced))]
    pub(crate) fn class_opener(&mut self) -> bool
        ensures value { result ≡ begins (ascii.caret ∷ []) (rest (move_on 1 self.old.reader.now)) }
        ensures reader { self.new.reader.now ≡ (if result then move_on 1 (move_on 1 self.old.reader.now) else move_on 1 self.old.reader.now) }
        ensures steps { IsPaced 6 (C.count self.old.steps.now) (C.count self.new.steps.now) self.old.reader.now self.new.reader.now }
        ensures on { ReadsOn self.old self.new }
    {
        self.advance();
        self.eat('^')
    }
}

/// Empties a list, and takes memory for what most classes hold.
fn prepare(contents: &mut List<CharacterClassContents>) -> Result<(), Fault>
    ensures { MatchResult result (λ none. contents.new ≡ []) (λ fault. fault ≡ Fault.OutOfMemory) }
{
    clear(contents);
    Ok(contents.reserve(CONTENTS_RESERVED)?)
}

/// Empties a list. Where it is empty already it keeps its memory.
fn clear(contents: &mut List<CharacterClassContents>)
    ensures { contents.new ≡ [] }
{
    if !contents.is_empty() {
        *contents = List::new(contents.allocator());
    }
}

/// Takes the contents out of a list: few into a list with memory for them alone, so that the memory of this one serves the next class;
/// many with the memory that they have, so that they never take it twice.
fn take_out(
    contents: &mut List<CharacterClassContents>,
) -> Result<List<CharacterClassContents>, OutOfMemory>
    ensures { IfOk result (λ it. it ≡ contents.old) }
{
    if contents.len() <= FEW_CONTENTS {
        return contents.take_all();
    }
    let next = List::new(contents.allocator());
    Ok(std::mem::replace(contents, next))
}

/// For how many contents of a class memory is taken before the first: most classes have no more, so that their list never grows.
const CONTENTS_RESERVED: usize = 16;

/// How many contents of a class are few: most classes have no more.
const FEW_CONTENTS: usize = 64;
