ghost use Rattle.std.specs.Prelude.{◌≡◌, Bool, ◌+◌, ◌*◌, ◌<◌, ◌≤◌, ◌^◌, ◌++◌, ◌∷◌, [], All, IfErr, IfOk, OnOk, length};
ghost use Rattle.rx_units.specs.Cursor.{offset_of, rest};
ghost use Rattle.rx_units.specs.Pace.{units_left};
ghost use Rattle.rx_model.specs.Trees.Events.{events, leave};
ghost use Rattle.rx_model.specs.Trees.Shapes.{IsWellMade};
ghost use Rattle.rx_scan.specs.StateFaults.{mode_of_state};
ghost use Rattle.rx_class.specs.Fitting.{AreFitting};
ghost use Rattle.rx_parser.specs.Frames.{builder_events, openers};
ghost use Rattle.rx_parser.specs.Good.{IsGood};
ghost use Rattle.rx_parser.specs.Parsing.{AnswersParser, HoldsPass, IsRefused, IsWhole, rules_of_state};
ghost use Rattle.rx_parser.specs.Turns.{IsUnderWay, RefusesText, fixed_parts};

use crate::builder::Builder;
use crate::fault::{fault_at_end, here};
use crate::turn::Parse;
use rx_ast::Pattern;
use rx_base::{Counter, Diagnostic, Fault, List, Steps};
use rx_model::Rules;
use rx_scan::{SpanFactory, State, StateFault};
use rx_units::{CodePoint, Reader, UnitSource};
use std::alloc::Global;
use std::marker::Brand;
use std::sync::ledger::{Blank, Ledger};

/// Reads a pattern from the units of a reader.
#[derive(Drop)]
pub struct PatternParser<'a, S: UnitSource = List<CodePoint>> {
    pub alloc: Global,
    pub reader: Reader<'a, S>,
    pub state: State,
    pub spans: SpanFactory,
    /// Whether the buffer boundaries are read with `u` or `v`.
    pub buffer_boundaries: bool,
}

impl<'a, S: UnitSource + 'a> PatternParser<'a, S> {
    /// A parser of what the reader holds. The modes are whether it is a unicode mode and whether it is sets mode; `span_offset` is added to each offset
    /// of an answer, in bytes. The rules are whether two groups may have one name where they never both take part, and whether the buffer boundaries are read.
    pub fn new(
        alloc: Global,
        reader: Reader<'a, S>,
        modes: (bool, bool),
        span_offset: u32,
        rules: (bool, bool),
    ) -> PatternParser<'a, S>
        ensures reader { result.reader ≡ reader.entry }
        ensures modes { (result.state.unicode_mode, result.state.unicode_sets_mode) ≡ modes }
        ensures offset { result.spans ≡ span_offset }
        ensures rules { (result.state.duplicate_names, result.buffer_boundaries) ≡ rules }
    {
        let (unicode_mode, unicode_sets_mode) = modes;
        let (duplicate_names, buffer_boundaries) = rules;
        PatternParser {
            alloc,
            reader,
            state: State::new(alloc, unicode_mode, unicode_sets_mode, duplicate_names),
            spans: SpanFactory::new(span_offset),
            buffer_boundaries,
        }
    }

    /// The tree of the pattern (Pattern, 22.2.1). Over no units it has one empty alternative.
    #[inline(always)]
    pub fn parse(self) -> Result<Pattern, Fault>
        requires start { self.reader.place ≡ 0 }
        requires first { self.reader.first + self.spans < 2 ^ 32 }
        requires fits { All (λ unit. unit.span.end + self.spans < 2 ^ 32) self.reader.units }

        ensures { AnswersParser self.entry result }
    {
        parse_alone::<S, Brand>(self, Blank::new(1))
    }

    /// Reads the pattern as `parse` does, and counts each unit that is moved over, and each turn of a loop that looks ahead: at most eight steps for each
    /// unit, and eight more; of a pattern that is read at least two for each unit.
    #[inline(always)]
    pub fn parse_counted<C: Counter>(self, steps: &mut C) -> Result<Pattern, Fault>
        requires start { self.reader.place ≡ 0 }
        requires first { self.reader.first + self.spans < 2 ^ 32 }
        requires fits { All (λ unit. unit.span.end + self.spans < 2 ^ 32) self.reader.units }

        ensures answer { AnswersParser self.entry result }
        ensures steps { C.count steps.new ≤ C.count steps.old + 8 * (length self.entry.reader.units + 1) }
        ensures all { OnOk result (C.count steps.old + 2 * length self.entry.reader.units ≤ C.count steps.new) }
    {
        let PatternParser {
            alloc,
            mut reader,
            mut state,
            spans,
            buffer_boundaries,
        } = self;
        let mode = state.mode();
        let rules = Rules {
            duplicate_names: state.duplicate_names,
            buffer_boundaries,
        };
        first_pass(&mut state, &mut reader, &spans, steps)?;
        let start = here(&reader, &spans);
        let capacity = first_capacity(&reader);
        let builder = Builder::with_capacity(alloc, mode, rules, start, capacity)?;
        let parse = Parse {
            alloc,
            reader,
            state,
            spans,
            builder,
            class_contents: List::new(alloc),
        };
        read_pattern(parse, steps)
    }
}

/// Reads the pattern with a counter that no one sees.
// Why: docs/DECISIONS.md, 98.
#[inline(always)]
fn parse_alone<'a, S: UnitSource + 'a, L: Ledger>(
    parser: PatternParser<'a, S>,
    blank: Blank,
) -> Result<Pattern, Fault>
    requires name { blank.name ≡ L.name }
    requires parts { blank.parts ≡ L.parts }
    requires one { blank.parts ≡ 1 }
    requires start { parser.reader.place ≡ 0 }
    requires first { parser.reader.first + parser.spans < 2 ^ 32 }
    requires fits { All (λ unit. unit.span.end + parser.spans < 2 ^ 32) parser.reader.units }
    ensures { AnswersParser parser.entry result }
{
    parser.parse_counted(&mut Steps::<L>::new(blank))
}

/// Counts the groups of the text and lists their names, or tells why the text is refused for them.
fn first_pass<S: UnitSource, C: Counter>(
    state: &mut State,
    reader: &mut Reader<'_, S>,
    spans: &SpanFactory,
    steps: &mut C,
) -> Result<(), Fault>
    requires start { reader.old.place ≡ 0 }
    requires fits { AreFitting spans.now reader.old }
    ensures reader { reader.new ≡ reader.old }
    ensures pass { (buffers : Bool) → OnOk result (HoldsPass (mode_of_state state.old) (rules_of_state state.old buffers) reader.old.units state.new) }
    ensures refused { (buffers : Bool) → IfErr result (IsRefused (mode_of_state state.old) (rules_of_state state.old buffers) reader.old.units reader.old.first spans.now) }
    ensures steps { C.count steps.new ≤ C.count steps.old + length reader.old.units }
    ensures all { OnOk result (C.count steps.new ≡ C.count steps.old + length reader.old.units) }
{
    match state.initialize_with_parsing_counted(reader, steps) {
        Ok(()) if state.num_of_capturing_groups < u32::MAX => Ok(()),
        Ok(()) => {
            let span = spans.create(0, 0);
            Err(Fault::Diagnostic(Diagnostic::TooMayCapturingGroups { span }))
        }
        Err(StateFault::OutOfMemory) => Err(Fault::OutOfMemory),
        Err(StateFault::Duplicated { first, second }) => {
            Err(Fault::Diagnostic(Diagnostic::DuplicatedCapturingGroupNames {
                first: spans.create(first.0, first.1),
                second: spans.create(second.0, second.1),
            }))
        }
    }
}

/// For how many terms memory is taken before any is read: for none where a class stands first, since it is often the whole pattern.
fn first_capacity<S: UnitSource>(reader: &Reader<'_, S>) -> usize
    ensures few { result ≤ 16 }
    ensures within { result ≤ length (rest reader.now) }
{
    let units = reader.ahead();
    if units.first() == Some('[' as u32) {
        return 0;
    }
    units.len().min(TERMS_RESERVED)
}

/// For how many terms memory is taken at most before any is read: most patterns have no more outside groups.
const TERMS_RESERVED: usize = 16;

/// The tree of a text of which nothing is read yet, and whose groups are counted.
fn read_pattern<'a, S: UnitSource + 'a, C: Counter>(
    mut parse: Parse<'a, S>,
    steps: &mut C,
) -> Result<Pattern, Fault>
    requires start { parse.reader.place ≡ 0 }
    requires under_way { IsUnderWay parse }
    ensures whole { IfOk result (IsWhole parse.entry.builder.mode parse.entry.builder.rules parse.entry.reader.units parse.entry.reader.first parse.entry.spans) }
    ensures refused { IfErr result (RefusesText parse.entry) }
    ensures steps { C.count steps.new ≤ C.count steps.old + 7 * length parse.entry.reader.units + 8 }
    ensures all { OnOk result (C.count steps.old + length parse.entry.reader.units ≤ C.count steps.new) }
{
    let end = take_turns(&mut parse, steps)?;
    finish(parse.into_builder(), end)
}

/// Reads turn by turn what is left of the text, gives it to the builder, and tells where the text ends.
#[inline(always)]
fn take_turns<'a, S: UnitSource + 'a, C: Counter>(
    parse: &mut Parse<'a, S>,
    steps: &mut C,
) -> Result<u32, Fault>
    requires { IsUnderWay parse.old }
    ensures under_way { OnOk result (IsUnderWay parse.new) }
    ensures kept { OnOk result (fixed_parts parse.new ≡ fixed_parts parse.old) }
    ensures left { OnOk result (units_left parse.new.reader ≡ 0) }
    ensures whole { OnOk result (openers parse.new.builder ≡ []) }
    ensures end { IfOk result (λ end. end ≡ offset_of parse.new.reader + parse.new.spans) }
    ensures refused { IfErr result (RefusesText parse.old) }
    ensures steps { C.count steps.new ≤ C.count steps.old + 7 * length parse.old.reader.units + 8 }
    ensures all { OnOk result (C.count steps.old + units_left parse.old.reader ≤ C.count steps.new) }
{
    while !parse.reader.ahead().is_empty() {
        if parse.take_common(steps)? {
            continue;
        }
        parse.take_token(steps)?;
    }
    if !parse.builder.is_whole() {
        return Err(fault_at_end(&parse.reader, &parse.spans, &parse.builder));
    }
    Ok(here(&parse.reader, &parse.spans))
}

/// The pattern that was built, which ends before the byte `end`.
#[inline(always)]
fn finish(builder: Builder, end: u32) -> Result<Pattern, Fault>
    requires { openers builder ≡ [] }
    ensures pattern { IfOk result (λ it. (events it ≡ builder_events builder ++ (leave end ∷ leave end ∷ leave end ∷ [])) × (IsGood builder → IsWellMade builder.mode it)) }
    ensures memory { IfErr result (λ fault. fault ≡ Fault.OutOfMemory) }
{
    Ok(builder.finish(end)?)
}
