ghost use Rattle.std.specs.Prelude.{◌≡◌, ◌+◌, ◌<◌, ◌≤◌};
ghost use Rattle.rx_base.specs.Rising.{Rises};
ghost use Rattle.rx_units.specs.Cursor.{offset_of};
ghost use Rattle.rx_model.specs.Refusals.Reached.{span_between};
ghost use Rattle.rx_class.specs.Fitting.{AreFitting};
ghost use Rattle.rx_parser.specs.Faults.{IsEndedFault, IsHaltFault, IsSmall, halt_refusal, lone_refusal, modifiers_refusal};
ghost use Rattle.rx_parser.specs.HaltPlaces.{halt_end, halt_start};
ghost use Rattle.rx_parser.specs.Turns.{HasMore};

use crate::builder::Builder;
use crate::found::{Halt, ModifiersFault};
use crate::turn::Parse;
use rx_base::{Counter, Diagnostic, DigitsKind, Fault, Span, Unterminated};
use rx_model::Mode;
use rx_scan::SpanFactory;
use rx_units::{Reader, UnitSource};

/// The fault of a halt where the reader stands.
#[cold]
pub fn fault<S: UnitSource, C: Counter>(
    parse: &mut Parse<'_, S>,
    halt: Halt,
    steps: &mut C,
) -> Fault
    requires small { IsSmall halt }
    requires more { HasMore parse.old }
    ensures fault { IsHaltFault parse.old.reader.units parse.old.reader.first parse.old.spans parse.old.reader.place parse.old.builder parse.old.state.num_of_capturing_groups halt result }
    ensures steps { Rises (C.count steps.old) (C.count steps.new) 0 (halt_end halt) }
{
    if let Halt::Stop { following } = halt {
        parse.reader.skip_counted(following, steps);
        return fault_at_end(&parse.reader, &parse.spans, &parse.builder);
    }
    let (from, to) = named_places(halt);
    let span = span_ahead(&mut parse.reader, &parse.spans, from, to, steps);
    Fault::Diagnostic(refusal(halt, span, parse.state.num_of_capturing_groups))
}

/// From where to where the span of a halt goes, in units from the place on.
fn named_places(halt: Halt) -> (usize, usize)
    requires small { IsSmall halt }
    ensures places { result ≡ (halt_start halt, halt_end halt) }
    ensures order { result.0 ≤ result.1 }
{
    match halt {
        Halt::Stop { following } => (following, following),
        Halt::LastBackslash => (0, 1),
        Halt::OutOfOrder { length } | Halt::TooLarge { length } | Halt::NoSuchGroup { length } => {
            (0, length)
        }
        Halt::TooManyDigits { start, digits } => (start, start + digits),
        Halt::TooManyHexDigits { start, digits } => (start, start + digits),
        Halt::InvalidEscape { start, length } => (start, start + length),
        Halt::UnterminatedName { length } => (2, length + 3),
        Halt::MisplacedPair { start } => (start, start + 2),
        Halt::NoGroupName => (0, 2),
        Halt::Modifiers { length, .. } => (2, length + 2),
    }
}

/// The refusal that a halt with this span is, in a pattern with n groups; of a stop, that outside groups.
fn refusal(halt: Halt, span: Span, groups: u32) -> Diagnostic
    ensures { result ≡ halt_refusal halt span groups }
{
    match halt {
        Halt::Stop { .. } => Diagnostic::ParsePatternIncomplete { span },
        Halt::LastBackslash => Diagnostic::InvalidExtendedAtomEscape { span },
        Halt::OutOfOrder { .. } => Diagnostic::BracedQuantifierOutOfOrder { span },
        Halt::TooLarge { .. } => Diagnostic::TooLargeNumberInBracedQuantifier { span },
        Halt::TooManyDigits { .. } => {
            let what = DigitsKind::Decimal;
            Diagnostic::TooLargeNumberDigits { span, what }
        }
        Halt::TooManyHexDigits { .. } => {
            let what = DigitsKind::Hex;
            Diagnostic::TooLargeNumberDigits { span, what }
        }
        Halt::InvalidEscape { .. } => Diagnostic::InvalidUnicodeEscapeSequence { span },
        Halt::UnterminatedName { .. } => {
            let what = Unterminated::GroupName;
            Diagnostic::UnterminatedPattern { span, what }
        }
        Halt::MisplacedPair { .. } => Diagnostic::InvalidSurrogatePair { span },
        Halt::NoGroupName => Diagnostic::EmptyGroupSpecifier { span },
        Halt::NoSuchGroup { .. } => Diagnostic::InvalidIndexedReference { span, max: groups },
        Halt::Modifiers { fault, .. } => modifiers_fault(fault, span),
    }
}

/// The refusal of a quantifier of this span that stands after nothing that may have one.
#[cold]
pub fn lone_quantifier(mode: Mode, span: Span) -> Diagnostic
    ensures { result ≡ lone_refusal mode span }
{
    match mode {
        Mode::Legacy => Diagnostic::InvalidBracedQuantifier { span },
        Mode::Unicode | Mode::Sets => Diagnostic::LoneQuantifier { span },
    }
}

fn modifiers_fault(fault: ModifiersFault, span: Span) -> Diagnostic
    ensures { result ≡ modifiers_refusal fault span }
{
    match fault {
        ModifiersFault::Unknown => Diagnostic::UnknownModifiers { span },
        ModifiersFault::Duplicated => Diagnostic::DuplicatedModifiers { span },
        ModifiersFault::Empty => Diagnostic::EmptyModifiers { span },
        ModifiersFault::Invalid => Diagnostic::InvalidModifiers { span },
    }
}

/// The fault where terms end at the reader's place, and neither a group nor the pattern ends there.
#[cold]
pub fn fault_at_end<S: UnitSource>(
    reader: &Reader<'_, S>,
    spans: &SpanFactory,
    builder: &Builder,
) -> Fault
    requires fits { AreFitting spans.now reader.now }
    ensures { IsEndedFault reader.now.units reader.now.first spans.now reader.now.place builder.now result }
{
    let end = here(reader, spans);
    match builder.innermost() {
        Some(group) => Fault::Diagnostic(Diagnostic::UnterminatedPattern {
            span: Span::new(group.start, end),
            what: group.group_kind.unterminated(),
        }),
        None => {
            let span = Span::empty(end);
            Fault::Diagnostic(Diagnostic::ParsePatternIncomplete { span })
        }
    }
}

/// The offset where the reader stands, with the offset of the spans added.
#[inline]
pub fn here<S: UnitSource>(reader: &Reader<'_, S>, spans: &SpanFactory) -> u32
    requires fits { AreFitting spans.now reader.now }
    ensures { result ≡ offset_of reader.now + spans.now }
{
    let at = reader.offset();
    spans.create(at, at).start
}

/// The span from one place ahead to another, in units from where the reader stands. The reader stays there.
pub fn span_ahead<S: UnitSource, C: Counter>(
    reader: &mut Reader<'_, S>,
    spans: &SpanFactory,
    from: usize,
    to: usize,
    steps: &mut C,
) -> Span
    requires order { from ≤ to }
    requires fits { AreFitting spans.now reader.old }
    ensures span { result ≡ span_between reader.old.units reader.old.first spans.now (reader.old.place + from) (reader.old.place + to) }
    ensures reader { reader.new ≡ reader.old }
    ensures steps { Rises (C.count steps.old) (C.count steps.new) 0 to }
{
    let checkpoint = reader.checkpoint();
    reader.skip_counted(from, steps);
    let start = reader.offset();
    reader.skip_counted(to - from, steps);
    let end = reader.offset();
    reader.rewind(checkpoint);
    spans.create(start, end)
}
