ghost use Rattle.std.specs.Prelude.{◌≡◌, ℕ, ◌+◌, ◌<◌, ◌^◌, true, All, IfOk, IfErr, MatchOption, length, take};
ghost use Rattle.rx_base.specs.Flags.{holds};
ghost use Rattle.rx_units.specs.Units.{values};
ghost use Rattle.rx_model.specs.Refusals.FlagCauses.{IsFlagCause, unit_span};
ghost use Rattle.rx_model.specs.Inputs.Flags.{flags_ok, mode_of, modes_of};

use crate::SpanFactory;
use rx_base::{Diagnostic, Span, is_flag};
use rx_model::Mode;
use rx_units::{CodePoint, Reader};

/// Reads flags.
#[derive(Drop)]
pub struct FlagsParser<'a> {
    pub reader: Reader<'a>,
    pub spans: SpanFactory,
}

impl<'a> FlagsParser<'a> {
    /// Reads the flags from the reader's place on. The offset, in bytes, is added to both ends of the span in a refusal.
    pub fn new(reader: Reader<'a>, span_offset: u32) -> FlagsParser<'a>
        ensures reader { result.reader ≡ reader.entry }
        ensures offset { result.spans ≡ span_offset }
    {
        FlagsParser {
            reader,
            spans: SpanFactory::new(span_offset),
        }
    }

    /// Whether the flags ask for a unicode mode, and whether they ask for sets mode; or why they are refused (RegExpInitialize and
    /// ParsePattern of ECMA-262, 22.2.3.3 and 22.2.3.4).
    #[tactic(auto, using(crate::proofs::FlagRows::modes_by_mode))]
    pub fn parse(self) -> Result<(bool, bool), Diagnostic>
        requires start { self.reader.place ≡ 0 }
        requires first { self.reader.first + self.spans < 2 ^ 32 }
        requires fits { All (λ unit. unit.span.end + self.spans < 2 ^ 32) self.reader.units }
        ensures passed { IfOk result (λ modes. flags_ok (values self.entry.reader.units) ≡ true) }
        ensures modes { IfOk result (λ modes. modes ≡ modes_of (values self.entry.reader.units)) }
        ensures refused { IfErr result (λ cause. IsFlagCause self.entry.reader.units self.entry.reader.first self.entry.spans cause) }
    {
        let units = self.reader.remaining_code_points();
        check(units, self.reader.offset(), self.spans)?;
        let mode = mode_of(units);
        Ok((mode.is_unicode(), matches!(mode, Mode::Sets)))
    }
}

/// Refuses the first unit with which the units are no flags any more (RegExpInitialize, 22.2.3.3). `first` is the offset before the first unit.
fn check(units: &[CodePoint], first: u32, spans: SpanFactory) -> Result<(), Diagnostic>
    requires first { first + spans < 2 ^ 32 }
    requires fits { All (λ unit. unit.span.end + spans < 2 ^ 32) units.now }
    ensures passed { IfOk result (λ done. flags_ok (values units.now) ≡ true) }
    ensures refused { IfErr result (λ cause. IsFlagCause units.now first spans cause) }
{
    let mut start = first;
    for (place, unit) in units.iter().enumerate() {
        let span = spans.create(start, unit.span.end);
        if let Some(cause) = refusal(units, place, span) {
            return Err(cause);
        }
        start = unit.span.end;
    }
    Ok(())
}

/// Why the unit at the place, whose span this is, cannot follow the flags before it.
fn refusal(units: &[CodePoint], place: usize, span: Span) -> Option<Diagnostic>
    requires within { place < length units.now }
    requires passed { flags_ok (values (take place units.now)) ≡ true }
    ensures { MatchOption result (flags_ok (values (take (place + 1) units.now)) ≡ true)
        (λ cause. (first added : ℕ) → span ≡ unit_span units.now first added place → IsFlagCause units.now first added cause) }
{
    let flag = units[place].value;
    if !is_flag(flag) {
        return Some(Diagnostic::UnknownFlag { span, flag });
    }
    if holds(&units[..place], flag) {
        return Some(Diagnostic::DuplicatedFlags { span, flag });
    }
    let flags = &units[..place + 1];
    if holds(flags, 'u' as u32) && holds(flags, 'v' as u32) {
        return Some(Diagnostic::InvalidUnicodeFlags { span });
    }
    None
}

/// The mode that flags ask for (ParsePattern, 22.2.3.4).
fn mode_of(units: &[CodePoint]) -> Mode
    ensures { result ≡ mode_of (values units.now) }
{
    if holds(units, 'v' as u32) {
        Mode::Sets
    } else if holds(units, 'u' as u32) {
        Mode::Unicode
    } else {
        Mode::Legacy
    }
}

/// Whether some unit has this value.
fn holds(units: &[CodePoint], value: u32) -> bool
    ensures { result ≡ holds (values units.now) value }
{
    units.iter().any(|unit| unit.value == value)
}
