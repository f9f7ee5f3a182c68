ghost use Rattle.std.specs.Prelude.{◌≡◌, ◌+◌, ◌<◌, ◌≤◌, ◌^◌, [], max, IfErr, IfOk, IfSome, length};
ghost use Rattle.std.specs.Str.{chars};
ghost use Rattle.rx_class.specs.Fitting.{AreFitting};
ghost use Rattle.rx_model.specs.Inputs.Modes.{mode_by};
ghost use Rattle.rx_model.specs.Inputs.Texts.{literal_text, quoted_text, some_units};
ghost use Rattle.rx_parser.specs.Inputs.{common_flags, flags_length, stand_in_length};

use crate::{Options, PatternParser};
use rx_ast::Pattern;
use rx_base::{Diagnostic, Fault, OutOfMemory};
use rx_model::{Form, Mode};
use rx_scan::{FlagsParser, SpanFactory};
use rx_units::{Reader, ReaderFault, UnitSource};
use std::alloc::Global;

/// What a reader of patterns is given: the text of a pattern and its flags, in a form, in which both texts may have quotes. The flags text is absent where
/// there are no flags.
// Why: docs/DECISIONS.md, 100.
#[derive(Clone, Copy)]
pub struct Input<'a> {
    pub form: Form,
    pub pattern_text: &'a str,
    pub flags_text: Option<&'a str>,
    pub options: Options,

    // Each offset of an answer fits 32 bits.
    ghost pattern_fits: { options.pattern_span_offset + max (length pattern_text.now) (stand_in_length form) < 2 ^ 32 },
    ghost flags_fit: { options.flags_span_offset + flags_length flags_text < 2 ^ 32 },
}

impl<'a> Input<'a> {
    ghost use Rattle.std.specs.Prelude.{◌⊎◌, All};
    ghost use Rattle.rx_model.specs.Inputs.Environment.{is_unicode};
    ghost use Rattle.rx_model.specs.Inputs.Inputs.{Asks, AsksFor};
    ghost use Rattle.rx_model.specs.Inputs.Texts.{HasNoUnits, first_offset, stand_in};
    ghost use Rattle.rx_model.specs.Reading.Headline.{IsFaultOf, IsParsed, whole_span};
    ghost use Rattle.rx_parser.specs.Texts.{GivesUnits, StandsBefore, seen_input};

    /// Reads the pattern: the flags first, and then the text in the mode that they ask for (RegExpInitialize, ECMA-262, 22.2.3.3).
    // Why: docs/DECISIONS.md, 130.
    pub fn parse(&self, alloc: Global) -> Result<(Pattern, Mode), Fault>
        // Ok on valid input and on no other, with the only tree; else the first refusal, or out of memory.
        ensures answered { IsParsed (λ it. it.0) (seen_input self.now) result }
        ensures mode { IfOk result (λ it. AsksFor (seen_input self.now) it.1) }
    {
        let mode = self.mode(alloc)?;
        let text = self.text();
        if matches!(self.form, Form::Literal) && text.is_ascii() {
            return Ok((self.parse_units(alloc, Reader::of_ascii(text), mode)?, mode));
        }
        let reader = self.pattern_reader(alloc, mode)?;
        Ok((self.parse_units(alloc, reader, mode)?, mode))
    }

    /// The pattern that the units of a reader spell in a mode, or why they spell none.
    fn parse_units<S: UnitSource + 'a>(
        &self,
        alloc: Global,
        reader: Reader<'a, S>,
        mode: Mode,
    ) -> Result<Pattern, Fault>
        requires units { Asks (seen_input self.now) mode reader.units }
        requires start { reader.place ≡ 0 }
        requires first { reader.first ≡ first_offset self.now.form }
        requires fits { AreFitting self.now.options.pattern_span_offset reader }
        ensures { IsParsed (λ p. p) (seen_input self.now) result }
    {
        let rules = (self.options.duplicate_names, self.options.buffer_boundaries);
        let span_offset = self.options.pattern_span_offset;
        PatternParser::new(alloc, reader, mode_flags(mode), span_offset, rules).parse()
    }

    /// The mode that the flags ask for. No flags text asks for legacy mode. Flags are read by code points, before any mode is known.
    fn mode(&self, alloc: Global) -> Result<Mode, Fault>
        ensures asked { IfOk result (AsksFor (seen_input self.now)) }
        ensures refused { IfErr result (IsFaultOf (seen_input self.now)) }
    {
        let Some(flags) = self.flags_text else {
            return Ok(Mode::Legacy);
        };
        match common_mode(self.form, flags) {
            Some(mode) => Ok(mode),
            None => self.read_mode(alloc, flags),
        }
    }

    /// The mode that a flags text asks for, by a reader of it.
    #[inline(never)]
    fn read_mode(&self, alloc: Global, flags: &'a str) -> Result<Mode, Fault>
        requires { self.now.flags_text ≡ Some flags }
        ensures asked { IfOk result (AsksFor (seen_input self.now)) }
        ensures refused { IfErr result (IsFaultOf (seen_input self.now)) }
    {
        let span_offset = self.options.flags_span_offset;
        let reader = self.reader_of(alloc, flags, true, span_offset)?;
        let modes = FlagsParser::new(reader, span_offset).parse()?;
        Ok(Mode::of(modes.0, modes.1))
    }

    /// A reader of the units that are to be read in a mode that the flags ask for.
    #[inline(always)]
    fn pattern_reader(&self, alloc: Global, mode: Mode) -> Result<Reader<'a>, Fault>
        requires { AsksFor (seen_input self.now) mode }
        ensures units { IfOk result (λ reader. Asks (seen_input self.now) mode reader.units) }
        ensures start { IfOk result (λ reader. reader.place ≡ 0) }
        ensures first { IfOk result (λ reader. reader.first ≡ first_offset self.now.form) }
        ensures fits { IfOk result (AreFitting self.now.options.pattern_span_offset) }
        ensures refused { IfErr result (IsFaultOf (seen_input self.now)) }
    {
        let unicode_mode = mode.is_unicode();
        let span_offset = self.options.pattern_span_offset;
        let own = self.reader_of(alloc, self.text(), unicode_mode, span_offset)?;
        Ok(some_reader(alloc, own, unicode_mode, span_offset)?)
    }

    /// A reader of a text in the form of the input, by code points in unicode mode, else by code units. A quoted text that is not decoded is refused as a whole.
    // Why: docs/DECISIONS.md, 48.
    #[inline(always)]
    fn reader_of(
        &self,
        alloc: Global,
        text: &'a str,
        unicode_mode: bool,
        span_offset: u32,
    ) -> Result<Reader<'a>, Fault>
        requires { span_offset + length text.now < 2 ^ 32 }
        ensures read { IfOk result (StandsBefore (seen_input self.now) unicode_mode (chars text.now) span_offset) }
        ensures refused { IfErr result (λ fault. (fault ≡ Fault.OutOfMemory) ⊎
            ((fault ≡ Fault.Diagnostic (Diagnostic.InvalidInput (whole_span (chars text.now) span_offset)))
            × HasNoUnits self.now.options.standard_strings unicode_mode (chars text.now) self.now.form)) }
    {
        match self.decoded_reader(alloc, text, unicode_mode) {
            Ok(reader) => Ok(reader),
            Err(ReaderFault::OutOfMemory) => Err(Fault::OutOfMemory),
            Err(ReaderFault::String(_) | ReaderFault::Template(_)) => {
                let span = SpanFactory::new(span_offset).create(0, text.len() as u32);
                Err(Fault::Diagnostic(Diagnostic::InvalidInput { span }))
            }
        }
    }

    /// A reader of a text in the form of the input, or why a quoted text is not decoded: as the standard has it, or as the Rust crate does.
    #[inline(always)]
    fn decoded_reader(
        &self,
        alloc: Global,
        text: &'a str,
        unicode_mode: bool,
    ) -> Result<Reader<'a>, ReaderFault>
        requires { length text.now < 2 ^ 32 }
        ensures read { GivesUnits self.now.options.standard_strings unicode_mode (chars text.now) self.now.form result }
        ensures start { IfOk result (λ reader. reader.place ≡ 0) }
        ensures first { IfOk result (λ reader. reader.first ≡ first_offset self.now.form) }
        ensures text { IfOk result (λ reader. reader.text ≡ text.now) }
        ensures within { IfOk result (λ reader. All (λ unit. unit.span.end ≤ length text.now) reader.units) }
    {
        match self.form {
            Form::Literal => Reader::initialize(alloc, text, unicode_mode, false),
            Form::Constructor if self.options.standard_strings => {
                Reader::initialize_standard(alloc, text, unicode_mode)
            }
            Form::Constructor => Reader::initialize(alloc, text, unicode_mode, true),
        }
    }

    /// The text of the pattern, or what stands in for an empty one.
    fn text(&self) -> &'a str
        ensures text { chars result.now ≡ stand_in self.now.form (chars self.now.pattern_text.now) }
        ensures length { length result.now ≤ max (length self.now.pattern_text.now) (stand_in_length self.now.form) }
    {
        match self.form {
            Form::Literal => literal_text(self.pattern_text),
            Form::Constructor => quoted_text(self.pattern_text),
        }
    }
}

/// Whether it is a unicode mode, and whether it is sets mode.
fn mode_flags(mode: Mode) -> (bool, bool)
    ensures { mode_by result.0 result.1 ≡ mode }
{
    match mode {
        Mode::Legacy => (false, false),
        Mode::Unicode => (true, false),
        Mode::Sets => (true, true),
    }
}

/// The mode that a flags text asks for, where it is common: no flag, `u` alone or `v` alone; of an argument of `RegExp`, in double quotes. `None` does not mean
/// that the flags are wrong.
// Why: docs/DECISIONS.md, 128.
fn common_mode(form: Form, flags: &str) -> Option<Mode>
    ensures { IfSome result (λ mode. chars flags.now ≡ common_flags form mode) }
{
    match form {
        Form::Literal => match flags {
            "" => Some(Mode::Legacy),
            "u" => Some(Mode::Unicode),
            "v" => Some(Mode::Sets),
            _ => None,
        },
        Form::Constructor => match flags {
            "\"\"" => Some(Mode::Legacy),
            "\"u\"" => Some(Mode::Unicode),
            "\"v\"" => Some(Mode::Sets),
            _ => None,
        },
    }
}

/// The reader of a pattern's own units, or where it has none a reader of `"(?:)"` (EscapeRegExpPattern, ECMA-262, 22.2.6.13.1).
#[inline(always)]
fn some_reader<'a>(
    alloc: Global,
    own: Reader<'a>,
    unicode_mode: bool,
    span_offset: u32,
) -> Result<Reader<'a>, OutOfMemory>
    requires start { own.place ≡ 0 }
    requires fits { AreFitting span_offset own }

    // Only the value of a text in quotes may be empty.
    requires quoted { own.units ≡ [] → (own.first ≡ 1) × (span_offset + 6 < 2 ^ 32) }
    ensures units { IfOk result (λ reader. reader.units ≡ some_units own.entry.units) }
    ensures start { IfOk result (λ reader. reader.place ≡ 0) }
    ensures first { IfOk result (λ reader. reader.first ≡ own.entry.first) }
    ensures fits { IfOk result (AreFitting span_offset) }
{
    if own.peek().is_some() {
        return Ok(own);
    }
    match Reader::initialize(alloc, "\"(?:)\"", unicode_mode, true) {
        Ok(reader) => Ok(reader),
        Err(_) => Err(OutOfMemory),
    }
}

/// The text of a literal, or `(?:)` for an empty one.
fn literal_text(text: &str) -> &str
    ensures text { chars result.now ≡ literal_text (chars text.now) }
    ensures length { length result.now ≤ max (length text.now) 4 }
{
    match text {
        "" => "(?:)",
        _ => text,
    }
}

/// A text in quotes, or `"(?:)"` for two quotes of one kind.
fn quoted_text(text: &str) -> &str
    ensures text { chars result.now ≡ quoted_text (chars text.now) }
    ensures length { length result.now ≤ max (length text.now) 6 }
{
    match text {
        "\"\"" | "''" | "``" => "\"(?:)\"",
        _ => text,
    }
}
