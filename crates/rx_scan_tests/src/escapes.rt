ghost use Rattle.std.specs.Prelude.{◌≡◌, ◌+◌, ◌<◌, ◌^◌, IfOk, length};
ghost use Rattle.rx_class.specs.EscapeReading.Answers.{IsAfterBackslash};
ghost use Rattle.rx_class.specs.Fitting.{AreFitting};

use rx_ast::{Character, CharacterClassEscape, UnicodePropertyEscape};
use rx_base::{Diagnostic, Fault, Steps};
use rx_class::{
    parse_character_class_escape, parse_character_class_escape_unicode, parse_character_escape,
};
use rx_rows::{Call, agree, short};
use rx_scan::{SpanFactory, State};
use rx_units::Reader;
use std::alloc::Global;
use std::marker::Brand;
use std::sync::ledger::{Blank, Ledger};
use std::test::Fail;

/// A reader after the backslash that the text begins with. Its spans fit.
fn after_backslash<'a>(
    alloc: Global,
    text: &'a str,
    unicode_mode: bool,
    spans: &SpanFactory,
) -> Result<Reader<'a>, Fail>
    requires { spans.now + length text.now < 2 ^ 32 }
    ensures backslash { IfOk result (λ reader. IsAfterBackslash reader 0) }
    ensures fits { IfOk result (λ reader. AreFitting spans.now reader) }
{
    let mut reader = Reader::initialize(alloc, text, unicode_mode, false)?;
    if !reader.eat('\\') {
        return Err(Fail::from("no backslash"));
    }
    Ok(reader)
}

/// What stands after the backslash that the text begins with, its spans 10 bytes on.
fn character(alloc: Global, text: &str) -> Result<Result<Option<Character>, Diagnostic>, Fail>
    requires { length text.now + 10 < 2 ^ 32 }
{
    let state = State::new(alloc, true, false, true);
    let spans = SpanFactory::new(10);
    let mut reader = after_backslash(alloc, text, true, &spans)?;
    Ok(counted_character::<Brand>(&mut reader, &state, &spans, Blank::new(1)))
}

/// Reads it with a counter that nobody reads.
fn counted_character<L: Ledger>(
    reader: &mut Reader<'_>,
    state: &State,
    spans: &SpanFactory,
    blank: Blank,
) -> Result<Option<Character>, Diagnostic>
    requires reader { IsAfterBackslash reader.old 0 × AreFitting spans.now reader.old }
    requires name { blank.name ≡ L.name }
    requires parts { blank.parts ≡ L.parts }
    requires one { blank.parts ≡ 1 }
{
    parse_character_escape(reader, state, spans, 0, &mut Steps::<L>::new(blank))
}

struct CharacterCall;

impl Call for CharacterCall {
    fn answer(&self, alloc: Global, asked: &str) -> Result<String, Fail> {
        let found = character(alloc, short(asked)?)?;
        Ok(format!(in alloc; "{found:?}")?)
    }
}

#[test]
fn characters(rt: HostRuntime) -> Result<(), Fail> {
    let rows =
        "\\f => Ok(Some(Character { span: Span { start: 10, end: 12 }, kind: SingleEscape, value: 12 }))
\\n => Ok(Some(Character { span: Span { start: 10, end: 12 }, kind: SingleEscape, value: 10 }))
\\r => Ok(Some(Character { span: Span { start: 10, end: 12 }, kind: SingleEscape, value: 13 }))
\\t => Ok(Some(Character { span: Span { start: 10, end: 12 }, kind: SingleEscape, value: 9 }))
\\v => Ok(Some(Character { span: Span { start: 10, end: 12 }, kind: SingleEscape, value: 11 }))
\\cA => Ok(Some(Character { span: Span { start: 10, end: 13 }, kind: ControlLetter, value: 1 }))
\\cz => Ok(Some(Character { span: Span { start: 10, end: 13 }, kind: ControlLetter, value: 26 }))
\\0 => Ok(Some(Character { span: Span { start: 10, end: 12 }, kind: Null, value: 0 }))
\\0a => Ok(Some(Character { span: Span { start: 10, end: 12 }, kind: Null, value: 0 }))
\\x41 => Ok(Some(Character { span: Span { start: 10, end: 14 }, kind: HexadecimalEscape, value: 65 }))
\\xfF1 => Ok(Some(Character { span: Span { start: 10, end: 14 }, kind: HexadecimalEscape, value: 255 }))
\\u00411 => Ok(Some(Character { span: Span { start: 10, end: 16 }, kind: UnicodeEscape, value: 65 }))
\\uD83D\\uDE00 => Ok(Some(Character { span: Span { start: 10, end: 22 }, kind: UnicodeEscape, value: 128512 }))
\\uD83D\\u0041 => Ok(Some(Character { span: Span { start: 10, end: 16 }, kind: UnicodeEscape, value: 55357 }))
\\u{10FFFF} => Ok(Some(Character { span: Span { start: 10, end: 20 }, kind: UnicodeEscape, value: 1114111 }))
\\/ => Ok(Some(Character { span: Span { start: 10, end: 12 }, kind: Identifier, value: 47 }))
\\$ => Ok(Some(Character { span: Span { start: 10, end: 12 }, kind: Identifier, value: 36 }))
\\\\ => Ok(Some(Character { span: Span { start: 10, end: 12 }, kind: Identifier, value: 92 }))
\\ => Ok(None)
\\a => Ok(None)
\\c1 => Ok(None)
\\00 => Ok(None)
\\1 => Ok(None)
\\x4 => Ok(None)
\\- => Ok(None)
\\é => Ok(None)
\\u => Err(InvalidUnicodeEscapeSequence { span: Span { start: 11, end: 12 } })
\\u004 => Err(InvalidUnicodeEscapeSequence { span: Span { start: 11, end: 12 } })
\\u{} => Err(InvalidUnicodeEscapeSequence { span: Span { start: 11, end: 12 } })
\\u{110000} => Err(InvalidUnicodeEscapeSequence { span: Span { start: 11, end: 12 } })
\\u{0100000000} => Err(TooLargeNumberDigits { span: Span { start: 13, end: 22 }, what: Hex })";
    agree(rt.alloc(), &CharacterCall, rows)
}

/// The same of class escapes.
fn class_escape(alloc: Global, text: &str) -> Result<Option<CharacterClassEscape>, Fail>
    requires { length text.now + 10 < 2 ^ 32 }
{
    let spans = SpanFactory::new(10);
    let mut reader = after_backslash(alloc, text, true, &spans)?;
    Ok(counted_class_escape::<Brand>(&mut reader, &spans, Blank::new(1)))
}

fn counted_class_escape<L: Ledger>(
    reader: &mut Reader<'_>,
    spans: &SpanFactory,
    blank: Blank,
) -> Option<CharacterClassEscape>
    requires reader { IsAfterBackslash reader.old 0 × AreFitting spans.now reader.old }
    requires name { blank.name ≡ L.name }
    requires parts { blank.parts ≡ L.parts }
    requires one { blank.parts ≡ 1 }
{
    parse_character_class_escape(reader, spans, 0, &mut Steps::<L>::new(blank))
}

struct ClassEscapeCall;

impl Call for ClassEscapeCall {
    fn answer(&self, alloc: Global, asked: &str) -> Result<String, Fail> {
        let found = match class_escape(alloc, short(asked)?)? {
            Some(it) => Some((it.kind, it.span)),
            None => None,
        };
        Ok(format!(in alloc; "{found:?}")?)
    }
}

#[test]
fn class_escapes(rt: HostRuntime) -> Result<(), Fail> {
    let rows = "\\d => Some((D, Span { start: 10, end: 12 }))
\\D => Some((NegativeD, Span { start: 10, end: 12 }))
\\s => Some((S, Span { start: 10, end: 12 }))
\\S => Some((NegativeS, Span { start: 10, end: 12 }))
\\w => Some((W, Span { start: 10, end: 12 }))
\\Wa => Some((NegativeW, Span { start: 10, end: 12 }))
\\b => None";
    agree(rt.alloc(), &ClassEscapeCall, rows)
}

/// The property escape that the text begins with, by its mode.
fn property(
    alloc: Global,
    text: &str,
    unicode_mode: bool,
) -> Result<Result<Option<UnicodePropertyEscape>, Fault>, Fail>
    requires { length text.now < 2 ^ 32 }
{
    let state = State::new(alloc, unicode_mode, false, true);
    let spans = SpanFactory::new(0);
    let mut reader = after_backslash(alloc, text, unicode_mode, &spans)?;
    Ok(counted_property::<Brand>(alloc, &mut reader, &state, &spans, Blank::new(1)))
}

fn counted_property<L: Ledger>(
    alloc: Global,
    reader: &mut Reader<'_>,
    state: &State,
    spans: &SpanFactory,
    blank: Blank,
) -> Result<Option<UnicodePropertyEscape>, Fault>
    requires reader { IsAfterBackslash reader.old 0 × AreFitting spans.now reader.old }
    requires name { blank.name ≡ L.name }
    requires parts { blank.parts ≡ L.parts }
    requires one { blank.parts ≡ 1 }
{
    parse_character_class_escape_unicode(
        alloc,
        reader,
        state,
        spans,
        0,
        &mut Steps::<L>::new(blank),
    )
}

/// Property escapes with or without `u`: whether one is negative, and one of strings, its name, its value and its span.
struct PropertyCall {
    unicode_mode: bool,
}

const WITH_U: PropertyCall = PropertyCall { unicode_mode: true };

const WITHOUT_U: PropertyCall = PropertyCall {
    unicode_mode: false,
};

impl Call for PropertyCall {
    fn answer(&self, alloc: Global, asked: &str) -> Result<String, Fail> {
        match property(alloc, short(asked)?, self.unicode_mode)? {
            Ok(Some(it)) => show_property(alloc, &it),
            Ok(None) => Ok(String::from_str(alloc, "none")?),
            Err(fault) => Ok(format!(in alloc; "{fault:?}")?),
        }
    }
}

fn show_property(alloc: Global, it: &UnicodePropertyEscape) -> Result<String, Fail> {
    let parts = (it.negative, it.strings, &it.name, &it.value, it.span);
    Ok(format!(in alloc; "{parts:?}")?)
}

#[test]
fn properties(rt: HostRuntime) -> Result<(), Fail> {
    let rows =
        "\\p{L} => (false, false, Text { inner: \"General_Category\" }, Some(Text { inner: \"L\" }), Span { start: 0, end: 5 })
\\P{Lu} => (true, false, Text { inner: \"General_Category\" }, Some(Text { inner: \"Lu\" }), Span { start: 0, end: 6 })
\\p{gc=L}} => (false, false, Text { inner: \"gc\" }, Some(Text { inner: \"L\" }), Span { start: 0, end: 8 })
\\p{Script=Greek} => (false, false, Text { inner: \"Script\" }, Some(Text { inner: \"Greek\" }), Span { start: 0, end: 16 })
\\p{Any}a => (false, false, Text { inner: \"Any\" }, None, Span { start: 0, end: 7 })
\\ => none
\\d => none
\\p => Diagnostic(UnterminatedPattern { span: Span { start: 0, end: 2 }, what: PropertyEscape })
\\pL => Diagnostic(UnterminatedPattern { span: Span { start: 0, end: 2 }, what: PropertyEscape })
\\p{ => Diagnostic(UnterminatedPattern { span: Span { start: 0, end: 3 }, what: PropertyEscape })
\\p{} => Diagnostic(UnterminatedPattern { span: Span { start: 0, end: 3 }, what: PropertyEscape })
\\p{L => Diagnostic(UnterminatedPattern { span: Span { start: 0, end: 4 }, what: PropertyEscape })
\\p{L=} => Diagnostic(UnterminatedPattern { span: Span { start: 0, end: 4 }, what: PropertyEscape })
\\p{gc=L, => Diagnostic(UnterminatedPattern { span: Span { start: 0, end: 7 }, what: PropertyEscape })
\\p{sc=} => Diagnostic(InvalidUnicodeProperty { span: Span { start: 3, end: 5 }, what: NameOrValue })
\\p{sc=Foo} => Diagnostic(InvalidUnicodeProperty { span: Span { start: 6, end: 9 }, what: Name })
\\p{Foo} => Diagnostic(InvalidUnicodeProperty { span: Span { start: 3, end: 6 }, what: NameOrValue })
\\p{RGI_Emoji} => Diagnostic(InvalidUnicodePropertyOfStrings { span: Span { start: 3, end: 12 }, name: Text { inner: \"RGI_Emoji\" } })";
    agree(rt.alloc(), &WITH_U, rows)?;
    agree(rt.alloc(), &WITHOUT_U, "\\p{L} => none")
}
