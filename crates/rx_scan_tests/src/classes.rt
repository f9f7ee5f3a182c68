ghost use Rattle.std.specs.Prelude.{◌≡◌, ◌+◌, ◌<◌, ◌^◌, length};
ghost use Rattle.rx_class.specs.ClassReading.Answers.{HoldsFirstPass};
ghost use Rattle.rx_class.specs.Fitting.{AreFitting};

use rx_ast::{CharacterClass, CharacterClassContents};
use rx_base::{Fault, GetSpan, Steps};
use rx_class::parse_character_class;
use rx_rows::{Call, agree, refusal, short};
use rx_scan::{SpanFactory, State};
use rx_units::Reader;
use std::alloc::Global;
use std::marker::Brand;
use std::sync::ledger::{Blank, Ledger};
use std::test::Fail;

/// What stands where the text begins as a class, its spans 10 bytes on, and the offset where the reader is left.
fn class(alloc: Global, text: &str) -> Result<(Result<Option<CharacterClass>, Fault>, u32), Fail>
    requires { length text.now + 10 < 2 ^ 32 }
{
    let mut reader = Reader::initialize(alloc, text, true, false)?;
    let mut state = State::new(alloc, true, false, true);
    if state.initialize_with_parsing(&mut reader).is_err() {
        return Err(Fail::from("no first pass"));
    }
    if state.num_of_capturing_groups == u32::MAX {
        return Err(Fail::from("too many groups"));
    }
    let spans = SpanFactory::new(10);
    let found = counted_class::<Brand>(alloc, &mut reader, &state, &spans, Blank::new(1));
    Ok((found, reader.offset()))
}

/// Reads it with a counter that nobody reads.
fn counted_class<L: Ledger>(
    alloc: Global,
    reader: &mut Reader<'_>,
    state: &State,
    spans: &SpanFactory,
    blank: Blank,
) -> Result<Option<CharacterClass>, Fault>
    requires pass { HoldsFirstPass state.now reader.old.units }
    requires fits { AreFitting spans.now reader.old }
    requires name { blank.name ≡ L.name }
    requires parts { blank.parts ≡ L.parts }
    requires one { blank.parts ≡ 1 }
{
    parse_character_class(alloc, reader, state, spans, &mut Steps::<L>::new(blank))
}

/// Asked is a text.
struct ClassCall;

impl Call for ClassCall {
    fn answer(&self, alloc: Global, asked: &str) -> Result<String, Fail> {
        let (found, left) = class(alloc, short(asked)?)?;
        match found {
            Ok(Some(class)) => show_class(alloc, &class, left),
            Ok(None) => Ok(format!(in alloc; "none, left at {left}")?),
            Err(Fault::Diagnostic(cause)) => refusal(alloc, &cause),
            Err(fault) => Err(Fail::from(fault)),
        }
    }
}

/// Its span, whether it is negative, where the reader is left, and its items.
fn show_class(alloc: Global, class: &CharacterClass, left: u32) -> Result<String, Fail> {
    let (start, end) = (class.span.start, class.span.end);
    let mut shown = format!(in alloc; "{start}..{end} {} left at {left}", class.negative)?;
    for item in class.body.as_slice() {
        let (kind, span) = (kind_of_item(item), item.span());
        shown.push_str(&format!(in alloc; " {kind} {}..{}", span.start, span.end)?)?;
    }
    Ok(shown)
}

fn kind_of_item(item: &CharacterClassContents) -> &'static str {
    match item {
        CharacterClassContents::CharacterClassRange(_) => "range",
        CharacterClassContents::CharacterClassEscape(_) => "escape",
        CharacterClassContents::UnicodePropertyEscape(_) => "property",
        CharacterClassContents::Character(_) => "character",
        CharacterClassContents::NestedCharacterClass(_) => "class",
        CharacterClassContents::ClassStringDisjunction(_) => "strings",
    }
}

#[test]
fn classes(rt: HostRuntime) -> Result<(), Fail> {
    let rows = "[]a => 10..12 false left at 2
[^] => 10..13 true left at 3
[a] => 10..13 false left at 3 character 11..12
[a-z] => 10..15 false left at 5 range 11..14
[^a-c-] => 10..17 true left at 7 range 12..15 character 15..16
[-é] => 10..15 false left at 5 character 11..12 character 12..14
[\\d-] => 10..15 false left at 5 escape 11..13 character 13..14
[\\b\\-] => 10..16 false left at 6 character 11..13 character 13..15
[--0\\P{L}] => 10..20 false left at 10 range 11..14 property 14..19
[\\--/] => 10..16 false left at 6 range 11..15
a => none, left at 0
] => none, left at 0
\\[ => none, left at 0
^ => none, left at 0
[ => unterminated_pattern 10..11
[^ => unterminated_pattern 10..12
[a- => unterminated_pattern 10..13
[a-z => unterminated_pattern 10..14
[z-a] => character_class_range_out_of_order 12..14
[a--] => character_class_range_dash_not_subtraction 12..14
[\\d-a] => character_class_range_invalid_atom 11..15
[a-\\d] => character_class_range_invalid_atom 11..15
[\\p{L}-a] => character_class_range_invalid_atom 11..18
[\\B] => invalid_class_atom 11..12
[\\ => invalid_class_atom 11..12
[a-\\c] => invalid_class_atom 13..14
[\\u] => invalid_unicode_escape_sequence 12..13
[\\u{0100000000}] => too_large_number_digits 14..23
[\\p{Foo}] => invalid_unicode_property 14..17
[\\p{RGI_Emoji}] => invalid_unicode_property_of_strings 14..23
[\\p{L => unterminated_pattern 11..15";
    agree(rt.alloc(), &ClassCall, rows)
}
