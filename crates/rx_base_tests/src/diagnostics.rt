//! What those diagnostics tell that no pattern gets. What all others tell is compared by `.ci/json`, with the table of docs/REFUSALS.md.

use rx_base::{Diagnostic, Span, Text};
use rx_rows::{Call, agree};
use std::alloc::{AllocError, Global};
use std::test::Fail;

/// Asked is what is refused: a flag by its number in hexadecimal, too many groups, or a property by its name. The answer has the name, the spans, and the
/// message after what all messages begin with.
struct Refusals;

impl Call for Refusals {
    fn answer(&self, alloc: Global, asked: &str) -> Result<String, Fail> {
        Ok(answer(alloc, asked).ok_or(asked)?)
    }
}

fn answer(alloc: Global, asked: &str) -> Option<String> {
    let (what, by) = asked.split_once(' ')?;
    let refusal = refusal_of(alloc, what, by)?;
    told(alloc, &refusal).ok()
}

fn refusal_of(alloc: Global, what: &str, by: &str) -> Option<Diagnostic> {
    let span = Span { start: 3, end: 7 };
    match what {
        "unknown" => Some(Diagnostic::UnknownFlag {
            span,
            flag: u32::from_str_radix(by, 16).ok()?,
        }),
        "twice" => Some(Diagnostic::DuplicatedFlags {
            span,
            flag: u32::from_str_radix(by, 16).ok()?,
        }),
        "many" => Some(Diagnostic::TooMayCapturingGroups { span }),
        "negative" => Some(Diagnostic::InvalidUnicodePropertyNameNegativeStrings {
            span,
            name: Text::from_str(alloc, by).ok()?,
        }),
        "strings" => Some(Diagnostic::InvalidUnicodePropertyOfStrings {
            span,
            name: Text::from_str(alloc, by).ok()?,
        }),
        _ => None,
    }
}

fn told(alloc: Global, refusal: &Diagnostic) -> Result<String, AllocError> {
    let (name, Span { start, end }) = (refusal.name(), refusal.first_span());
    let second = refusal.second_span();
    format!(in alloc; "{name} {start}..{end} {second:?}: {refusal}")
}

#[test]
fn refusals_of_no_pattern(rt: HostRuntime) -> Result<(), Fail> {
    let rows =
        "unknown 78 => unknown_flag 3..7 None: Invalid regular expression: Unknown flag: `x` found
unknown 1F600 => unknown_flag 3..7 None: Invalid regular expression: Unknown flag: `\u{1F600}` found
unknown D7FF => unknown_flag 3..7 None: Invalid regular expression: Unknown flag: `\u{D7FF}` found
unknown D800 => unknown_flag 3..7 None: Invalid regular expression: Unknown flag: `\\u{D800}` found
unknown DFFF => unknown_flag 3..7 None: Invalid regular expression: Unknown flag: `\\u{DFFF}` found
unknown E000 => unknown_flag 3..7 None: Invalid regular expression: Unknown flag: `\u{E000}` found
unknown 10FFFF => unknown_flag 3..7 None: Invalid regular expression: Unknown flag: `\u{10FFFF}` found
unknown 110000 => unknown_flag 3..7 None: Invalid regular expression: Unknown flag: `\\u{110000}` found
twice FFFFFFFF => duplicated_flags 3..7 None: Invalid regular expression: Duplicated flag: `\\u{FFFFFFFF}` found
many groups => too_may_capturing_groups 3..7 None: Invalid regular expression: Too many capturing groups
negative Basic_Emoji => invalid_unicode_property_name_negative_strings 3..7 None: Invalid regular expression: Property name `Basic_Emoji` is not allowed here
strings RGI_\u{e9}moji => invalid_unicode_property_of_strings 3..7 None: Invalid regular expression: Invalid unicode property `RGI_\u{e9}moji`";
    agree(rt.alloc(), &Refusals, rows)
}
