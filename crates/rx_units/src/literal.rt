ghost use Rattle.std.specs.Prelude.{◌≡◌, ◌+◌, ◌<◌, ◌≤◌, ◌^◌, ◌++◌, length, OnOk, OnErr, IfOk};
ghost use Rattle.std.specs.Char.{len_utf8};
ghost use Rattle.std.specs.Str.{chars};
ghost use Rattle.rx_units.specs.Units.{character_units, lead_of, literal_units, trail_of};

use crate::{CodePoint, EscapeKind};
use rx_base::{List, OutOfMemory, Span};
use std::alloc::Global;

const FIRST_LEAD: u32 = 0xD800;

const FIRST_TRAIL: u32 = 0xDC00;

/// Adds a code point, given by its start and its end in bytes, without the offset, its value and how it was escaped: one unit,
/// or, where pairs are not combined, a lead and a trail that share the span. After an error the list is as before.
pub fn handle_code_point(
    body: &mut List<CodePoint>,
    code_point: ((u32, u32), u32, EscapeKind),
    span_offset: u32,
    combine_surrogate_pair: bool,
) -> Result<(), OutOfMemory>
    requires value { code_point.1 ≤ 0x10ffff }
    requires order { code_point.0.0 ≤ code_point.0.1 }
    requires offset { span_offset + code_point.0.1 < 2 ^ 32 }
    ensures ok { OnOk result (body.new ≡ body.old ++ character_units combine_surrogate_pair
        (span_offset + code_point.0.0) (span_offset + code_point.0.1) code_point.1 code_point.2) }
    ensures err { OnErr result (body.new ≡ body.old) }
{
    let (bounds, value, escape_kind) = code_point;
    let span = Span::new(span_offset + bounds.0, span_offset + bounds.1);
    if combine_surrogate_pair || value < 0x10000 {
        return body.push(CodePoint {
            span,
            value,
            escape_kind,
        });
    }
    let (lead, trail) = code_units_of(value);
    body.push(CodePoint {
        span,
        value: lead,
        escape_kind,
    })?;
    let trail = CodePoint {
        span,
        value: trail,
        escape_kind,
    };
    match body.push(trail) {
        Ok(()) => Ok(()),
        Err(refused) => {
            let _ = body.pop();
            Err(refused)
        }
    }
}

/// The lead and the trail of a code point past FFFF (UTF16EncodeCodePoint of ECMA-262, 11.1.1).
fn code_units_of(code_point: u32) -> (u32, u32)
    requires past { 0x10000 ≤ code_point }
    requires last { code_point ≤ 0x10ffff }
    ensures lead { result.0 ≡ lead_of code_point }
    ensures trail { result.1 ≡ trail_of code_point }
{
    let past = code_point - 0x10000;
    (FIRST_LEAD + past / 0x400, FIRST_TRAIL + past % 0x400)
}

/// The units of a literal: its code points, or, where pairs are not combined, its code units (Pattern source text of ECMA-262, 22.2.3.4).
pub fn parse_regexp_literal(
    alloc: Global,
    source_text: &str,
    span_offset: u32,
    combine_surrogate_pair: bool,
) -> Result<List<CodePoint>, OutOfMemory>
    requires { span_offset + length source_text.now < 2 ^ 32 }
    ensures { IfOk result (λ body. body ≡ literal_units combine_surrogate_pair span_offset (chars source_text.now)) }
{
    // A text has no more units than bytes.
    let mut body = List::with_capacity(alloc, source_text.len())?;
    let mut at = 0;
    for c in source_text.chars() {
        let end = at + width(c);
        let code_point = ((at, end), c as u32, EscapeKind::None);
        handle_code_point(&mut body, code_point, span_offset, combine_surrogate_pair)?;
        at = end;
    }
    Ok(body)
}

/// How many bytes a character takes. Most take one.
#[inline(always)]
fn width(c: char) -> u32
    ensures { result ≡ len_utf8 c }
{
    if c.is_ascii() { 1 } else { c.len_utf8() as u32 }
}
