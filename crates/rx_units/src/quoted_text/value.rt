ghost use Rattle.std.specs.Prelude.{◌≡◌, ◌≤◌, ◌<◌, ◌∷◌, [], ◌++◌, ◌&&◌, true, length, IfOk, IfSome, MatchOption, OnOk, OnErr};
ghost use Rattle.rx_base.specs.Characters.{is_lead, is_trail};
ghost use Rattle.rx_units.specs.Quoted.Values.{code_points, element_units, given_value, kind_of, pair, text_units};

use crate::quoted_text::{Element, Writing};
use crate::{CR, CodePoint, EscapeKind, LF, Options, handle_code_point};
use rx_base::{
    List, OutOfMemory, Span, combine_surrogate_pair, is_lead_surrogate, is_trail_surrogate,
};
use std::alloc::Global;

/// Adds the units that an element gives, which stands in the bytes between the bounds. After an error the list is as before.
// Why: docs/DECISIONS.md, 69.
pub(crate) fn push_element(
    units: &mut List<CodePoint>,
    element: Element,
    bounds: (u32, u32),
    options: Options,
) -> Result<(), OutOfMemory>
    requires value { element.value ≤ 0x10FFFF }
    requires order { bounds.0 ≤ bounds.1 }
    ensures ok { OnOk result (units.new ≡ units.old ++ element_units options bounds.0 bounds.1 element) }
    ensures err { OnErr result (units.new ≡ units.old) }
{
    match given_value(element, options.standard_strings) {
        None => Ok(()),
        Some(value) => {
            let code_point = (bounds, value, escape_kind(element.writing));
            handle_code_point(units, code_point, 0, options.combine_surrogate_pair)
        }
    }
}

/// The value that an element gives, if any (SV and TV of ECMA-262, 12.9.4.2 and 12.9.6.1).
fn given_value(element: Element, standard_strings: bool) -> Option<u32>
    requires { element.value ≤ 0x10FFFF }
    ensures value { result ≡ given_value standard_strings element.writing element.value }
    ensures small { IfSome result (λ value. value ≤ 0x10FFFF) }
{
    match element.writing {
        Writing::LineContinuation if standard_strings => None,
        Writing::LineTerminator if standard_strings && element.value == CR as u32 => Some(
            LF as u32,
        ),
        _ => Some(element.value),
    }
}

fn escape_kind(writing: Writing) -> EscapeKind
    ensures { result ≡ kind_of writing }
{
    match writing {
        Writing::Hexadecimal => EscapeKind::Hexadecimal,
        Writing::Unicode => EscapeKind::Unicode,
        _ => EscapeKind::None,
    }
}

/// The units of a text by what its elements give.
// Why: docs/DECISIONS.md, 47.
pub(crate) fn text_units(
    alloc: Global,
    units: List<CodePoint>,
    options: Options,
) -> Result<List<CodePoint>, OutOfMemory>
    ensures { IfOk result (λ body. body ≡ text_units options units) }
{
    if options.standard_strings && options.combine_surrogate_pair {
        code_points(alloc, units.as_slice())
    } else {
        Ok(units)
    }
}

/// The code points of code units (StringToCodePoints of ECMA-262, 11.1.5).
// Why: docs/DECISIONS.md, 68.
fn code_points(alloc: Global, units: &[CodePoint]) -> Result<List<CodePoint>, OutOfMemory>
    ensures { IfOk result (λ body. body ≡ code_points units.now) }
{
    let mut body = List::with_capacity(alloc, units.len())?;
    let mut rest = units;
    while let Some((unit, after)) = next_code_point(rest) {
        body.push(unit)?;
        rest = after;
    }
    Ok(body)
}

/// The code point that stands first (CodePointAt of ECMA-262, 11.1.4), and the units after it.
fn next_code_point(units: &[CodePoint]) -> Option<(CodePoint, &[CodePoint])>
    ensures next { MatchOption result (units.now ≡ []) (λ next. code_points units.now ≡ next.0 ∷ code_points next.1.now) }
    ensures smaller { IfSome result (λ next. length next.1.now < length units.now) }
{
    match units {
        [lead, trail, after @ ..] if are_pair(*lead, *trail) => Some((pair(*lead, *trail), after)),
        [unit, after @ ..] => Some((*unit, after)),
        [] => None,
    }
}

fn are_pair(lead: CodePoint, trail: CodePoint) -> bool
    ensures { result ≡ (is_lead lead.value && is_trail trail.value) }
{
    is_lead_surrogate(lead.value) && is_trail_surrogate(trail.value)
}

/// A lead and a trail as one unit.
fn pair(lead: CodePoint, trail: CodePoint) -> CodePoint
    requires { (is_lead lead.value && is_trail trail.value) ≡ true }
    ensures { result ≡ pair lead trail }
{
    CodePoint {
        span: Span::new(lead.span.start, trail.span.end),
        value: combine_surrogate_pair(lead.value, trail.value),
        escape_kind: lead.escape_kind,
    }
}
