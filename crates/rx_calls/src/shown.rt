//! How answers are shown.
use crate::outcome::Outcome;
use rx_ast::{Alternative, Pattern, Term};
use rx_base::{Fault, GetSpan, Span};
use rx_rows::refusal;
use rx_scan::State;
use rx_units::CodePoint;
use std::alloc::{AllocError, Global};
use std::test::Fail;

/// The name of a refusal, with its spans; or out of memory.
pub fn refused(alloc: Global, fault: Fault) -> Result<Outcome, Fail> {
    let Fault::Diagnostic(cause) = fault else {
        return Ok(Outcome::OutOfMemory);
    };
    let mut shown = refusal(alloc, &cause)?;
    if let Some(Span { start, end }) = cause.second_span() {
        shown.push_str(&format!(in alloc; " {start}..{end}")?)?;
    }
    Ok(Outcome::Answer(shown))
}

/// The span of a pattern; and for each alternative a bar, and its terms.
pub fn tree(alloc: Global, pattern: &Pattern) -> Result<String, AllocError> {
    let Span { start, end } = pattern.span;
    let mut shown = format!(in alloc; "{start}..{end}")?;
    for alternative in pattern.body.body.as_slice() {
        shown.push_str(" |")?;
        shown.push_str(&terms(alloc, alternative)?)?;
    }
    Ok(shown)
}

/// The span of each term, and of a character its kind and its value.
fn terms(alloc: Global, alternative: &Alternative) -> Result<String, AllocError> {
    let mut shown = String::new(alloc);
    for term in alternative.body.as_slice() {
        let Span { start, end } = term.span();
        let text = match term {
            Term::Character(it) => {
                format!(in alloc; " {start}..{end} {:?} {:X}", it.kind, it.value)?
            }
            _ => format!(in alloc; " {start}..{end}")?,
        };
        shown.push_str(&text)?;
    }
    Ok(shown)
}

/// The value and the span of each unit.
pub fn units(alloc: Global, units: &[CodePoint]) -> Result<String, AllocError> {
    let mut shown = String::new(alloc);
    for unit in units {
        let separator = if shown.is_empty() { "" } else { " " };
        let Span { start, end } = unit.span;
        shown.push_str(&format!(in alloc; "{separator}{:X}@{start}..{end}", unit.value)?)?;
    }
    Ok(shown)
}

/// How many groups capture, whether `\k` is a reference, and the names.
pub fn groups(alloc: Global, state: &State) -> Result<String, AllocError> {
    let (count, named) = (state.num_of_capturing_groups, state.named_capture_groups);
    let mut shown = format!(in alloc; "{count} {named}")?;
    for name in state.capturing_group_names.as_slice() {
        shown.push_str(" ")?;
        shown.push_str(name.as_str())?;
    }
    Ok(shown)
}
