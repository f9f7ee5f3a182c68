//! Patterns as texts.
use rx_ast::{Alternative, CapturingGroup, Modifiers, Pattern, Quantifier, Term};
use rx_base::{Fault, GetSpan};
use std::fmt;

/// A pattern that was read, or why none was.
#[derive(Clone, Copy)]
pub struct Read<'a>(pub &'a Result<Pattern, Fault>);

impl fmt::Display for Read<'_> {
    fn fmt<W: fmt::Write>(&self, f: &mut fmt::Formatter<W>) -> fmt::Result {
        match self.0 {
            Ok(pattern) => write_pattern(f, pattern),
            Err(fault) => write!(f, "{fault:?}"),
        }
    }
}

/// Writes the span of a pattern and how many alternatives it has; and for each of the first four a bar, its span, and the last four of its terms.
pub fn write_pattern<W: fmt::Write>(f: &mut fmt::Formatter<W>, pattern: &Pattern) -> fmt::Result {
    let (span, alternatives) = (pattern.span, pattern.body.body.as_slice());
    let count = alternatives.len();
    write!(f, "{}..{} {count}", span.start, span.end)?;
    for alternative in &alternatives[..count.min(4)] {
        write_alternative(f, alternative)?;
    }
    Ok(())
}

fn write_alternative<W: fmt::Write>(
    f: &mut fmt::Formatter<W>,
    alternative: &Alternative,
) -> fmt::Result {
    let (span, terms) = (alternative.span, alternative.body.as_slice());
    write!(f, " | {}..{}", span.start, span.end)?;
    for term in &terms[terms.len().saturating_sub(4)..] {
        write_term(f, term)?;
    }
    Ok(())
}

/// Writes the span of a term and what else it holds, but for the terms in it.
fn write_term<W: fmt::Write>(f: &mut fmt::Formatter<W>, term: &Term) -> fmt::Result {
    let span = term.span();
    write!(f, " {}..{}", span.start, span.end)?;
    match term {
        Term::CapturingGroup(it) => write_group(f, it),
        Term::IgnoreGroup(it) => write_modifiers(f, &it.modifiers),
        Term::Quantifier(it) => write_quantifier(f, it),
        Term::IndexedReference(it) => write!(f, " reference {};", it.index),
        Term::NamedReference(it) => write!(f, " reference {};", it.name.as_str()),
        Term::Character(it) => write!(f, " {:?} {:x};", it.kind, it.value),
        Term::Dot(_) => f.write_str(" dot;"),
        _ => f.write_str(" other;"),
    }
}

/// Writes the name of a group, the span of what is in it, and how many alternatives that has.
fn write_group<W: fmt::Write>(f: &mut fmt::Formatter<W>, group: &CapturingGroup) -> fmt::Result {
    let name = group.name.as_ref().map_or("", |name| name.as_str());
    let (span, alternatives) = (group.body.span, group.body.body.len());
    write!(f, " {name} {}..{} {alternatives};", span.start, span.end)
}

/// Writes the span of modifiers, and the bits of those that are enabled and of those that are disabled.
fn write_modifiers<W: fmt::Write>(
    f: &mut fmt::Formatter<W>,
    modifiers: &Option<Modifiers>,
) -> fmt::Result {
    match modifiers {
        Some(it) => write!(
            f,
            " {}..{} {} {};",
            it.span.start,
            it.span.end,
            it.enabling.bits(),
            it.disabling.bits()
        ),
        None => f.write_str(";"),
    }
}

/// Writes the numbers of a quantifier, whether it is greedy, and the span of its body; where that is a group, what else the group holds.
fn write_quantifier<W: fmt::Write>(f: &mut fmt::Formatter<W>, it: &Quantifier) -> fmt::Result {
    let body = it.body.span();
    write!(
        f,
        " {} {:?} {} of {}..{}",
        it.min, it.max, it.greedy, body.start, body.end
    )?;
    match &it.body {
        Term::CapturingGroup(group) => write_group(f, group),
        _ => f.write_str(";"),
    }
}
