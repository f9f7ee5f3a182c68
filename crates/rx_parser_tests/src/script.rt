//! What a builder is told, as a text of signs, each of which stands for what is read of a pattern at once.
use rx_ast::{BoundaryAssertion, BoundaryAssertionKind, Dot, LookAroundAssertionKind, Term};
use rx_base::{List, OutOfMemory, Span, Text};
use rx_parser::{Builder, GroupKind};
use std::alloc::Global;

/// Gives the builder each sign, from a byte on. The answer has the byte of each sign that is not taken, and the byte where the script ends.
pub fn follow(
    alloc: Global,
    builder: &mut Builder,
    script: &str,
    start: u32,
) -> Result<(List<u32>, u32), OutOfMemory> {
    let mut refused = List::new(alloc);
    let mut at = start;
    for sign in script.chars() {
        let after = at.saturating_add(width(sign));
        if !step(alloc, builder, sign, at, after)? {
            refused.push(at)?;
        }
        at = after;
    }
    Ok((refused, at))
}

/// How many bytes a sign stands for: `N` for `(?<n>`, `q` for `{2,3}?`, and so on.
fn width(sign: char) -> u32 {
    match sign {
        'N' => 5,
        'q' => 6,
        '=' | '!' => 3,
        '<' | '>' => 4,
        _ => 1,
    }
}

/// Whether a sign is taken: a closer, a quantifier, or another, which always is.
fn step(
    alloc: Global,
    builder: &mut Builder,
    sign: char,
    at: u32,
    after: u32,
) -> Result<bool, OutOfMemory> {
    match sign {
        ')' => builder.close(alloc, at, after),
        '*' => builder.quantify((0, None), true, after),
        'q' => builder.quantify((2, Some(3)), false, after),
        _ => begin(alloc, builder, sign, at, after).and(Ok(true)),
    }
}

/// A bar, a leaf, or an opener.
fn begin(
    alloc: Global,
    builder: &mut Builder,
    sign: char,
    at: u32,
    after: u32,
) -> Result<(), OutOfMemory> {
    let span = Span::new(at, after);
    let group_kind = match sign {
        '|' => return builder.bar(alloc, at, after),
        '.' => return builder.leaf(Term::Dot(Dot { span })),
        '^' => return builder.leaf(start_of(span)),
        'N' => GroupKind::Capturing(Some(Text::from_str(alloc, "n")?)),
        '=' => GroupKind::LookAround(LookAroundAssertionKind::Lookahead),
        '!' => GroupKind::LookAround(LookAroundAssertionKind::NegativeLookahead),
        '<' => GroupKind::LookAround(LookAroundAssertionKind::Lookbehind),
        '>' => GroupKind::LookAround(LookAroundAssertionKind::NegativeLookbehind),
        _ => GroupKind::Ignoring(None),
    };
    builder.open(alloc, group_kind, at, after)
}

fn start_of(span: Span) -> Term {
    Term::BoundaryAssertion(BoundaryAssertion {
        span,
        kind: BoundaryAssertionKind::Start,
    })
}
