use crate::tokens::tokens_of;
use rx_ast::{Alternative, Disjunction, Dot, IgnoreGroup, Modifier, Modifiers, Pattern, Term};
use rx_base::{List, OutOfMemory, Span};
use rx_rows::{Call, agree};
use std::alloc::Global;
use std::test::Fail;

/// The tokens of a pattern whose spans are given, each as in `1..4`: its own, and those of its disjunction, its alternative and the terms in it. A term is a
/// dot, or a group with modifiers: its own span, that of its modifiers in parentheses, and that of its empty body.
struct ByHand;

impl Call for ByHand {
    fn answer(&self, alloc: Global, asked: &str) -> Result<String, Fail> {
        tokens_of(alloc, &pattern_of(alloc, asked)?)
    }
}

/// The span of this number in a row.
fn span_at(row: &str, number: usize) -> Span {
    match row.as_bytes().chunks(5).nth(number) {
        Some([start, b'.', b'.', end, ..]) => Span {
            start: u32::from(start.wrapping_sub(b'0')),
            end: u32::from(end.wrapping_sub(b'0')),
        },
        _ => Span::empty(0),
    }
}

fn pattern_of(alloc: Global, row: &str) -> Result<Pattern, OutOfMemory> {
    let terms = if row.contains('(') {
        group_of(alloc, row)?
    } else {
        dots_of(alloc, row)?
    };
    let body = disjunction_of(alloc, span_at(row, 1), span_at(row, 2), terms)?;
    let span = span_at(row, 0);
    Ok(Pattern { span, body })
}

fn dots_of(alloc: Global, row: &str) -> Result<List<Term>, OutOfMemory> {
    let mut terms = List::new(alloc);
    for number in 3..row.len().div_ceil(5) {
        let span = span_at(row, number);
        terms.push(Term::Dot(Dot { span }))?;
    }
    Ok(terms)
}

fn group_of(alloc: Global, row: &str) -> Result<List<Term>, OutOfMemory> {
    let body = span_at(row, 5);
    let group = IgnoreGroup {
        span: span_at(row, 3),
        modifiers: Some(Modifiers {
            span: span_at(row, 4),
            enabling: Modifier::I,
            disabling: Modifier::empty(),
        }),
        body: disjunction_of(alloc, body, body, List::new(alloc))?,
    };
    let mut terms = List::new(alloc);
    terms.push(Term::IgnoreGroup(Box::new(alloc, group)?))?;
    Ok(terms)
}

/// A disjunction of one alternative with these terms.
fn disjunction_of(
    alloc: Global,
    span: Span,
    alternative: Span,
    terms: List<Term>,
) -> Result<Disjunction, OutOfMemory> {
    let mut body = List::new(alloc);
    body.push(Alternative {
        span: alternative,
        body: terms,
    })?;
    Ok(Disjunction { span, body })
}

#[test]
fn trees_by_hand(rt: HostRuntime) -> Result<(), Fail> {
    let rows = "0..5 1..4 1..3 2..3 => 0..1=other 1..2=other 2..3=dot 3..4=bar 4..5=other
7..9 7..9 7..9 7..8 8..9 => 7..8=dot 8..9=dot
0..2 0..2 0..2 0..0 0..2 2..2 => 0..2=dot
0..3 0..3 0..3 0..1 2..3 => 0..1=dot 1..2=other 2..3=dot
4..4 4..4 4..4 4..4 => 
0..3 1..2 1..2 1..2 => 0..1=other 1..2=dot 2..3=other
0..1 0..2 0..1 => not nested
1..3 0..3 1..3 => not nested
3..0 3..0 3..0 => not nested
0..3 0..3 0..3 0..2 1..3 => not nested
0..3 0..3 0..3 2..3 0..1 => not nested
0..3 0..3 0..3 2..1 => not nested
0..3 0..3 0..3 1..4 => not nested
1..3 1..3 1..3 0..2 => not nested
0..8 0..8 0..8 0..8(2..3)4..7 => 0..2=group 2..3=modifier 3..4=group 4..7=other 7..8=group
0..8 0..8 0..8 0..8(2..4)4..8 => 0..2=group 2..4=modifier 4..8=other
0..8 0..8 0..8 0..8(4..4)4..4 => 0..8=group
0..8 0..8 0..8 0..8(4..5)4..7 => not nested
0..8 0..8 0..8 0..8(7..8)4..7 => not nested
1..8 1..8 1..8 1..8(0..3)4..7 => not nested
0..8 0..8 0..8 0..8(3..2)4..7 => not nested
0..8 0..8 0..8 0..8(2..9)9..9 => not nested";
    agree(rt.alloc(), &ByHand, rows)
}
