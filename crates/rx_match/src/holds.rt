ghost use Rattle.std.specs.Prelude.{◌≡◌, ◌==◌, ◌≤◌, ◌<◌, ◌-◌, false, length, take, drop};
ghost use Rattle.rx_match.specs.Runs.{AreHeld, slot_to as slot_leads, unit_to as unit_leads};
ghost use Rattle.rx_trace.specs.Holding.{ahead as unit_ahead, unit_before as unit_before, boundary_holds as boundary_at, differ, holds_at, is_last_line as last_line_at, is_line_terminator as terminates, is_word as is_word_unit};
ghost use Rattle.rx_trace.specs.Groups.{same_units};
ghost use Rattle.rx_program.specs.Steps.{test_holds as test_holds_it};
ghost use Rattle.rx_trace.specs.Matching.{place_over as place_over_it};

use rx_ast::BoundaryAssertionKind;
use rx_program::{Test, is_line_terminator, is_word, test_holds};
use rx_trace::Slot;

pub fn ahead(input: &[u32], place: usize) -> Option<u32>
    ensures { result ≡ unit_ahead input.now place }
{
    match input.get(place) {
        None => None,
        Some(c) => Some(*c),
    }
}

pub fn unit_before(input: &[u32], place: usize) -> Option<u32>
    ensures { result ≡ unit_before input.now place }
{
    if place == 0 {
        return None;
    }
    ahead(input, place - 1)
}

/// Where a term leads over the unit at a place, or before it.
pub fn unit_to(input: &[u32], back: bool, test: Test<'_>, place: usize) -> Option<usize>
    requires { place ≤ length input.now }
    ensures { result ≡ unit_leads input.now back (test_holds_it test.entry) place }
{
    if back {
        match unit_before(input, place) {
            None => None,
            Some(c) => {
                let holds = test_holds(test, c);
                if holds { Some(place - 1) } else { None }
            }
        }
    } else {
        match ahead(input, place) {
            None => None,
            Some(c) => {
                let holds = test_holds(test, c);
                if holds { Some(place + 1) } else { None }
            }
        }
    }
}

/// The place after the units from a place on that a term holds, so many at most.
pub fn place_after_units(input: &[u32], test: Test<'_>, place: usize, most: u64) -> usize
    requires { place ≤ length input.now }
    ensures { AreHeld input.now (test_holds_it test.entry) place most result }
{
    let mut here = place;
    let mut left = most;
    while left > 0 {
        let Some(next) = unit_to(input, false, test, here) else {
            return here;
        };
        here = next;
        left -= 1;
    }
    here
}

fn ends_line(unit: Option<u32>) -> bool
    ensures { result ≡ holds_at terminates unit }
{
    match unit {
        None => false,
        Some(c) => is_line_terminator(c),
    }
}

fn is_in_word(unit: Option<u32>) -> bool
    ensures { result ≡ holds_at is_word_unit unit }
{
    match unit {
        None => false,
        Some(c) => is_word(c),
    }
}

fn is_unit(unit: Option<u32>, value: u32) -> bool
    ensures { result ≡ holds_at (λ c. c == value) unit }
{
    match unit {
        None => false,
        Some(c) => c == value,
    }
}

fn are_apart(a: bool, b: bool) -> bool
    ensures { result ≡ differ a b }
{
    (a && !b) || (!a && b)
}

pub fn boundary_holds(
    kind: BoundaryAssertionKind,
    multiline: bool,
    input: &[u32],
    place: usize,
) -> bool
    requires { place ≤ length input.now }
    ensures { result ≡ boundary_at multiline input.now kind place }
{
    let before = unit_before(input, place);
    let here = ahead(input, place);
    match kind {
        BoundaryAssertionKind::Start => before.is_none() || (multiline && ends_line(before)),
        BoundaryAssertionKind::End => here.is_none() || (multiline && ends_line(here)),
        BoundaryAssertionKind::Boundary => are_apart(is_in_word(before), is_in_word(here)),
        BoundaryAssertionKind::NegativeBoundary => !are_apart(is_in_word(before), is_in_word(here)),
        BoundaryAssertionKind::StartBuffer => before.is_none(),
        BoundaryAssertionKind::EndBuffer => here.is_none(),
        BoundaryAssertionKind::EndBufferOptionalNewline => is_last_line(input, place),
    }
}

fn is_last_line(input: &[u32], place: usize) -> bool
    requires { place ≤ length input.now }
    ensures { result ≡ last_line_at input.now place }
{
    let here = ahead(input, place);
    if here.is_none() {
        return true;
    }
    let left = input.len() - place;
    if left == 1 {
        return ends_line(here);
    }
    left == 2 && is_unit(here, 13) && is_unit(ahead(input, place + 1), 10)
}

pub fn slot_to(input: &[u32], back: bool, slot: Slot, place: usize) -> Option<usize>
    requires { place ≤ length input.now }
    ensures { result ≡ slot_leads input.now back slot place }
{
    match slot {
        Slot::Unset => Some(place),
        Slot::Set { start, end } => {
            let text = between(input, start, end);
            place_over(input, back, text, place)
        }
    }
}

/// The units from one place to another, as far as there are any.
fn between(input: &[u32], start: usize, end: usize) -> &[u32]
    ensures { result.now ≡ take (end - start) (drop start input.now) }
{
    let end = end.min(input.len());
    if start >= end {
        &[]
    } else {
        &input[start..end]
    }
}

fn place_over(input: &[u32], back: bool, text: &[u32], place: usize) -> Option<usize>
    requires { place ≤ length input.now }
    ensures { result ≡ place_over_it input.now back text.now place }
{
    let len = text.len();
    if back {
        if len <= place && are_equal(&input[place - len..place], text) {
            Some(place - len)
        } else {
            None
        }
    } else {
        ahead_over(input, text, place)
    }
}

fn ahead_over(input: &[u32], text: &[u32], place: usize) -> Option<usize>
    requires { place ≤ length input.now }
    ensures { result ≡ place_over_it input.now false text.now place }
{
    let same = are_equal(between(input, place, place + text.len()), text);
    if same { Some(place + text.len()) } else { None }
}

fn are_equal(a: &[u32], b: &[u32]) -> bool
    ensures { result ≡ same_units a.now b.now }
{
    a == b
}
