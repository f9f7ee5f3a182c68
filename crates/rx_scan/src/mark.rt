ghost use Rattle.std.specs.Prelude.{◌≡◌, ◌≤◌, ◌<◌, ◌+◌, false, length, option_map, IfSome, MatchOption};
ghost use Rattle.rx_units.specs.Units.{values};
ghost use Rattle.rx_model.specs.Inputs.Environment.{is_sets};
ghost use Rattle.rx_model.specs.FirstPass.Marks.{after_angle, class_rest, escape_rest, mark_front, name_length, open_front, question_front, specifier_front, starts};
ghost use Rattle.rx_scan.specs.MarkReading.{closed_part, is_plain, seen_front, seen_mark};

use rx_base::Counter;
use rx_model::Mode;
use rx_units::{Ahead, Unit};

/// What counting groups sees of a text (CountLeftCapturingParensWithin of ECMA-262, 22.2.1.2).
#[derive(Drop)]
pub enum Mark<'a, U: Unit> {
    /// A unit, an escape or a class that opens and closes nothing.
    Other,
    Bar,
    Closer,
    /// An opening that does not capture.
    Quiet,
    /// An opening that captures, with the units between its `<` and its `>` where both are there.
    Capturing(Option<Ahead<'a, U>>),
}

/// Whether a unit is a mark of its own that opens and closes nothing, whatever stands after it.
#[inline(always)]
pub fn is_plain(unit: u32) -> bool
    ensures { result ≡ is_plain unit }
{
    unit >= 128 || BEGINS_MARK[unit as usize] == 0
}

/// For each ASCII character, 1 where it is one of `\`, `[`, `(`, `)` and `|`, else 0.
static BEGINS_MARK: [u8; 128] = [
    0, 0, 0, 0, 0, 0, 0, 0, 0, 0, 0, 0, 0, 0, 0, 0, //
    0, 0, 0, 0, 0, 0, 0, 0, 0, 0, 0, 0, 0, 0, 0, 0, //
    0, 0, 0, 0, 0, 0, 0, 0, 1, 1, 0, 0, 0, 0, 0, 0, //
    0, 0, 0, 0, 0, 0, 0, 0, 0, 0, 0, 0, 0, 0, 0, 0, //
    0, 0, 0, 0, 0, 0, 0, 0, 0, 0, 0, 0, 0, 0, 0, 0, //
    0, 0, 0, 0, 0, 0, 0, 0, 0, 0, 0, 1, 1, 0, 0, 0, //
    0, 0, 0, 0, 0, 0, 0, 0, 0, 0, 0, 0, 0, 0, 0, 0, //
    0, 0, 0, 0, 0, 0, 0, 0, 0, 0, 0, 0, 1, 0, 0, 0, //
];

/// The mark (CountLeftCapturingParensWithin, 22.2.1.2) that begins with a unit, and how many of the units after it are the mark's. Each of
/// these is a step.
#[tactic(auto, unfolding(rx_model::specs::FirstPass::Marks::mark_front))]
pub fn read_mark<'a, U: Unit, C: Counter>(
    unit: u32,
    following: &Ahead<'a, U>,
    mode: Mode,
    steps: &mut C,
) -> (Mark<'a, U>, usize)
    ensures value { seen_front result ≡ mark_front mode unit (values following.now) }
    ensures within { result.1 ≤ length following.now }
    ensures name { name_length (seen_mark result.0) ≤ result.1 }
    ensures steps { C.count steps.new ≡ C.count steps.old + result.1 }
{
    if unit == '\\' as u32 {
        (Mark::Other, escape_rest(following, steps))
    } else if unit == '[' as u32 {
        (Mark::Other, class_rest(following, mode, steps))
    } else if unit == '(' as u32 {
        after_parenthesis(following, steps)
    } else if unit == ')' as u32 {
        (Mark::Closer, 0)
    } else if unit == '|' as u32 {
        (Mark::Bar, 0)
    } else {
        (Mark::Other, 0)
    }
}

/// How many units an escape has after its backslash (AtomEscape, 22.2.1): counting sees one, where one is left.
fn escape_rest<U: Unit, C: Counter>(units: &Ahead<'_, U>, steps: &mut C) -> usize
    ensures value { result ≡ escape_rest (values units.now) }
    ensures within { result ≤ length units.now }
    ensures steps { C.count steps.new ≡ C.count steps.old + result }
{
    match units.split_first() {
        Some(_) => {
            steps.tick();
            1
        }
        None => 0,
    }
}

/// How many units a class has after its `[` (CharacterClass, 22.2.1).
// Why: docs/DECISIONS.md, 26.
fn class_rest<U: Unit, C: Counter>(units: &Ahead<'_, U>, mode: Mode, steps: &mut C) -> usize
    ensures value { result ≡ class_rest mode false 0 (values units.now) }
    ensures within { result ≤ length units.now }
    ensures steps { C.count steps.new ≡ C.count steps.old + result }
{
    match mode {
        Mode::Legacy | Mode::Unicode => flat_class_rest(units, steps),
        Mode::Sets => nested_class_rest(units, steps),
    }
}

/// The same without `v`: a class has no class in it.
fn flat_class_rest<U: Unit, C: Counter>(units: &Ahead<'_, U>, steps: &mut C) -> usize
    ensures value { (mode : Mode) → is_sets mode ≡ false → result ≡ class_rest mode false 0 (values units.now) }
    ensures within { result ≤ length units.now }
    ensures steps { C.count steps.new ≡ C.count steps.old + result }
{
    let mut left = units.from(0);
    while let Some((unit, more)) = left.split_first() {
        steps.tick();
        left = more;
        if unit == '\\' as u32 || unit == ']' as u32 {
            if unit == ']' as u32 {
                return units.len() - left.len();
            }
            left = left.from(escape_rest(&left, steps));
        }
    }
    units.len()
}

/// The same with `v`: classes may be open in it (NestedClass, 22.2.1).
fn nested_class_rest<U: Unit, C: Counter>(units: &Ahead<'_, U>, steps: &mut C) -> usize
    ensures value { result ≡ class_rest Mode.Sets false 0 (values units.now) }
    ensures within { result ≤ length units.now }
    ensures steps { C.count steps.new ≡ C.count steps.old + result }
{
    let length = units.len();
    let mut open = 0usize;
    let mut left = units.from(0);
    while let Some((unit, more)) = left.split_first() {
        steps.tick();
        left = more;
        if unit == '\\' as u32 {
            left = left.from(escape_rest(&left, steps));
        } else if unit == '[' as u32 {
            open += 1;
        } else if unit == ']' as u32 {
            if open == 0 {
                return length - left.len();
            }
            open -= 1;
        }
    }
    length
}

/// What stands after `(`: without a `?` the group captures, and has no name (Atom, 22.2.1).
#[tactic(auto, using(crate::proofs::MarkSteps::starts_not))]
fn after_parenthesis<'a, U: Unit, C: Counter>(
    units: &Ahead<'a, U>,
    steps: &mut C,
) -> (Mark<'a, U>, usize)
    ensures value { seen_front result ≡ open_front (values units.now) }
    ensures within { result.1 ≤ length units.now }
    ensures name { name_length (seen_mark result.0) ≤ result.1 }
    ensures steps { C.count steps.new ≡ C.count steps.old + result.1 }
{
    match units.after('?') {
        Some(rest) => after_question(&rest, steps),
        None => (Mark::Capturing(None), 0),
    }
}

/// What stands after `(?`: all but a name is quiet (Atom and Assertion, 22.2.1).
#[tactic(auto, using(crate::proofs::MarkSteps::starts_not))]
fn after_question<'a, U: Unit, C: Counter>(
    units: &Ahead<'a, U>,
    steps: &mut C,
) -> (Mark<'a, U>, usize)
    ensures value { seen_front result ≡ question_front (values units.now) }
    ensures within { result.1 ≤ length units.now + 1 }
    ensures name { name_length (seen_mark result.0) ≤ result.1 }
    ensures steps { C.count steps.new ≡ C.count steps.old + result.1 }
{
    match units.after('<') {
        Some(rest) => after_angle(&rest, steps),
        None => {
            if starts(units, ':') || starts(units, '=') || starts(units, '!') {
                steps.add(2);
                (Mark::Quiet, 2)
            } else {
                steps.tick();
                (Mark::Quiet, 1)
            }
        }
    }
}

/// What stands after `(?<`: a lookbehind, or a name (Assertion and GroupName, 22.2.1).
fn after_angle<'a, U: Unit, C: Counter>(units: &Ahead<'a, U>, steps: &mut C) -> (Mark<'a, U>, usize)
    ensures value { seen_front result ≡ after_angle (values units.now) }
    ensures within { result.1 ≤ length units.now + 2 }
    ensures name { name_length (seen_mark result.0) ≤ result.1 }
    ensures steps { C.count steps.new ≡ C.count steps.old + result.1 }
{
    if starts(units, '=') || starts(units, '!') {
        steps.add(3);
        (Mark::Quiet, 3)
    } else {
        group_specifier(units, steps)
    }
}

/// A capturing opening whose name, if it has one, begins here (GroupSpecifier, 22.2.1).
fn group_specifier<'a, U: Unit, C: Counter>(
    units: &Ahead<'a, U>,
    steps: &mut C,
) -> (Mark<'a, U>, usize)
    ensures value { seen_front result ≡ specifier_front (values units.now) }
    ensures within { result.1 ≤ length units.now + 2 }
    ensures name { name_length (seen_mark result.0) ≤ result.1 }
    ensures steps { C.count steps.new ≡ C.count steps.old + result.1 }
{
    steps.add(2);
    match name_units(units, steps) {
        Some(name) => {
            let length = name.len();
            (Mark::Capturing(Some(name)), length + 3)
        }
        None => (Mark::Capturing(None), units.len() + 2),
    }
}

/// The units before the next `>`, where one stands (GroupName, 22.2.1).
fn name_units<'a, U: Unit, C: Counter>(units: &Ahead<'a, U>, steps: &mut C) -> Option<Ahead<'a, U>>
    ensures value { option_map (λ part. values part) result ≡ closed_part (values units.now) }
    ensures within { IfSome result (λ part. length part < length units.now) }
    ensures steps { MatchOption result (C.count steps.new ≡ C.count steps.old + length units.now)
        (λ part. C.count steps.new ≡ C.count steps.old + length part + 1) }
{
    let items = units.items();
    for (place, unit) in items.iter().enumerate() {
        steps.tick();
        if unit.value() == '>' as u32 {
            return Some(units.front(place));
        }
    }
    None
}

fn starts<U: Unit>(units: &Ahead<'_, U>, character: char) -> bool
    ensures { result ≡ starts character (values units.now) }
{
    match units.split_first() {
        Some((unit, _)) => unit == character as u32,
        None => false,
    }
}
