ghost use Rattle.std.specs.Prelude.{◌≡◌, length};
ghost use Rattle.rx_units.specs.Units.{values};
ghost use Rattle.rx_model.specs.Groups.NameFronts.{name_read_at};
ghost use Rattle.rx_model.specs.Reading.FrontReading.{angle_read, group_read, named_group_read, question_read};
ghost use Rattle.rx_parser.specs.Found.{found_front};
ghost use Rattle.rx_parser.specs.Pace.{LooksAtSyntax};

use crate::found::{Found, OpenerFound};
use crate::modifiers::modifiers_at;
use crate::name::{NameFound, name_at};
use rx_ast::LookAroundAssertionKind;
use rx_base::Counter;
use rx_units::{Ahead, Unit};

/// The group or look-around that `(` and the units after it begin (Atom and Assertion of ECMA-262, 22.2.1), or why they begin none.
pub fn group_at<U: Unit, C: Counter>(
    following: &Ahead<'_, U>,
    unicode_mode: bool,
    steps: &mut C,
) -> Found
    ensures found { result ≡ found_front (group_read unicode_mode (values following.now)) }
    ensures steps { LooksAtSyntax (C.count steps.old) (C.count steps.new) (length following.now) result }
{
    match following.after('?') {
        Some(more) => after_question(&more, unicode_mode, steps),
        None => opens(OpenerFound::Capturing, 1),
    }
}

fn opens(opener: OpenerFound, length: usize) -> Found
    ensures { result ≡ Found.Open opener length }
{
    Found::Open { opener, length }
}

/// The group or look-around after `(?` (Atom and Assertion of ECMA-262, 22.2.1).
fn after_question<U: Unit, C: Counter>(
    units: &Ahead<'_, U>,
    unicode_mode: bool,
    steps: &mut C,
) -> Found
    ensures found { result ≡ found_front (question_read unicode_mode (values units.now)) }
    ensures steps { LooksAtSyntax (C.count steps.old) (C.count steps.new) (length units.now) result }
{
    match units.split_first() {
        Some((mark, _)) if mark == ':' as u32 => opens(OpenerFound::Ignoring, 3),
        Some((mark, _)) if mark == '=' as u32 => opens(
            OpenerFound::LookAround(LookAroundAssertionKind::Lookahead),
            3,
        ),
        Some((mark, _)) if mark == '!' as u32 => opens(
            OpenerFound::LookAround(LookAroundAssertionKind::NegativeLookahead),
            3,
        ),
        Some((mark, more)) if mark == '<' as u32 => after_angle(&more, unicode_mode, steps),
        _ => modifiers_at(units, steps),
    }
}

/// The lookbehind or named group after `(?<` (Assertion and GroupSpecifier of ECMA-262, 22.2.1).
fn after_angle<U: Unit, C: Counter>(
    units: &Ahead<'_, U>,
    unicode_mode: bool,
    steps: &mut C,
) -> Found
    ensures found { result ≡ found_front (angle_read unicode_mode (values units.now)) }
    ensures steps { LooksAtSyntax (C.count steps.old) (C.count steps.new) (length units.now) result }
{
    match units.split_first() {
        Some((mark, _)) if mark == '=' as u32 => opens(
            OpenerFound::LookAround(LookAroundAssertionKind::Lookbehind),
            4,
        ),
        Some((mark, _)) if mark == '!' as u32 => opens(
            OpenerFound::LookAround(LookAroundAssertionKind::NegativeLookbehind),
            4,
        ),
        _ => named_group(units, unicode_mode, steps),
    }
}

/// The group after `(?<`, where no lookbehind begins (GroupSpecifier of ECMA-262, 22.2.1).
fn named_group<U: Unit, C: Counter>(
    units: &Ahead<'_, U>,
    unicode_mode: bool,
    steps: &mut C,
) -> Found
    ensures found { result ≡ found_front (named_group_read (name_read_at unicode_mode (values units.now))) }
    ensures steps { LooksAtSyntax (C.count steps.old) (C.count steps.new) (length units.now) result }
{
    // Why: docs/DECISIONS.md, 131.
    let _ = units.len();
    match name_at(units, unicode_mode, steps) {
        NameFound::Name { length } => opens(OpenerFound::Named, length + 4),
        NameFound::Halt(halt) => Found::Halt(halt),
    }
}
