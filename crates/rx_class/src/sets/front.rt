ghost use Rattle.std.specs.Prelude.{◌≡◌, length};
ghost use Rattle.rx_base.specs.Ascii as ascii;
ghost use Rattle.rx_base.specs.Rising.{Rises};
ghost use Rattle.rx_units.specs.Units.{values};
ghost use Rattle.rx_model.specs.Classes.ClassFronts.{are_next};
ghost use Rattle.rx_model.specs.FirstPass.Marks.{starts};
ghost use Rattle.rx_class.specs.SetReading.FrontSeen.{seen_if_some, seen_front};
ghost use Rattle.rx_class.specs.SetReading.Fronts.{character_front, escaped_front, set_front_at};
ghost use Rattle.rx_class.specs.SetReading.Steps.{most_front_after, most_front_looks};

use crate::class_escape_at;
use crate::sets::character::{SetCharacter, after_backslash, set_character_at};
use rx_ast::CharacterClassEscapeKind;
use rx_base::{Counter, SetOperator};
use rx_units::{Ahead, Unit};

/// What stands where an operand of a class may stand with `v` (ClassSetExpression of ECMA-262, 22.2.1).
#[derive(Clone, Copy)]
pub enum SetFront {
    /// `]`
    Closer,
    /// `[`, or `[^`
    Bracket { negative: bool },
    /// `\q{`
    Strings,
    Operator(SetOperator),
    Character(SetCharacter),
    /// A class escape that names no property.
    Escape(CharacterClassEscapeKind),
    /// `\p` or `\P`
    Property,
    Nothing,
}

/// What the units begin with.
#[tactic(auto, using(std::proofs::lemmas::List::nil_from_length, crate::proofs::SetReading::Fronts::next_is), unfolding(crate::specs::SetReading::Fronts::set_front_at))]
pub fn set_front_at<U: Unit, C: Counter>(units: &Ahead<'_, U>, steps: &mut C) -> SetFront
    ensures front { seen_front result ≡ set_front_at units.now }
    ensures steps { Rises (C.count steps.old) (C.count steps.new) 0 (most_front_looks units.now (seen_front result)) }
{
    let Some((first, following)) = units.split_first() else {
        return SetFront::Nothing;
    };
    match char::from_u32(first) {
        Some(']') => SetFront::Closer,
        Some('[') => SetFront::Bracket {
            negative: begins_with(&following, '^'),
        },
        Some('&') if begins_with(&following, '&') => SetFront::Operator(SetOperator::Intersection),
        Some('-') if begins_with(&following, '-') => SetFront::Operator(SetOperator::Subtraction),
        Some('\\') => escaped_front(&following, steps),
        _ => character_front(set_character_at(units, steps)),
    }
}

/// What stands after a backslash.
fn escaped_front<U: Unit, C: Counter>(units: &Ahead<'_, U>, steps: &mut C) -> SetFront
    ensures front { seen_front result ≡ escaped_front (values units.now) }
    ensures steps { Rises (C.count steps.old) (C.count steps.new) 0 (most_front_after (length units.now) (seen_front result)) }
{
    if begins_strings(units) {
        return SetFront::Strings;
    }
    if begins_with(units, 'p') || begins_with(units, 'P') {
        return SetFront::Property;
    }
    match class_escape_at(units) {
        Some(kind) => SetFront::Escape(kind),
        None => character_front(after_backslash(units, steps)),
    }
}

fn character_front(found: Option<SetCharacter>) -> SetFront
    ensures { seen_front result ≡ character_front (seen_if_some found) }
{
    match found {
        Some(it) => SetFront::Character(it),
        None => SetFront::Nothing,
    }
}

/// Whether `q{` stands after a backslash.
fn begins_strings<U: Unit>(units: &Ahead<'_, U>) -> bool
    ensures { result ≡ are_next ascii.q ascii.left_brace (values units.now) }
{
    match units.items() {
        [letter, brace, ..] => letter.value() == 'q' as u32 && brace.value() == '{' as u32,
        _ => false,
    }
}

/// Whether the units begin with a character.
pub fn begins_with<U: Unit>(units: &Ahead<'_, U>, ch: char) -> bool
    ensures { result ≡ starts ch (values units.now) }
{
    units.first() == Some(ch as u32)
}
