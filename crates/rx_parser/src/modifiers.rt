ghost use Rattle.std.specs.Prelude.{◌≡◌, ◌+◌, ◌^◌, ◌<◌, ◌≤◌, true, MatchOption, length, option_map};
ghost use Rattle.std.specs.List.{list_all};
ghost use Rattle.rx_base.specs.Rising.{Rises};
ghost use Rattle.rx_units.specs.Units.{values};
ghost use Rattle.rx_model.specs.Groups.GroupFronts.{letters_at, sides_at};
ghost use Rattle.rx_model.specs.Groups.ModifierFronts.{are_bits, modifiers_read_at, read_bits};
ghost use Rattle.rx_model.specs.Groups.Modifiers.{is_modifier};
ghost use Rattle.rx_model.specs.Reading.FrontReading.{modified_read};
ghost use Rattle.rx_parser.specs.Found.{found_front};
ghost use Rattle.rx_parser.specs.Modifiers.{modifier_bit, seen_sides};
ghost use Rattle.rx_parser.specs.Pace.{LooksAtSyntax};

use crate::ahead::stands_at;
use crate::found::{Found, Halt, ModifiersFault, OpenerFound};
use rx_ast::Modifier;
use rx_base::Counter;
use rx_units::{Ahead, Unit};

/// The two sides of modifiers (RegularExpressionModifiers of ECMA-262, 22.2.1) that stand next, and how many units both are, a `-` among them.
#[derive(Drop)]
struct Sides<'a, U: Unit> {
    enabling: Ahead<'a, U>,
    disabling: Ahead<'a, U>,
    length: usize,
}

/// The group that `(?` and the modifiers after it begin (Atom of ECMA-262, 22.2.1); or why they may not stand there.
pub fn modifiers_at<U: Unit, C: Counter>(units: &Ahead<'_, U>, steps: &mut C) -> Found
    ensures found { result ≡ found_front (modified_read (modifiers_read_at (values units.now))) }
    ensures steps { LooksAtSyntax (C.count steps.old) (C.count steps.new) (length units.now) result }
{
    // Why: docs/DECISIONS.md, 131.
    let _ = units.len();
    let sides = sides_at(units, steps);
    if !stands_at(units, sides.length, ':') {
        return halt(ModifiersFault::Unknown, sides.length);
    }
    modified(
        bits_of(&sides.enabling, steps),
        bits_of(&sides.disabling, steps),
        sides.length,
    )
}

/// The group of modifiers of n units that a `:` ends, by the bits of both sides.
fn modified(enabling: Option<Modifier>, disabling: Option<Modifier>, length: usize) -> Found
    requires { length + 3 < 2 ^ 64 }
    ensures { result ≡ found_front (modified_read (read_bits (option_map (λ it. it.0) enabling) (option_map (λ it. it.0) disabling) length)) }
{
    let (Some(enabling), Some(disabling)) = (enabling, disabling) else {
        return halt(ModifiersFault::Duplicated, length);
    };
    if enabling.is_empty() && disabling.is_empty() {
        return halt(ModifiersFault::Empty, length);
    }
    if enabling.intersects(disabling) {
        return halt(ModifiersFault::Invalid, length);
    }
    Found::Open {
        opener: OpenerFound::Modified {
            enabling,
            disabling,
        },
        length: length + 3,
    }
}

fn halt(fault: ModifiersFault, length: usize) -> Found
    ensures { result ≡ Found.Halt (Halt.Modifiers fault length) }
{
    Found::Halt(Halt::Modifiers { fault, length })
}

/// The modifiers that the units begin with (RegularExpressionModifiers of ECMA-262, 22.2.1).
fn sides_at<'a, U: Unit, C: Counter>(units: &Ahead<'a, U>, steps: &mut C) -> Sides<'a, U>
    ensures sides { seen_sides result ≡ sides_at (values units.now) }
    ensures within { result.length ≤ length units.now }
    ensures parts { length result.enabling + length result.disabling ≤ result.length }
    ensures steps { Rises (C.count steps.old) (C.count steps.new) 0 (result.length + 1) }
{
    // Why: docs/DECISIONS.md, 131.
    let _ = units.len();
    let count = letters_at(units, steps);
    let enabling = units.front(count);
    if !stands_at(units, count, '-') {
        return Sides {
            enabling,
            disabling: units.front(0),
            length: count,
        };
    }
    let following = units.from(count + 1);
    let more = letters_at(&following, steps);
    Sides {
        enabling,
        disabling: following.front(more),
        length: count + 1 + more,
    }
}

/// How many letters of modifiers the units begin with.
fn letters_at<U: Unit, C: Counter>(units: &Ahead<'_, U>, steps: &mut C) -> usize
    ensures letters { result ≡ letters_at (values units.now) }
    ensures within { result ≤ length units.now }
    ensures steps { Rises (C.count steps.old) (C.count steps.new) result (result + 1) }
{
    let items = units.items();
    for (count, unit) in items.iter().enumerate() {
        steps.tick();
        if modifier_of(unit.value()).is_none() {
            return count;
        }
    }
    units.len()
}

/// The bits of letters, or none where one is there twice.
fn bits_of<U: Unit, C: Counter>(letters: &Ahead<'_, U>, steps: &mut C) -> Option<Modifier>
    requires { list_all is_modifier (values letters.now) ≡ true }
    ensures bits { option_map (λ it. it.0) result ≡ are_bits (values letters.now) }
    ensures steps { MatchOption result (Rises (C.count steps.old) (C.count steps.new) 1 (length letters.now)) (λ _. C.count steps.new ≡ C.count steps.old + length letters.now) }
{
    let mut bits = Modifier::empty();
    let items = letters.items();
    for letter in items {
        steps.tick();
        let bit = modifier_of(letter.value())?;
        if bits.contains(bit) {
            return None;
        }
        bits.insert(bit);
    }
    Some(bits)
}

/// The modifier of a letter (RegularExpressionModifier of ECMA-262, 22.2.1): `i`, `m` or `s`.
fn modifier_of(value: u32) -> Option<Modifier>
    ensures { option_map (λ it. it.0) result ≡ modifier_bit value }
{
    match char::from_u32(value) {
        Some('i') => Some(Modifier::I),
        Some('m') => Some(Modifier::M),
        Some('s') => Some(Modifier::S),
        _ => None,
    }
}
