ghost use Rattle.std.specs.Prelude.{◌≡◌, ◌+◌, ◌≤◌, ◌∷◌, IfSome, List, MatchOption, false, length, true, ℕ};
ghost use Rattle.std.specs.List.{prefix_len};
ghost use Rattle.rx_base.specs.Ascii as ascii;
ghost use Rattle.rx_base.specs.Rising.{Rises};
ghost use Rattle.rx_units.specs.Units.{values};
ghost use Rattle.rx_tables.specs.Characters as set;
ghost use Rattle.rx_model.specs.FirstPass.Marks.{starts};
ghost use Rattle.rx_model.specs.Properties.PropertyForms.{IsValueRun};
ghost use Rattle.rx_class.specs.PropertyReading.Found.{IsPairFound};

use rx_base::Counter;
use rx_tables::{is_unicode_property_name_character, is_unicode_property_value_character};
use rx_units::{Ahead, Unit};

/// A name and a value, with `=` between them, and what follows.
#[derive(Drop)]
pub struct Pair<'a, U: Unit> {
    pub name: Ahead<'a, U>,
    pub value: Ahead<'a, U>,
    pub following: Ahead<'a, U>,
}

/// The longest run of a value's characters at the front, and what follows.
#[derive(Drop)]
pub struct Run<'a, U: Unit> {
    pub units: Ahead<'a, U>,
    pub following: Ahead<'a, U>,
}

/// The name and the value that the units after `{` begin with; none where one of them is empty, or nothing follows.
pub fn pair_at<'a, U: Unit, C: Counter>(units: &Ahead<'a, U>, steps: &mut C) -> Option<Pair<'a, U>>
    ensures found { IsPairFound (values units.now) result }
    ensures steps { Rises (C.count steps.old) (C.count steps.new) 0 (length units.now) }
    ensures pair { IfSome result (λ pair. C.count steps.new ≤ C.count steps.old + (length pair.name + length pair.value)) }
    ensures run { (run following : List ℕ) → IsValueRun (values units.now) run following → starts ascii.right_brace following ≡ true
        → C.count steps.new ≤ C.count steps.old + length run }
{
    let length = name_length(units, steps);
    let name = units.front(length);
    let following = after(&units.from(length), '=')?;
    let run = run_at(&following, steps);
    if name.is_empty() || run.units.is_empty() || run.following.is_empty() {
        return None;
    }
    Some(Pair {
        name,
        value: run.units,
        following: run.following,
    })
}

/// What stands after a character with which the units begin.
pub fn after<'a, U: Unit>(units: &Ahead<'a, U>, ch: char) -> Option<Ahead<'a, U>>
    ensures found { MatchOption result (starts ch (values units.now) ≡ false) (λ more. values units.now ≡ ch ∷ values more) }
    ensures counted { IfSome result (λ more. length units.now ≡ length more + 1) }
{
    units.after(ch)
}

/// The run of a value's characters that the units begin with.
pub fn run_at<'a, U: Unit, C: Counter>(units: &Ahead<'a, U>, steps: &mut C) -> Run<'a, U>
    ensures run { IsValueRun (values units.now) (values result.units) (values result.following) }
    ensures steps { Rises (C.count steps.old) (C.count steps.new) (length result.units) (length result.units) }
{
    let length = value_length(units, steps);
    Run {
        units: units.front(length),
        following: units.from(length),
    }
}

/// How many units at the front may stand in the name of a property.
fn name_length<U: Unit, C: Counter>(units: &Ahead<'_, U>, steps: &mut C) -> usize
    ensures value { result ≡ prefix_len (λ u. set.is_unicode_property_name_character u.value) units.now }
    ensures steps { Rises (C.count steps.old) (C.count steps.new) result result }
{
    let items = units.items();
    let mut length = 0;
    while length < items.len() && is_unicode_property_name_character(items[length].value()) {
        steps.tick();
        length += 1;
    }
    length
}

/// How many units at the front may stand in the value of a property.
fn value_length<U: Unit, C: Counter>(units: &Ahead<'_, U>, steps: &mut C) -> usize
    ensures value { result ≡ prefix_len (λ u. set.is_unicode_property_value_character u.value) units.now }
    ensures steps { Rises (C.count steps.old) (C.count steps.new) result result }
{
    let items = units.items();
    let mut length = 0;
    while length < items.len() && is_unicode_property_value_character(items[length].value()) {
        steps.tick();
        length += 1;
    }
    length
}
