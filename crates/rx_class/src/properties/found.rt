ghost use Rattle.std.specs.Prelude.{◌≡◌, ◌≢◌, ◌+◌, ◌<◌, ◌^◌, ℕ, Bool, ◌∷◌, [], List, length, true, IfOk};
ghost use Rattle.std.specs.List.{list_all};
ghost use Rattle.std.specs.Str.{chars};
ghost use Rattle.rx_base.specs.Ascii as ascii;
ghost use Rattle.rx_base.specs.Rising.{Rises};
ghost use Rattle.rx_units.specs.Units.{values};
ghost use Rattle.rx_tables.specs.Characters.{is_unicode_property_value_character};
ghost use Rattle.rx_model.specs.FirstPass.Marks.{starts};
ghost use Rattle.rx_model.specs.Inputs.Environment.{is_sets, is_unicode};
ghost use Rattle.rx_model.specs.Properties.PropertyForms.{HasPair, HasRun};
ghost use Rattle.rx_class.specs.PropertyReading.Found.{IsFoundIn, IsLone, is_known, property_letter, unknown_halt};
ghost use Rattle.rx_class.specs.PropertyReading.Steps.{IsClosedIn, IsSpelledIn, property_looks};

use crate::properties::form::{Pair, Run, after, pair_at, run_at};
use crate::reading::is_sets;
use rx_base::{Counter, OutOfMemory, Text};
use rx_model::Mode;
use rx_tables::{
    is_general_category_value, is_valid_lone_unicode_property,
    is_valid_lone_unicode_property_of_strings, is_valid_unicode_property,
};
use rx_units::{Ahead, Unit};
use std::alloc::Global;

/// What stands after a backslash where a property escape may stand, in units.
#[derive(Drop)]
pub enum PropertyFound {
    /// A property escape, and how many units spell it after the backslash.
    Property {
        negative: bool,
        strings: bool,
        name: Text,
        value: Option<Text>,
        length: usize,
    },
    /// Neither `p` nor `P`.
    Nothing,
    /// No property escape stands after `p` or `P`.
    Halt(PropertyHalt),
}

/// Why no property escape stands after `p` or `P`. Places count the units after the backslash.
#[derive(Drop)]
pub enum PropertyHalt {
    /// It is cut off at a place.
    Unterminated { end: usize },
    /// A value does not go with its name.
    Name { start: usize, length: usize },
    /// n units after `{` are no name and no value.
    NameOrValue { length: usize },
    /// n units after `{` name a property of strings.
    OfStrings { name: Text, length: usize },
    /// A negative escape that ends at a place names a property of strings.
    NegativeOfStrings { name: Text, end: usize },
}

/// What a word names that stands alone between the braces.
#[derive(Clone, Copy)]
pub enum Lone {
    /// A value of General_Category.
    Category,
    /// A binary property of characters.
    Binary,
    /// A binary property of strings.
    OfStrings,
    Nothing,
}

/// The property escape (CharacterClassEscape of ECMA-262, 22.2.1) that the units after a backslash begin with, in a unicode mode.
pub fn property_at<U: Unit, C: Counter>(
    alloc: Global,
    units: &Ahead<'_, U>,
    mode: Mode,
    steps: &mut C,
) -> Result<PropertyFound, OutOfMemory>
    requires unicode { is_unicode mode ≡ true }
    ensures found { IfOk result (IsFoundIn mode (values units.now)) }
    ensures steps { Rises (C.count steps.old) (C.count steps.new) 0 (property_looks (length units.now) result) }
{
    if let Some(following) = after(units, 'p') {
        return expression_at(alloc, false, &following, mode, steps);
    }
    if let Some(following) = after(units, 'P') {
        return expression_at(alloc, true, &following, mode, steps);
    }
    Ok(PropertyFound::Nothing)
}

/// The same by the units after `p` or `P`.
fn expression_at<U: Unit, C: Counter>(
    alloc: Global,
    negative: bool,
    units: &Ahead<'_, U>,
    mode: Mode,
    steps: &mut C,
) -> Result<PropertyFound, OutOfMemory>
    requires unicode { is_unicode mode ≡ true }
    ensures found { IfOk result (IsFoundIn mode (property_letter negative ∷ values units.now)) }
    ensures steps { Rises (C.count steps.old) (C.count steps.new) 0 (property_looks (length units.now) result) }
{
    let Some(following) = after(units, '{') else {
        return Ok(unterminated(1));
    };
    match pair_at(&following, steps) {
        Some(pair) => pair_found(alloc, negative, pair, steps),
        None => {
            let run = run_at(&following, steps);
            run_found(alloc, negative, run, mode, steps)
        }
    }
}

fn unterminated(end: usize) -> PropertyFound
    ensures { result ≡ PropertyFound.Halt (PropertyHalt.Unterminated end) }
{
    PropertyFound::Halt(PropertyHalt::Unterminated { end })
}

/// The same by a name and a value, in every mode.
#[tactic(auto, using(rx_model::proofs::Properties::PropertyRefusals::names_are_values))]
fn pair_found<U: Unit, C: Counter>(
    alloc: Global,
    negative: bool,
    pair: Pair<'_, U>,
    steps: &mut C,
) -> Result<PropertyFound, OutOfMemory>
    requires { (w : List ℕ) × HasPair w (values pair.name) (values pair.value) (values pair.following) }
    ensures found { IfOk result (λ found. (mode : Mode) (w : List ℕ) → is_unicode mode ≡ true → HasPair w (values pair.entry.name) (values pair.entry.value) (values pair.entry.following)
        → IsFoundIn mode (property_letter negative ∷ ascii.left_brace ∷ w) found) }
    ensures steps { Rises (C.count steps.old) (C.count steps.new) 0 (length pair.entry.name + length pair.entry.value) }
    ensures closed { IfOk result (IsClosedIn (4 + length pair.entry.name + length pair.entry.value) (values pair.entry.following)) }
{
    let name_text = text_of(alloc, &pair.name, steps)?;
    let value_text = text_of(alloc, &pair.value, steps)?;
    Ok(texts_found(
        negative,
        name_text,
        value_text,
        pair.name.len(),
        pair.value.len(),
        is_closed(&pair.following),
    ))
}

/// The same by a name and a value, of so many characters each, and whether `}` follows.
fn texts_found(
    negative: bool,
    name: Text,
    value: Text,
    name_count: usize,
    value_count: usize,
    ends: bool,
) -> PropertyFound
    requires name { name_count ≡ length name }
    requires value { value_count ≡ length value }
    requires small { (name_count < 2 ^ 63) × (value_count < 2 ^ 63) }
    ensures found { (mode : Mode) (w following : List ℕ) → is_unicode mode ≡ true → HasPair w name value following → ends ≡ starts ascii.right_brace following
        → IsFoundIn mode (property_letter negative ∷ ascii.left_brace ∷ w) result }
    ensures closed { (following : List ℕ) → ends ≡ starts ascii.right_brace following → IsClosedIn (4 + name_count + value_count) following result }
{
    if !is_valid_unicode_property(name.as_str(), value.as_str()) {
        return PropertyFound::Halt(PropertyHalt::Name {
            start: 3 + name_count,
            length: value_count,
        });
    }
    if !ends {
        return unterminated(3 + name_count + value_count);
    }
    PropertyFound::Property {
        negative,
        strings: false,
        name,
        value: Some(value),
        length: 4 + name_count + value_count,
    }
}

/// The same by a run of a value's characters.
fn run_found<U: Unit, C: Counter>(
    alloc: Global,
    negative: bool,
    run: Run<'_, U>,
    mode: Mode,
    steps: &mut C,
) -> Result<PropertyFound, OutOfMemory>
    requires unicode { is_unicode mode ≡ true }
    requires run { (w : List ℕ) × HasRun w (values run.units) (values run.following) }
    ensures found { IfOk result (λ found. (w : List ℕ) → HasRun w (values run.entry.units) (values run.entry.following)
        → IsFoundIn mode (property_letter negative ∷ ascii.left_brace ∷ w) found) }
    ensures steps { Rises (C.count steps.old) (C.count steps.new) 0 (length run.entry.units) }
    ensures closed { IfOk result (IsClosedIn (3 + length run.entry.units) (values run.entry.following)) }
{
    let count = run.units.len();
    if run.units.is_empty() || run.following.is_empty() {
        return Ok(unterminated(2 + count));
    }
    let word = text_of(alloc, &run.units, steps)?;
    word_found(
        alloc,
        negative,
        word,
        count,
        is_closed(&run.following),
        mode,
    )
}

/// The same by the word of n characters that a run is, and whether `}` follows.
fn word_found(
    alloc: Global,
    negative: bool,
    word: Text,
    count: usize,
    ends: bool,
    mode: Mode,
) -> Result<PropertyFound, OutOfMemory>
    requires unicode { is_unicode mode ≡ true }
    requires some { word ≢ [] }
    requires count { count ≡ length word }
    requires small { count < 2 ^ 63 }
    ensures found { IfOk result (λ found. (w following : List ℕ) → HasRun w word following → following ≢ [] → ends ≡ starts ascii.right_brace following
        → IsFoundIn mode (property_letter negative ∷ ascii.left_brace ∷ w) found) }
    ensures closed { IfOk result (λ found. (following : List ℕ) → ends ≡ starts ascii.right_brace following → IsClosedIn (3 + count) following found) }
{
    let lone = lone_word(word.as_str());
    if !is_known(lone, mode) {
        return Ok(PropertyFound::Halt(unknown(lone, word, count)));
    }
    if !ends {
        return Ok(unterminated(2 + count));
    }
    known_found(alloc, negative, lone, word, count)
}

/// Whether such a word names a property: one of strings does in sets mode alone.
fn is_known(lone: Lone, mode: Mode) -> bool
    ensures { result ≡ is_known lone (is_sets mode) }
{
    match lone {
        Lone::Category | Lone::Binary => true,
        Lone::OfStrings => is_sets(mode),
        Lone::Nothing => false,
    }
}

/// Why a word of n characters is refused that names no property.
fn unknown(lone: Lone, word: Text, length: usize) -> PropertyHalt
    ensures { result ≡ unknown_halt lone word length }
{
    match lone {
        Lone::OfStrings => PropertyHalt::OfStrings { name: word, length },
        Lone::Category | Lone::Binary | Lone::Nothing => PropertyHalt::NameOrValue { length },
    }
}

/// The same by a word of n characters that names a property, and stands between braces.
fn known_found(
    alloc: Global,
    negative: bool,
    lone: Lone,
    word: Text,
    count: usize,
) -> Result<PropertyFound, OutOfMemory>
    requires named { IsLone word lone }
    requires known { (sets : Bool) × (is_known lone sets ≡ true) }
    requires count { count ≡ length word }
    requires small { count < 2 ^ 63 }
    ensures found { IfOk result (λ found. (mode : Mode) (w following : List ℕ) → is_unicode mode ≡ true → is_known lone (is_sets mode) ≡ true → HasRun w word following
        → starts ascii.right_brace following ≡ true → IsFoundIn mode (property_letter negative ∷ ascii.left_brace ∷ w) found) }
    ensures length { IfOk result (IsSpelledIn (3 + count)) }
{
    match lone {
        Lone::Category => Ok(PropertyFound::Property {
            negative,
            strings: false,
            name: Text::from_str(alloc, "General_Category")?,
            value: Some(word),
            length: 3 + count,
        }),
        Lone::Binary => Ok(PropertyFound::Property {
            negative,
            strings: false,
            name: word,
            value: None,
            length: 3 + count,
        }),
        Lone::OfStrings if negative => Ok(PropertyFound::Halt(PropertyHalt::NegativeOfStrings {
            name: word,
            end: 3 + count,
        })),
        Lone::OfStrings => Ok(PropertyFound::Property {
            negative,
            strings: true,
            name: word,
            value: None,
            length: 3 + count,
        }),
        Lone::Nothing => unreachable!(),
    }
}

/// What a word names that stands alone between the braces. The shortest table is searched first: no word is in two.
fn lone_word(word: &str) -> Lone
    ensures { IsLone (chars word.now) result }
{
    if is_valid_lone_unicode_property_of_strings(word) {
        Lone::OfStrings
    } else if is_general_category_value(word) {
        Lone::Category
    } else if is_valid_lone_unicode_property(word) {
        Lone::Binary
    } else {
        Lone::Nothing
    }
}

fn is_closed<U: Unit>(units: &Ahead<'_, U>) -> bool
    ensures { result ≡ starts ascii.right_brace (values units.now) }
{
    units.first() == Some('}' as u32)
}

/// The characters that some units are.
#[tactic(auto, using(crate::proofs::PropertyReading::Tables::small_value))]
fn text_of<U: Unit, C: Counter>(
    alloc: Global,
    units: &Ahead<'_, U>,
    steps: &mut C,
) -> Result<Text, OutOfMemory>
    requires { list_all is_unicode_property_value_character (values units.now) ≡ true }
    ensures text { IfOk result (λ text. text ≡ values units.now) }
    ensures steps { Rises (C.count steps.old) (C.count steps.new) 0 (length units.now) }
    ensures whole { IfOk result (λ text. C.count steps.new ≡ C.count steps.old + length units.now) }
{
    let mut text = Text::from_str(alloc, "")?;
    let items = units.items();
    let mut place = 0;
    while place < items.len() {
        steps.tick();
        match char::from_u32(items[place].value()) {
            Some(character) => text.push(character)?,
            None => unreachable!(),
        }
        place += 1;
    }
    Ok(text)
}
