ghost use Rattle.std.specs.Prelude.{◌≡◌, ◌↔◌, IsTrue, Contains, map, nat_lt};
ghost use Rattle.std.specs.List.{list_all};
ghost use Rattle.std.specs.Str.{chars};
ghost use Rattle.rx_tables.specs.Properties.{binary_properties, general_category_names, general_category_values, properties_of_strings, script_names, script_values, IsValidUnicodeProperty};

use crate::property_words::{
    BINARY_PROPERTIES, GENERAL_CATEGORY_VALUES, PROPERTIES_OF_STRINGS, SCRIPT_VALUES,
};

/// Whether a text is one of some ASCII words, in the same case.
fn is_among(words: &[&str], text: &str) -> bool
    requires { IsTrue (list_all (λ w. list_all (λ b. nat_lt b 128) w.now) words.now) }
    ensures { IsTrue result ↔ Contains (map (λ w. w.now) words.now) (chars text.now) }
{
    words
        .iter()
        .any(|word| (*word).len() == text.len() && *word == text)
}

#[tactic(auto, unfolding(crate::specs::Properties::general_category_names))]
fn is_general_category(name: &str) -> bool
    ensures { IsTrue result ↔ Contains general_category_names (chars name.now) }
{
    is_among(&["General_Category", "gc"], name)
}

/// Whether a word is a value of General_Category.
#[tactic(auto, unfolding(crate::specs::Properties::general_category_values))]
pub fn is_general_category_value(value: &str) -> bool
    ensures { IsTrue result ↔ Contains general_category_values (chars value.now) }
{
    is_among(&GENERAL_CATEGORY_VALUES, value)
}

#[tactic(auto, unfolding(crate::specs::Properties::script_names))]
fn is_script(name: &str) -> bool
    ensures { IsTrue result ↔ Contains script_names (chars name.now) }
{
    is_among(&["Script", "sc", "Script_Extensions", "scx"], name)
}

#[tactic(auto, unfolding(crate::specs::Properties::script_values))]
fn is_script_value(value: &str) -> bool
    ensures { IsTrue result ↔ Contains script_values (chars value.now) }
{
    is_among(&SCRIPT_VALUES, value)
}

/// Whether a property may stand with a value in `\p{name=value}`.
pub fn is_valid_unicode_property(name: &str, value: &str) -> bool
    ensures { IsTrue result ↔ IsValidUnicodeProperty (chars name.now) (chars value.now) }
{
    (is_general_category(name) && is_general_category_value(value))
        || (is_script(name) && is_script_value(value))
}

/// Whether a word names a binary property of characters.
#[tactic(auto, unfolding(crate::specs::Properties::binary_properties))]
pub fn is_valid_lone_unicode_property(name_or_value: &str) -> bool
    ensures { IsTrue result ↔ Contains binary_properties (chars name_or_value.now) }
{
    is_among(&BINARY_PROPERTIES, name_or_value)
}

/// Whether a word names a binary property of strings.
#[tactic(auto, unfolding(crate::specs::Properties::properties_of_strings))]
pub fn is_valid_lone_unicode_property_of_strings(name_or_value: &str) -> bool
    ensures { IsTrue result ↔ Contains properties_of_strings (chars name_or_value.now) }
{
    is_among(&PROPERTIES_OF_STRINGS, name_or_value)
}
