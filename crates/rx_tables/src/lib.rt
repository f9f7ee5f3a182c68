//! The sets of characters and the names of properties that the grammar of patterns speaks of.
#![tactic(auto)]

mod characters;
mod identifiers;
mod properties;
mod property_words;

pub use characters::{
    is_class_set_reserved_double_punctuator, is_class_set_reserved_punctuator,
    is_class_set_syntax_character, is_decimal_digit, is_octal_digit, is_syntax_character,
    is_unicode_property_name_character, is_unicode_property_value_character, is_valid_unicode,
    map_c_ascii_letter, map_control_escape, map_hex_digit, map_short_escape,
};
pub use identifiers::{
    is_identifier_part_char, is_identifier_start_char, is_unicode_id_continue, is_unicode_id_start,
};
pub use properties::{
    is_general_category_value, is_valid_lone_unicode_property,
    is_valid_lone_unicode_property_of_strings, is_valid_unicode_property,
};
