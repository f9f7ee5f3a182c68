//! Reading classes, and the escapes that stand for a character or for a class of characters.
#![tactic(auto)]

mod classes;
mod escapes;
mod properties;
mod reading;
mod sets;

pub use classes::atom::unit_kind;
pub use classes::class::{parse_character_class, parse_character_class_with_list};
pub use escapes::common::{CommonEscape, common_escape_at};
pub use escapes::escape::{parse_character_class_escape, parse_character_escape};
pub use escapes::found::{EscapeFound, any_escape_at, character_escape_at, class_escape_at};
pub use escapes::legacy::legacy_escape_at;
pub use properties::property::parse_character_class_escape_unicode;
