//! Reading what stands before a pattern's tree: flags, the groups and their names, unicode escapes, and the spans that answers carry.
#![tactic(auto)]

mod environment;
mod first_pass;
mod flags_parser;
mod group_name;
mod last_openings;
mod mark;
mod names;
mod open_groups;
mod span_factory;
mod state;
mod unicode_escape;

pub use environment::Environment;
pub use flags_parser::FlagsParser;
pub use group_name::{
    capturing_group_name, capturing_group_name_counted, group_name_length_counted,
};
pub use names::Names;
pub use span_factory::SpanFactory;
pub use state::{State, StateFault};
pub use unicode_escape::{UnicodeEscape, decode, decode_counted, four_hex_digits};
