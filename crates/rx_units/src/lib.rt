//! The units of a text, a literal's or a quoted one's, and a reader over them.
#![tactic(auto)]

mod ahead;
mod characters;
mod code_point;
mod counted;
pub mod laws;
mod literal;
mod options;
pub mod quoted_text;
mod reader;
mod reader_fault;
pub mod sequence;
pub mod string_literal_parser;
pub mod template_literal_parser;
mod unit;
mod unit_source;

pub use ahead::Ahead;
pub use characters::{
    CR, LF, LS, PS, is_line_terminator, is_non_escape_character, is_single_escape_character,
};
pub use code_point::{CodePoint, EscapeKind};
pub use literal::{handle_code_point, parse_regexp_literal};
pub use options::Options;
pub use reader::Reader;
pub use reader_fault::ReaderFault;
pub use unit::Unit;
pub use unit_source::UnitSource;
