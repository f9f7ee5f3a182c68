//! Reads a pattern to its tree. Open groups are kept on the heap, so nothing calls itself.
#![tactic(auto)]

mod ahead;
mod builder;
mod constructor_parser;
mod counts;
mod fault;
mod found;
mod frame;
mod front;
mod group;
mod input;
mod level;
mod literal_parser;
mod modifiers;
mod name;
mod options;
mod pattern_parser;
mod reference;
mod term;
mod turn;

pub use builder::Builder;
pub use constructor_parser::ConstructorParser;
pub use frame::{Frame, GroupKind};
pub use input::Input;
pub use level::Level;
pub use literal_parser::LiteralParser;
pub use options::Options;
pub use pattern_parser::PatternParser;
