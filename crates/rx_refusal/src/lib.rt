//! What is told of a refusal besides its name, its spans and its message: its kind, what it holds, what to write instead, and in which text its spans lie.
#![tactic(auto)]

mod field;
mod help;
mod kind;
pub mod laws;
mod values;

pub use field::{Field, field_of, offset_in, text_in};
pub use help::help_for;
pub use kind::kind_of;
pub use values::{max_of, text_of_flag, texts_of};
