//! What callers use: reading a pattern to its tree and canonical text, the canonical text of any tree and the text that `Display` writes of it, walks over
//! a tree, and which flags and patterns an engine does not support.
#![tactic(auto)]

mod character;
mod class;
mod class_task;
mod leaf;
mod outcome;
mod printing;
mod property;
mod quantifier;
mod reading;
mod recursive;
pub mod support;
mod task;
mod term;
pub mod visit;
mod write;

pub use outcome::Canonical;
pub use printing::{append_canonical, canonical_text};
pub use reading::{canonical, read_pattern};
pub use recursive::write_canonical;
pub use rx_display::display_text;
pub use rx_model::{Form, Mode};
pub use rx_parser::Options;
