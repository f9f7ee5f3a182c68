//! What a pattern is, what it spells, and what it is spelled as: the definitions that every contract cites, and their laws.
#![tactic(auto)]

pub mod class_sequence;
mod form;
pub mod laws;
pub mod mark_laws;
mod mode;
mod rules;
pub mod sequence;

pub use form::Form;
pub use mode::Mode;
pub use rules::Rules;
