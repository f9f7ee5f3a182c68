//! Places of a text in bytes, and in the code units of UTF-16.
#![tactic(auto)]

pub mod laws;
mod places;

pub use places::Places;
