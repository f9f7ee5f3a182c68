//! How a linter calls the library: it reads a literal, walks over the tree with a visitor of its own, and tells where each lookbehind and each named
//! group stands.
#![tactic(auto)]

mod note;
mod reading;
#[cfg(test)]
mod tests;
mod visitor;

pub use note::{Note, Noted};
pub use reading::notes;
