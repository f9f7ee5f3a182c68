//! How a crate calls the library: it reads a literal, tells what a linter shows of it, and walks the tree.
#![tactic(auto)]

mod finding;
mod groups;
#[cfg(test)]
mod tests;

pub use finding::{Finding, Refused, inspect};
pub use groups::capturing_groups;
