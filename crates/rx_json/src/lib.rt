//! What is said of patterns as JSON: trees, groups and refusals, with places in bytes and in UTF-16, written token by token.
#![tactic(auto)]

mod close;
mod groups;
mod kinds;
mod leaf;
mod member;
mod node;
mod refusal;
mod tree;
mod values;

pub use groups::write_groups;
pub use member::{write_characters, write_text};
pub use refusal::write_refusal;
pub use tree::write_tree;
