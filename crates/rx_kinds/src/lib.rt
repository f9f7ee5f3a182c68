//! Nodes of every type: the numbers of their kinds, how many nodes stand in them, and which node a term is.
#![tactic(auto)]

mod codes;
mod nodes;

pub use codes::{boundary_code, character_code, class_escape_code, contents_code, look_code};
pub use nodes::{character_in, count, is_leaf, node_in};
