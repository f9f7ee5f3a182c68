//! The tree of a pattern as a list of flat records, one for each node, which programs in other languages read.
#![tactic(auto)]

pub mod codes;
mod laws;
mod node;
mod own;
mod records;
mod walk;

pub use laws::{groups_are_numbered, records_are_linked, records_are_trees, records_have_names};
pub use node::{Node, Range};
pub use records::Records;
pub use walk::records_of;
