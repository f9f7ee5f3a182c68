//! The replies to a pattern that is rewritten: the plainer pattern, or why there is none.
#![tactic(auto)]

mod flags;
pub mod laws;
mod replies;

pub use replies::{Rewriting, add_rewritten};
