//! The replies to a pattern that is matched on a text: what is found, what stops the match, and how many Ticks it takes.
#![tactic(auto)]

mod found;
mod replies;

pub use replies::{add_match, add_ticks};
