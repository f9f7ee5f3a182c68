//! A matcher of patterns with a budget: the first of a pattern's outcomes on an input, in a stated number of Ticks (docs/MATCH.md).
#![tactic(auto)]

mod backtracking;
mod cut;
mod entry;
mod holds;
mod kinds;
mod machine;
mod searching;
mod slots;
mod turns;
mod unit_turns;

pub use rx_trace::{Found, MatchFault, MatchFlags, Slot, units_of};
pub use searching::{match_at, search, ticks_of_search};
