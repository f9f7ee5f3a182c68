//! What a pattern matches in a text: the trace of a tree, with a Tick for each term that is tried, and what a matcher answers by it (docs/MATCH.md).
#![tactic(auto)]

mod answer;
pub mod laws;
mod settings;
mod units;

pub use answer::{Found, MatchFault, MatchFlags, Slot};
pub use settings::{Settings, settings_after, settings_at_start, unsupported_modifiers};
pub use units::units_of;
