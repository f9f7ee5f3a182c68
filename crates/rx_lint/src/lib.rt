//! Findings in a pattern: what is likely a slip, or can be written shorter.
#![tactic(auto)]

mod earlier;
mod finding;
mod items;
pub mod laws;
mod linting;
mod names;
mod numbers;
mod ranges;
mod rows;
mod rules;

pub use finding::{Finding, Rule};
pub use linting::lint;
