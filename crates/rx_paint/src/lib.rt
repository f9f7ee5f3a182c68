//! The painter: tokens that tile the span of a pattern, each with what it is painted as.
#![tactic(auto)]

pub mod laws;
mod nesting;
mod paint_of;
mod painting;
mod step;
mod token;

pub use nesting::nested;
pub use painting::paint;
pub use token::{Kind, Token};
