//! What replies are made of: how numbers, places and spans are written, which flags a request has, and what these ask of a match.
#![tactic(auto)]

mod decimal;
mod flags;
mod places;

pub use decimal::add_decimal;
pub use flags::{has_flag, match_flags};
pub use places::{add_range, add_span};
