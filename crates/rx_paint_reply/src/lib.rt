//! The replies to a pattern that is painted: its tokens, and its text in the colours of a terminal.
#![tactic(auto)]

mod color;
pub mod laws;
mod replies;
mod tokens;

pub use replies::{add_colors, add_tokens};
pub use tokens::add_tokens_text;
