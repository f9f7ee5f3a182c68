//! One line of JSON that asks for a pattern, and the line of JSON that it is answered.
#![tactic(auto)]

mod answer;
mod field;
pub mod laws;
mod member;
mod members;
mod parse;
mod replies;
mod request;
mod unsupported;
mod value;
mod want;
mod wrong;

pub use replies::{LINE_LIMIT, Replies};
pub use request::Request;
pub use want::Want;
pub use wrong::Wrong;
