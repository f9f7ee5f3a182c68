//! What programs in C call, and in languages that call C: a pattern is read to the records of its tree and to its canonical spelling, or to a refusal.
#![tactic(auto)]

mod codes;
mod exports;
mod options;
mod question;
mod reading;
mod refusal;
mod telling;
mod text;
mod units;

pub use exports::{tb_read, tb_version};
pub use options::Options;
pub use reading::Reading;
pub use refusal::Refusal;
