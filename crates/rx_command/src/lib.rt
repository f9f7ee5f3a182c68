//! What the words of the command line ask for: with which options lines are read, and what is said of each; or a text, or patterns that are made.
#![tactic(auto)]

mod answer;
mod command;
mod constructs;
mod dialect;
mod features;
mod notice;
mod number;
mod service;
mod subject;

pub use answer::Answering;
pub use command::Command;
pub use dialect::Dialect;
pub use features::{Feature, Features};
pub use notice::Notice;
pub use service::Service;
pub use subject::Subject;
