//! The reply to a pattern that is linted: its findings.
#![tactic(auto)]

mod findings;
mod replies;

pub use findings::add_findings_text;
pub use replies::add_findings;
