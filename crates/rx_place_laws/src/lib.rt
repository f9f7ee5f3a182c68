//! Laws of the places in replies: each stands between characters of the text that it is told of; which do not, and what they get in UTF-16.
#![tactic(auto)]

pub mod laws;
