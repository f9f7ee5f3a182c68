//! Laws of the replies. The functions do nothing: each contract is a law.
pub mod groups;
pub mod texts;
