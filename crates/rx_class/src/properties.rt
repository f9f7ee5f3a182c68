//! Property escapes: the forms of what stands there, what is found, what is answered.

pub(crate) mod form;
pub(crate) mod found;
pub(crate) mod property;
