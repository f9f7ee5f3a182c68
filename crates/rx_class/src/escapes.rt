//! Character and class escapes: look, with neither `u` nor `v` for those of B.1.2 too, then move.

pub(crate) mod common;
pub(crate) mod escape;
pub(crate) mod found;
pub(crate) mod legacy;
