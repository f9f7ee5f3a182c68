//! What a quoted text, a string literal or a template, is made of, and how its elements are read.

pub(crate) mod digits;
mod element;
pub(crate) mod escape;
pub(crate) mod found;
mod literal;
pub(crate) mod reading;
pub(crate) mod string_front;
pub(crate) mod template_front;
pub(crate) mod value;

pub use element::{Element, Writing};
pub use literal::Literal;
