//! Classes with `v`: what a bracket holds, the builder, what stands next, what is done with it, the loop.

pub(crate) mod builder;
pub(crate) mod character;
pub(crate) mod class;
pub(crate) mod common;
pub(crate) mod front;
pub(crate) mod held;
pub(crate) mod open_bracket;
pub(crate) mod operand;
pub(crate) mod operator;
pub(crate) mod refusal;
pub(crate) mod strings;
pub(crate) mod turn;
