//! The text of a node, as `{}` writes it. It shows how each character was escaped, and joins surrogates that stand one after the other. Nothing here
//! takes memory.

mod character;
mod class;
mod leaf;
mod neighbours;
pub mod parts;
mod term;
