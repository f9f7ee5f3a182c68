//! Comparing nodes by content: they are the same but for their spans, and of modifiers only the bits that have a meaning count.

mod class;
mod leaf;
mod term;
