//! The text of a pattern as `Display` writes it, however deep the pattern nests: by a loop over tasks on the heap.
#![tactic(auto)]

mod class_task;
mod pair;
mod printing;
mod task;
mod writer;

pub use printing::display_text;
