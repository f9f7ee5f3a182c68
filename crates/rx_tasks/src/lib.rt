//! Tasks on the heap in place of recursion: however deep what they do is nested, it takes no deep stack.
#![tactic(auto)]

mod next;
mod work;

pub use next::Next;
pub use work::{Work, work_through};
