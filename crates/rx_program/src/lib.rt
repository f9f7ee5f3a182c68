//! A program of a pattern: steps that say what is tried, one thing after the other. A matcher runs it.
#![tactic(auto)]

mod builder;
mod characters;
mod checks;
mod classes;
mod compiler;
mod kinds;
mod names;
mod row_builder;
mod step;
mod survey;

pub use builder::Context;
pub use characters::{is_line_terminator, is_word};
pub use checks::ClassRow;
pub use classes::class_rows;
pub use compiler::{Program, compile};
pub use kinds::looks_back;
pub use names::{GroupNames, slot_among};
pub use step::{Step, Test, Turns, test_holds};
pub use survey::{Survey, survey_tree};
