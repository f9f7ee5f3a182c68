//! What every other crate stands on: spans, texts and lists that contracts see as plain data, the faults, and
//! the ends of the program, where bytes come from and go to.
#![tactic(auto)]

mod clean;
mod content_eq;
mod diagnostic;
mod ends;
mod fault;
mod fill;
mod flags;
mod list;
mod memory;
mod out_of_memory;
mod span;
mod steps;
mod surrogate_pair;
mod tally;
mod text;
mod text_sink;
mod write;

pub use clean::{CleanSink, CleanSource};
pub use content_eq::ContentEq;
pub use diagnostic::{Diagnostic, DigitsKind, PropertyPart, RangeKind, SetOperator, Unterminated};
pub use ends::{Failed, Sink, Source};
pub use fault::Fault;
pub use flags::is_flag;
pub use list::List;
pub use memory::{MemorySink, MemorySource};
pub use out_of_memory::OutOfMemory;
pub use span::{GetSpan, Span};
pub use steps::{Counter, Steps};
pub use surrogate_pair::{
    combine_surrogate_pair, is_lead_surrogate, is_surrogate, is_trail_surrogate,
};
pub use tally::Tally;
pub use text::Text;
pub use text_sink::TextSink;
pub use write::write_all;
