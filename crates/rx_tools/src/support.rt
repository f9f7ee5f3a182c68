//! Which flags and patterns need what an engine may lack.

pub use rx_visit::{
    RegexUnsupportedFlags, RegexUnsupportedPatterns, has_buffer_boundaries,
    has_buffer_boundaries_in, has_unsupported_regular_expression_flags,
    has_unsupported_regular_expression_pattern, has_unsupported_regular_expression_pattern_in,
};
