//! Walks over the tree of a pattern, and what an engine may not support of it.
#![tactic(auto)]

mod buffers;
mod class;
mod flags;
mod leaf;
mod names;
mod order;
mod patterns;
mod patterns_in;
mod siblings;
mod term;
mod visit;
mod walk_in;

pub use buffers::{has_buffer_boundaries, has_buffer_boundaries_in};
pub use class::{
    walk_character_class, walk_character_class_contents, walk_character_class_range,
    walk_character_class_string, walk_character_class_string_disjunction,
};
pub use flags::{RegexUnsupportedFlags, has_unsupported_regular_expression_flags};
pub use leaf::{
    walk_boundary_assertion, walk_character, walk_character_class_escape, walk_dot,
    walk_indexed_reference, walk_named_reference, walk_unicode_property_escape,
};
pub use order::nodes_in_order;
pub use patterns::{RegexUnsupportedPatterns, has_unsupported_regular_expression_pattern};
pub use patterns_in::has_unsupported_regular_expression_pattern_in;
pub use siblings::{Siblings, children_of};
pub use term::{
    walk_alternative, walk_capturing_group, walk_disjunction, walk_ignore_group,
    walk_lookaround_assertion, walk_pattern, walk_quantifier, walk_term,
};
pub use visit::Visit;
pub use walk_in::walk_pattern_in;
