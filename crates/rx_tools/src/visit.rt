//! Walks over a tree with a visitor, and the nodes of a tree in order.

pub use rx_ast::RegExpAstKind;
pub use rx_visit::{
    Visit, nodes_in_order, walk_alternative, walk_boundary_assertion, walk_capturing_group,
    walk_character, walk_character_class, walk_character_class_contents,
    walk_character_class_escape, walk_character_class_range, walk_character_class_string,
    walk_character_class_string_disjunction, walk_disjunction, walk_dot, walk_ignore_group,
    walk_indexed_reference, walk_lookaround_assertion, walk_named_reference, walk_pattern,
    walk_pattern_in, walk_quantifier, walk_term, walk_unicode_property_escape,
};
