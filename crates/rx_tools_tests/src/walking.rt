use crate::trees::read;
use rx_ast::RegExpAstKind;
use rx_tools::visit::*;
use std::alloc::Global;
use std::test::Fail;

/// Compares the names of the nodes that it enters with those that are due.
#[derive(Clone, Copy)]
struct Names<'a> {
    /// The names of the nodes that are still to be entered, or `?` after a node of another name.
    due: &'a str,

    /// Whether it descends into the nodes that it enters.
    descends: bool,

    /// How many nodes were entered and not left.
    open: usize,
}

impl<'a> Names<'a> {
    fn new(due: &'a str, descends: bool) -> Names<'a> {
        Names {
            due,
            descends,
            open: 0,
        }
    }

    /// The names that are still due, where each node was left that was entered.
    fn end(self) -> &'a str {
        if self.open == 0 { self.due } else { "?" }
    }
}

impl Visit for Names<'_> {
    ghost entered = { λ _ _ _ _. Unit {0} };

    ghost left = { λ _ _ _. Unit {0} };

    fn enter_node(&mut self, kind: RegExpAstKind<'_>) -> bool {
        let (name, others) = self.due.split_once(' ').unwrap_or((self.due, ""));
        self.due = if name == name_of(kind) { others } else { "?" };
        self.open = self.open.wrapping_add(1);
        self.descends
    }

    fn leave_node(&mut self, _kind: RegExpAstKind<'_>) {
        self.open = self.open.wrapping_sub(1);
    }
}

fn name_of(kind: RegExpAstKind<'_>) -> &'static str {
    match kind {
        RegExpAstKind::Pattern(_) => "Pattern",
        RegExpAstKind::Disjunction(_) => "Disjunction",
        RegExpAstKind::Alternative(_) => "Alternative",
        RegExpAstKind::Term(_) => "Term",
        RegExpAstKind::LookAroundAssertion(_) => "LookAroundAssertion",
        RegExpAstKind::Quantifier(_) => "Quantifier",
        RegExpAstKind::CapturingGroup(_) => "CapturingGroup",
        RegExpAstKind::IgnoreGroup(_) => "IgnoreGroup",
        RegExpAstKind::BoundaryAssertion(_) => "BoundaryAssertion",
        RegExpAstKind::Character(_) => "Character",
        RegExpAstKind::Dot(_) => "Dot",
        RegExpAstKind::CharacterClassEscape(_) => "CharacterClassEscape",
        RegExpAstKind::UnicodePropertyEscape(_) => "UnicodePropertyEscape",
        RegExpAstKind::CharacterClass(_) => "CharacterClass",
        RegExpAstKind::CharacterClassContents(_) => "CharacterClassContents",
        RegExpAstKind::CharacterClassRange(_) => "CharacterClassRange",
        RegExpAstKind::CharacterClassStringDisjunction(_) => "CharacterClassStringDisjunction",
        RegExpAstKind::CharacterClassString(_) => "CharacterClassString",
        RegExpAstKind::IndexedReference(_) => "IndexedReference",
        RegExpAstKind::NamedReference(_) => "NamedReference",
    }
}

/// Walks over a node by the call for its type.
fn walk(visitor: &mut Names<'_>, node: RegExpAstKind<'_>) {
    match node {
        RegExpAstKind::Pattern(it) => walk_pattern(visitor, it),
        RegExpAstKind::Disjunction(it) => walk_disjunction(visitor, it),
        RegExpAstKind::Alternative(it) => walk_alternative(visitor, it),
        RegExpAstKind::Term(it) => walk_term(visitor, it),
        RegExpAstKind::LookAroundAssertion(it) => walk_lookaround_assertion(visitor, it),
        RegExpAstKind::Quantifier(it) => walk_quantifier(visitor, it),
        RegExpAstKind::CapturingGroup(it) => walk_capturing_group(visitor, it),
        RegExpAstKind::IgnoreGroup(it) => walk_ignore_group(visitor, it),
        RegExpAstKind::BoundaryAssertion(it) => walk_boundary_assertion(visitor, it),
        RegExpAstKind::Character(it) => walk_character(visitor, it),
        RegExpAstKind::Dot(it) => walk_dot(visitor, it),
        RegExpAstKind::CharacterClassEscape(it) => walk_character_class_escape(visitor, it),
        RegExpAstKind::UnicodePropertyEscape(it) => walk_unicode_property_escape(visitor, it),
        RegExpAstKind::CharacterClass(it) => walk_character_class(visitor, it),
        RegExpAstKind::CharacterClassContents(it) => walk_character_class_contents(visitor, it),
        RegExpAstKind::CharacterClassRange(it) => walk_character_class_range(visitor, it),
        RegExpAstKind::CharacterClassStringDisjunction(it) => {
            walk_character_class_string_disjunction(visitor, it)
        }
        RegExpAstKind::CharacterClassString(it) => walk_character_class_string(visitor, it),
        RegExpAstKind::IndexedReference(it) => walk_indexed_reference(visitor, it),
        RegExpAstKind::NamedReference(it) => walk_named_reference(visitor, it),
    }
}

/// The names that are still due when a node was walked over by its own call.
fn after<'a>(node: RegExpAstKind<'_>, due: &'a str, descends: bool) -> &'a str {
    let mut visitor = Names::new(due, descends);
    walk(&mut visitor, node);
    visitor.end()
}

/// Whether these are the names of the nodes, and each walk over one of them meets them from there on: one that descends, and one that does not.
fn walks_agree(nodes: &[RegExpAstKind<'_>], names: &str) -> bool {
    let mut due = names;
    for node in nodes {
        if after(*node, due, true) == "?" {
            return false;
        }
        due = after(*node, due, false);
    }
    due.is_empty()
}

/// Whether these are the names of the nodes of a pattern, in the order in which each walk enters them.
fn are_names(alloc: Global, text: &str, names: &str) -> Result<bool, Fail> {
    let pattern = read(alloc, text)?;
    let mut visitor = Names::new(names, true);
    walk_pattern_in(alloc, &mut visitor, &pattern)?;
    let nodes = nodes_in_order(alloc, &pattern)?;
    Ok(visitor.end().is_empty() && walks_agree(nodes.as_slice(), names))
}

const NAMES: &str = "a|. => Pattern Disjunction Alternative Term Character Alternative Term Dot
 => Pattern Disjunction Alternative Term IgnoreGroup Disjunction Alternative
(?<n>\\d)\\k<n>\\1 => Pattern Disjunction Alternative Term CapturingGroup Disjunction Alternative Term CharacterClassEscape Term NamedReference Term IndexedReference
(?i:^)*?(?=\\p{L}) => Pattern Disjunction Alternative Term Quantifier Term IgnoreGroup Disjunction Alternative Term BoundaryAssertion Term LookAroundAssertion Disjunction Alternative Term UnicodePropertyEscape
[a-b\\w\\p{L}] => Pattern Disjunction Alternative Term CharacterClass CharacterClassContents CharacterClassRange Character Character CharacterClassContents CharacterClassEscape CharacterClassContents UnicodePropertyEscape
[c[d]\\q{ef|g}]h => Pattern Disjunction Alternative Term CharacterClass CharacterClassContents Character CharacterClassContents CharacterClass CharacterClassContents Character CharacterClassContents CharacterClassStringDisjunction CharacterClassString Character Character CharacterClassString Character Term Character";

#[test]
fn walks_enter_nodes_in_the_order_of_the_text(rt: HostRuntime) -> Result<(), Fail> {
    for row in NAMES.lines() {
        let (text, names) = row.split_once(" => ").ok_or("no names")?;
        assert!(rt; are_names(rt.alloc(), text, names)?, "{text}");
    }
    Ok(())
}
