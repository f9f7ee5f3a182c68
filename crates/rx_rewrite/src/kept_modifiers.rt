ghost use Rattle.std.specs.Prelude.{◌≡◌, IfOk, map};
ghost use Rattle.rx_ast.specs.MirrorKinds.{mirror_kind};
ghost use Rattle.rx_ast.specs.Tree.{mirror};
ghost use Rattle.rx_rewrite.specs.KeptModifiers.{first_left as first_left_of, kept_modifiers_at as left_at_node, kept_modifiers_in};

use rx_ast::{Pattern, RegExpAstKind};
use rx_base::{OutOfMemory, Span};
use rx_trace::unsupported_modifiers;
use rx_visit::nodes_in_order;
use std::alloc::Global;

/// The span of the first modifiers that turn the ignoring of case on or off, which no rewriting takes away.
// Why: docs/DECISIONS.md, 88.
pub fn modifiers_left(alloc: Global, pattern: &Pattern) -> Result<Option<Span>, OutOfMemory>
    ensures { IfOk result (λ it. it ≡ kept_modifiers_in (mirror pattern.now)) }
{
    let nodes = nodes_in_order(alloc, pattern)?;
    Ok(first_left(nodes.as_slice()))
}

fn first_left(nodes: &[RegExpAstKind<'_>]) -> Option<Span>
    ensures { result ≡ first_left_of (map mirror_kind nodes.now) }
{
    for node in nodes {
        let left = kept_modifiers_at(*node);
        if left.is_some() {
            return left;
        }
    }
    None
}

/// The span of the modifiers of a node, where they turn the ignoring of case on or off.
fn kept_modifiers_at(node: RegExpAstKind<'_>) -> Option<Span>
    ensures { result ≡ left_at_node (mirror_kind node.entry) }
{
    match node {
        RegExpAstKind::IgnoreGroup(group) => unsupported_modifiers(&group.modifiers),
        _ => None,
    }
}
