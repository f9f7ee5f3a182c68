ghost use Rattle.std.specs.Prelude.{◌≡◌, IfOk, map};
ghost use Rattle.std.specs.List.{list_any};
ghost use Rattle.rx_ast.specs.Kinds.{pattern as pattern_kind, order};
ghost use Rattle.rx_ast.specs.MirrorKinds.{mirror_kind};
ghost use Rattle.rx_ast.specs.Tree.{mirror};
ghost use Rattle.rx_visit.specs.Names.{is_refused_alone};
ghost use Rattle.rx_visit.specs.Patterns.{is_refused_pattern};

use crate::names::has_equal_names;
use crate::order::nodes_in_order;
use crate::patterns::{RegexUnsupportedPatterns, is_refused_alone};
use rx_ast::{Pattern, RegExpAstKind};
use rx_base::OutOfMemory;
use std::alloc::Global;

/// Whether some node of a pattern, at any depth, is not supported. It takes memory, and neither a deep stack for a deep pattern nor
/// a walk for each name.
// Why: docs/DECISIONS.md, 55.
pub fn has_unsupported_regular_expression_pattern_in(
    alloc: Global,
    pattern: &Pattern,
    unsupported: &RegexUnsupportedPatterns,
) -> Result<bool, OutOfMemory>
    ensures { IfOk result (λ found. found ≡ is_refused_pattern unsupported.now (order (pattern_kind (mirror pattern.now)))) }
{
    let nodes = nodes_in_order(alloc, pattern)?;
    let nodes = nodes.as_slice();
    if has_refused_alone(nodes, unsupported) {
        return Ok(true);
    }
    if unsupported.duplicate_named_capture_groups {
        has_equal_names(alloc, nodes)
    } else {
        Ok(false)
    }
}

/// Whether one of the nodes is not supported whatever stands beside it.
fn has_refused_alone(nodes: &[RegExpAstKind<'_>], unsupported: &RegexUnsupportedPatterns) -> bool
    ensures { result ≡ list_any (is_refused_alone unsupported.now) (map mirror_kind nodes.now) }
{
    nodes
        .iter()
        .any(|node| is_refused_alone(*node, unsupported))
}
