ghost use Rattle.std.specs.Prelude.{◌≡◌, IfOk, map};
ghost use Rattle.std.specs.List.{list_any};
ghost use Rattle.rx_ast.specs.Kinds.{pattern as pattern_kind, order};
ghost use Rattle.rx_ast.specs.MirrorKinds.{mirror_kind};
ghost use Rattle.rx_ast.specs.Tree.{mirror};
ghost use Rattle.rx_visit.specs.Buffers.{has_buffer_boundaries, is_buffer_boundary, is_of_buffer};

use crate::order::nodes_in_order;
use crate::term::walk_pattern;
use crate::visit::Visit;
use rx_ast::{BoundaryAssertionKind, Pattern, RegExpAstKind};
use rx_base::OutOfMemory;
use std::alloc::Global;

/// Whether a pattern has a boundary `\A`, `\z` or `\Z`, at any depth (regular expression buffer boundaries). It takes no memory, and
/// a deeper stack for a deeper tree.
// Why: docs/DECISIONS.md, 73.
pub fn has_buffer_boundaries(pattern: &Pattern) -> bool
    ensures { result ≡ has_buffer_boundaries (order (pattern_kind (mirror pattern.now))) }
{
    let mut finder = BufferFinder { found: false };
    walk_pattern(&mut finder, pattern);
    finder.found
}

/// Whether a pattern has a boundary `\A`, `\z` or `\Z`, at any depth (regular expression buffer boundaries). It takes memory, and no
/// deep stack for a deep pattern.
pub fn has_buffer_boundaries_in(alloc: Global, pattern: &Pattern) -> Result<bool, OutOfMemory>
    ensures { IfOk result (λ found. found ≡ has_buffer_boundaries (order (pattern_kind (mirror pattern.now)))) }
{
    let nodes = nodes_in_order(alloc, pattern)?;
    Ok(is_buffer_boundary_among(nodes.as_slice()))
}

/// Looks for a boundary of the buffer, until one is found.
#[derive(Drop)]
struct BufferFinder {
    found: bool,
}

impl Visit for BufferFinder {
    ghost use Rattle.rx_visit.specs.Finders.{FindsBuffers};

    ghost entered = { λ v kind answer w. FindsBuffers v kind answer w };

    ghost left = { λ v kind w. w ≡ v };

    fn enter_node(&mut self, kind: RegExpAstKind<'_>) -> bool {
        self.found = self.found || is_buffer_boundary(kind);
        !self.found
    }

    fn leave_node(&mut self, _kind: RegExpAstKind<'_>) {}
}

/// Whether one of the nodes is a boundary of the buffer.
fn is_buffer_boundary_among(nodes: &[RegExpAstKind<'_>]) -> bool
    ensures { result ≡ list_any is_buffer_boundary (map mirror_kind nodes.now) }
{
    nodes.iter().any(|node| is_buffer_boundary(*node))
}

/// Whether a node is a boundary of the buffer.
fn is_buffer_boundary(kind: RegExpAstKind<'_>) -> bool
    ensures { result ≡ is_buffer_boundary (mirror_kind kind.entry) }
{
    match kind {
        RegExpAstKind::BoundaryAssertion(it) => is_of_buffer(it.kind),
        _ => false,
    }
}

fn is_of_buffer(kind: BoundaryAssertionKind) -> bool
    ensures { result ≡ is_of_buffer kind }
{
    match kind {
        BoundaryAssertionKind::StartBuffer => true,
        BoundaryAssertionKind::EndBuffer => true,
        BoundaryAssertionKind::EndBufferOptionalNewline => true,
        BoundaryAssertionKind::Start => false,
        BoundaryAssertionKind::End => false,
        BoundaryAssertionKind::Boundary => false,
        BoundaryAssertionKind::NegativeBoundary => false,
    }
}
