ghost use Rattle.std.specs.Prelude.{◌≡◌, ◌↔◌, IsTrue};
ghost use Rattle.rx_ast.specs.Tree.{mirror};
ghost use Rattle.rx_paint.specs.NestingSteps.{move_to};
ghost use Rattle.rx_ast.specs.Parts.{IsNestedPattern};

use crate::paint_of::{modifiers_of, paint_of};
use rx_ast::{Pattern, RegExpAstKind};
use rx_base::GetSpan;
use rx_visit::{Visit, walk_pattern};

/// How far the beginnings and ends of nodes have come, in the order in which a walk passes them, and whether none lies before an earlier one.
#[derive(Clone, Copy)]
struct Nesting {
    at: u32,
    in_order: bool,
}

impl Nesting {
    /// Comes to a beginning or an end.
    fn move_to(self, at: u32) -> Nesting
        ensures { result ≡ move_to self at }
    {
        Nesting {
            at,
            in_order: self.in_order && self.at <= at,
        }
    }
}

impl Visit for Nesting {
    ghost use Rattle.rx_paint.specs.NestingSteps.{Enters, Leaves};

    ghost entered = { λ v kind answer w. Enters v kind answer w };

    ghost left = { λ v kind w. Leaves v kind w };

    fn enter_node(&mut self, kind: RegExpAstKind<'_>) -> bool {
        if paint_of(kind).is_some() {
            *self = self.move_to(kind.span().start);
            if let Some(modifiers) = modifiers_of(kind) {
                *self = self.move_to(modifiers.start).move_to(modifiers.end);
            }
        }
        true
    }

    fn leave_node(&mut self, kind: RegExpAstKind<'_>) {
        if paint_of(kind).is_some() {
            *self = self.move_to(kind.span().end);
        }
    }
}

/// Whether the nodes of a pattern are nested: each ends no earlier than it begins, lies within its parent, and ends no later than its next sibling begins.
/// The modifiers of a group count as a node before its body.
///
/// This takes no memory from an allocator, but stack for each level of groups and of nested classes. A pattern that is read is nested, so there is no need to ask.
pub fn nested(pattern: &Pattern) -> bool
    ensures { IsTrue result ↔ IsNestedPattern (mirror pattern.now) }
{
    let mut nesting = Nesting {
        at: pattern.span.start,
        in_order: true,
    };
    walk_pattern(&mut nesting, pattern);
    nesting.in_order
}
