ghost use Rattle.std.specs.Prelude.{◌<◌, ◌∷◌, OnOk, sum_by};
ghost use Rattle.rx_ast.specs.Kinds.{pattern as pattern_kind};
ghost use Rattle.rx_ast.specs.MirrorKinds.{mirror_kind};
ghost use Rattle.rx_ast.specs.Tree.{mirror};
ghost use Rattle.rx_tasks.specs.Tasks.{tasks_of};
ghost use Rattle.rx_visit.specs.Siblings.{in_order};
ghost use Rattle.rx_visit.specs.Steps.{Begins, nodes_weight, step_weight};
ghost use Rattle.rx_visit.specs.Visits.{Visited};

use crate::siblings::{Siblings, children_of};
use crate::visit::Visit;
use rx_ast::{Pattern, RegExpAstKind};
use rx_base::OutOfMemory;
use rx_tasks::{Next, Work, work_through};
use std::alloc::Global;

/// What is still to be done of a walk.
#[derive(Clone, Copy)]
enum Step<'a> {
    /// To visit nodes, one after the other.
    Visit(Siblings<'a>),

    /// To leave a node, whose nodes were visited.
    Leave(RegExpAstKind<'a>),
}

impl<'a, V: Visit> Work<V> for Step<'a> {
    ghost use Rattle.rx_visit.specs.Steps.{does_step, step_weight};

    ghost does = { λ step v w. does_step V.entered V.left step v w };

    ghost weight = { step_weight };

    fn work(self, _alloc: Global, visitor: &mut V) -> Result<Next<Self>, OutOfMemory> {
        match self {
            Step::Leave(node) => {
                visitor.leave_node(node);
                Ok(Next::Nothing)
            }
            Step::Visit(siblings) => Ok(visit_first(visitor, siblings)),
        }
    }
}

/// Visits the first of some nodes, and answers what is left to be done of them all.
fn visit_first<'a, V: Visit>(visitor: &mut V, siblings: Siblings<'a>) -> Next<Step<'a>>
    ensures begins { Begins V.entered V.left (in_order siblings.entry) visitor.old visitor.new (tasks_of result) }
    ensures lighter { sum_by step_weight (tasks_of result) < nodes_weight (in_order siblings.entry) }
{
    let Some((node, following)) = siblings.split_first() else {
        return Next::Nothing;
    };
    visit_before(visitor, node, following)
}

/// Visits a node that stands before others, and answers what is left to be done of it and of those.
fn visit_before<'a, V: Visit>(
    visitor: &mut V,
    node: RegExpAstKind<'a>,
    following: Siblings<'a>,
) -> Next<Step<'a>>
    ensures begins { Begins V.entered V.left (mirror_kind node.entry ∷ in_order following.entry) visitor.old visitor.new (tasks_of result) }
    ensures lighter { sum_by step_weight (tasks_of result) < nodes_weight (mirror_kind node.entry ∷ in_order following.entry) }
{
    if visitor.enter_node(node) {
        let within = Step::Visit(children_of(node));
        return Next::Three(within, Step::Leave(node), Step::Visit(following));
    }
    visitor.leave_node(node);
    Next::One(Step::Visit(following))
}

/// Visits a whole pattern, as `walk_pattern` does. What is still to be done waits on the heap: it takes memory, and no deeper stack
/// for a deeper tree. After OutOfMemory the visitor has seen a front of the walk: some nodes were entered and not left.
// Why: docs/DECISIONS.md, 52.
pub fn walk_pattern_in<V: Visit>(
    alloc: Global,
    visitor: &mut V,
    pattern: &Pattern,
) -> Result<(), OutOfMemory>
    ensures { OnOk result (Visited V.entered V.left visitor.old (pattern_kind (mirror pattern.now)) visitor.new) }
{
    let whole = Siblings::Node(RegExpAstKind::Pattern(pattern));
    work_through(alloc, visitor, Step::Visit(whole))
}
