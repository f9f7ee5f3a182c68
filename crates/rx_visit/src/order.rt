ghost use Rattle.std.specs.Prelude.{◌≡◌, IfOk, map};
ghost use Rattle.rx_ast.specs.Kinds.{pattern as pattern_kind, order};
ghost use Rattle.rx_ast.specs.MirrorKinds.{mirror_kind};
ghost use Rattle.rx_ast.specs.Tree.{mirror};

use crate::siblings::{Siblings, children_of};
use rx_ast::{Pattern, RegExpAstKind};
use rx_base::{List, OutOfMemory};
use rx_tasks::{Next, Work, work_through};
use std::alloc::Global;

/// To list nodes, each before those that stand in it.
impl<'a> Work<List<RegExpAstKind<'a>>> for Siblings<'a> {
    ghost use Rattle.rx_visit.specs.Orders.{all_in_order, lists, siblings_weight};

    ghost does = { λ siblings old new. lists old (all_in_order siblings) new };

    ghost weight = { siblings_weight };

    fn work(
        self,
        _alloc: Global,
        nodes: &mut List<RegExpAstKind<'a>>,
    ) -> Result<Next<Self>, OutOfMemory> {
        let Some((node, following)) = self.split_first() else {
            return Ok(Next::Nothing);
        };
        nodes.push(node)?;
        Ok(Next::Two(children_of(node), following))
    }
}

/// All nodes of a pattern in the order of the text, each before those that stand in it. What is left to be listed waits on the
/// heap, so a deep pattern needs no deep stack.
pub fn nodes_in_order(
    alloc: Global,
    pattern: &Pattern,
) -> Result<List<RegExpAstKind<'_>>, OutOfMemory>
    ensures { IfOk result (λ nodes. map mirror_kind nodes ≡ order (pattern_kind (mirror pattern.now))) }
{
    let mut nodes = List::new(alloc);
    let whole = Siblings::Node(RegExpAstKind::Pattern(pattern));
    work_through(alloc, &mut nodes, whole)?;
    Ok(nodes)
}
