ghost use Rattle.std.specs.Prelude.{◌≡◌, ◌<◌, IfOk, MatchOption, OnOk, length, sum_by};
ghost use Rattle.std.specs.String.{string_bytes};
ghost use Rattle.rx_ast.specs.Kinds.{children};
ghost use Rattle.rx_ast.specs.MirrorKinds.{mirror_kind};
ghost use Rattle.rx_ast.specs.Tree.{mirror};
ghost use Rattle.rx_kinds.specs.Inner.{node_of};
ghost use Rattle.rx_records.specs.Made.{Adds, AddsNode, finishes, task_weight};
ghost use Rattle.rx_records.specs.Records.{AreRecords, nodes_of};
ghost use Rattle.rx_tasks.specs.Tasks.{Leads, tasks_of};
ghost use Rattle.rx_visit.specs.Siblings.{in_order};

use crate::records::{Links, Records, as_u32};
use rx_ast::{Pattern, RegExpAstKind};
use rx_base::OutOfMemory;
use rx_kinds::{character_in, count, is_leaf, node_in};
use rx_tasks::{Next, Work, work_through};
use rx_visit::{Siblings, children_of};
use std::alloc::Global;

/// What is left of a node: nodes that stand in it, and then its end.
#[derive(Clone, Copy)]
pub struct Task<'a> {
    /// The index of the node.
    pub of: u32,

    pub rest: Siblings<'a>,
}

impl<'a> Work<Records> for Task<'a> {
    ghost use Rattle.rx_records.specs.Made.{finishes, task_weight};

    ghost does = { finishes };

    ghost weight = { task_weight };

    #[inline(always)]
    fn work(self, _alloc: Global, made: &mut Records) -> Result<Next<Self>, OutOfMemory> {
        add_nodes(made, self)
    }
}

/// Adds the nodes up to the first in which others may stand, and that one: what stands in it and what is after it are left. Where there is none, the node
/// in which they stand is ended.
fn add_nodes<'a>(made: &mut Records, task: Task<'a>) -> Result<Next<Task<'a>>, OutOfMemory>
    ensures leads { IfOk result (λ next. Leads finishes task.entry made.old made.new (tasks_of next)) }
    ensures lighter { IfOk result (λ next. sum_by task_weight (tasks_of next) < task_weight task.entry) }
{
    let mut rest = task.rest;
    while let Some((first, following)) = rest.split_first() {
        if let Some(node) = add_if_leaf(made, first)? {
            let inner = open(made, node)?;
            let after = Task {
                of: task.of,
                rest: following,
            };
            return Ok(Next::Two(inner, after));
        }
        rest = following;
    }
    made.end(task.of)?;
    Ok(Next::Nothing)
}

/// Adds a node in which none can stand. Any other is answered, and is still to be opened.
#[inline(always)]
fn add_if_leaf<'a>(
    made: &mut Records,
    first: RegExpAstKind<'a>,
) -> Result<Option<RegExpAstKind<'a>>, OutOfMemory>
    ensures { IfOk result (λ left. MatchOption left (Adds made.old made.new (nodes_of (mirror_kind first.entry))) (λ node. (made.new ≡ made.old) × (mirror_kind node ≡ node_of (mirror_kind first.entry)))) }
{
    if let Some(it) = character_in(first) {
        made.add_character(it)?;
        return Ok(None);
    }
    let node = node_in(first);
    if !is_leaf(node) {
        return Ok(Some(node));
    }
    made.add_leaf(node)?;
    Ok(None)
}

/// Adds a node in which others are to stand, and answers what is left of it.
fn open<'a>(made: &mut Records, node: RegExpAstKind<'a>) -> Result<Task<'a>, OutOfMemory>
    ensures node { OnOk result (AddsNode made.old made.new (mirror_kind node.entry) (length (children (mirror_kind node.entry))) 0) }
    ensures of { IfOk result (λ task. task.of ≡ length made.old.nodes.items) }
    ensures rest { IfOk result (λ task. in_order task.rest ≡ children (mirror_kind node.entry)) }
{
    let of = as_u32(made.nodes.len())?;
    let rest = children_of(node);
    let children = as_u32(count(rest))?;
    made.add(node, Links { children, next: 0 })?;
    Ok(Task { of, rest })
}

/// The records of a pattern, with memory for so many nodes at once. They are written in one walk, and what is left of it waits on the heap, so that a deep
/// pattern needs no deep stack.
pub fn records_of(alloc: Global, pattern: &Pattern, room: usize) -> Result<Records, OutOfMemory>
    ensures { IfOk result (λ made. AreRecords (mirror pattern.now) made.nodes.items made.groups.items (string_bytes made.texts)) }
{
    let mut made = Records::with_room(alloc, room)?;
    let whole = open(&mut made, RegExpAstKind::Pattern(pattern))?;
    work_through(alloc, &mut made, whole)?;
    Ok(made)
}
