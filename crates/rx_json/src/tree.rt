ghost use Rattle.std.specs.Prelude.{◌≡◌, ◌+◌, ◌*◌, ◌≤◌, ◌<◌, ◌++◌, IfOk, OnOk, sum_by};
ghost use Rattle.json.specs.Tree.{json_tokens};
ghost use Rattle.rx_ast.specs.Kinds.{children, pattern as pattern_kind};
ghost use Rattle.rx_ast.specs.MirrorKinds.{mirror_kind};
ghost use Rattle.rx_ast.specs.Tree.{mirror};
ghost use Rattle.rx_json.specs.Adding.{Adds};
ghost use Rattle.rx_json.specs.Located.{located};
ghost use Rattle.rx_json.specs.Openings.{closing};
ghost use Rattle.rx_json.specs.Tasks.{count, inner, task_tokens, task_weight, tree_tokens, writes};
ghost use Rattle.rx_json.specs.Trees.{tree_json};
ghost use Rattle.rx_tasks.specs.Tasks.{tasks_of};
ghost use Rattle.rx_tasks.specs.Texts.{Goes, texts_of};
ghost use Rattle.rx_visit.specs.Siblings.{in_order};

use crate::close::Close;
use crate::node::open_node;
use json::Writer;
use rx_ast::{Pattern, RegExpAstKind};
use rx_base::OutOfMemory;
use rx_places::Places;
use rx_tasks::{Next, Work, work_through};
use rx_visit::{Siblings, children_of};
use std::alloc::Global;

/// What is still to be written of a tree.
#[derive(Clone, Copy)]
enum Left<'a> {
    /// A node.
    Node(RegExpAstKind<'a>),

    /// The rest of a node: nodes in it, and what closes it.
    Rest { nodes: Siblings<'a>, close: Close },
}

/// What is still to be written, with the places of its text.
#[derive(Clone, Copy)]
struct Task<'a> {
    places: &'a Places<'a>,
    left: Left<'a>,
}

/// Writes the tree of a pattern. However deep it is, it takes no deep stack.
pub fn write_tree(
    alloc: Global,
    writer: &mut Writer,
    places: &Places<'_>,
    pattern: &Pattern,
) -> Result<(), OutOfMemory>
    ensures { OnOk result (Adds writer.old writer.new (json_tokens (tree_json (located places.now) (pattern_kind (mirror pattern.now))))) }
{
    let left = Left::Node(RegExpAstKind::Pattern(pattern));
    work_through(alloc, writer, Task { places, left })
}

impl<'a> Work<Writer> for Task<'a> {
    ghost use Rattle.rx_json.specs.Tasks.{task_tokens, task_weight, writes};

    ghost does = { λ task old new. writes old (task_tokens task) new };

    ghost weight = { task_weight };

    fn work(self, _alloc: Global, writer: &mut Writer) -> Result<Next<Self>, OutOfMemory> {
        match self.left {
            Left::Node(node) => open(writer, self.places, node),
            Left::Rest { nodes, close } => write_rest(writer, self.places, nodes, close),
        }
    }
}

/// Writes what a node begins with.
fn open<'a>(
    writer: &mut Writer,
    places: &'a Places<'a>,
    node: RegExpAstKind<'a>,
) -> Result<Next<Task<'a>>, OutOfMemory>
    ensures text { IfOk result (λ next. Goes writes writer.old writer.new (json_tokens (tree_json (located places.now) (mirror_kind node.entry))) (texts_of task_tokens next)) }
    ensures lighter { IfOk result (λ next. sum_by task_weight (tasks_of next) < 2 + 3 * count (children (mirror_kind node.entry))) }
{
    let close = open_node(writer, places, node)?;
    let nodes = nodes_in(node);
    let left = Left::Rest { nodes, close };
    Ok(Next::One(Task { places, left }))
}

/// The next of the nodes, or where there is none what closes them.
fn write_rest<'a>(
    writer: &mut Writer,
    places: &'a Places<'a>,
    nodes: Siblings<'a>,
    close: Close,
) -> Result<Next<Task<'a>>, OutOfMemory>
    ensures text { IfOk result (λ next. Goes writes writer.old writer.new (tree_tokens (located places.now) (in_order nodes.entry) ++ closing close) (texts_of task_tokens next)) }
    ensures lighter { IfOk result (λ next. sum_by task_weight (tasks_of next) < 1 + 3 * count (in_order nodes.entry)) }
{
    let Some((first, nodes)) = nodes.split_first() else {
        close.write(writer)?;
        return Ok(Next::Nothing);
    };
    let left = Left::Rest { nodes, close };
    let rest = Task { places, left };
    let left = Left::Node(first);
    Ok(Next::Two(Task { places, left }, rest))
}

/// The nodes in a node that are written after what it begins with: the characters of a range are written with it.
fn nodes_in<'a>(node: RegExpAstKind<'a>) -> Siblings<'a>
    ensures nodes { in_order result ≡ inner (mirror_kind node.entry) }
    ensures within { count (in_order result) ≤ count (children (mirror_kind node.entry)) }
{
    match node {
        RegExpAstKind::CharacterClassRange(_) => Siblings::Nothing,
        _ => children_of(node),
    }
}
