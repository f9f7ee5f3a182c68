//! Laws of the definitions. The functions do nothing: each contract is a law.
ghost use Rattle.std.specs.Prelude.{◌≡◌, ◌+◌, List, Some, length, slice_get, ℕ};
ghost use Rattle.rx_ast.specs.Kinds.{Kind, pattern};
ghost use Rattle.rx_ast.specs.Tree.{Whole};
ghost use Rattle.rx_records.specs.declared.node.Node.{Node};
ghost use Rattle.rx_records.specs.Law.{HasNames, IsGroup, IsLinked, next_at};
ghost use Rattle.rx_records.specs.Records.{AreRecords, nodes_of};

/// Records are of one tree alone: what has the same records and the same texts is the same tree, with its spans and with the kinds of its characters.
pub fn records_are_trees()
    ensures { (p q : Whole) (nodes : List Node) (groups others texts : List ℕ) → AreRecords p nodes groups texts → AreRecords q nodes others texts → p ≡ q }
{}

/// The records of a tree hang together: from the record of a node, `children` and `next` lead to the records of the nodes that stand in it, and to those of no others. `next` of the pattern is how many
/// records there are.
pub fn records_are_linked()
    ensures one_each { (tree : Whole) (nodes : List Node) (groups texts : List ℕ) → AreRecords tree nodes groups texts → length nodes ≡ length (nodes_of (pattern tree)) }
    ensures all { (tree : Whole) (nodes : List Node) (groups texts : List ℕ) → AreRecords tree nodes groups texts → next_at nodes 0 ≡ length nodes }
    ensures linked { (tree : Whole) (nodes : List Node) (groups texts : List ℕ) → AreRecords tree nodes groups texts → (at : ℕ) (node : Node) (k : Kind) → slice_get nodes at ≡ Some node → slice_get (nodes_of (pattern tree)) at ≡ Some k → IsLinked (nodes_of (pattern tree)) nodes at node k }
{}

/// The ranges of a record lie within the texts, and what stands there is the name of its node and the value of its property.
pub fn records_have_names()
    ensures { (tree : Whole) (nodes : List Node) (groups texts : List ℕ) → AreRecords tree nodes groups texts → (at : ℕ) (node : Node) (k : Kind) → slice_get nodes at ≡ Some node → slice_get (nodes_of (pattern tree)) at ≡ Some k → HasNames texts node k }
{}

/// The n-th of the groups, from 1 on, is the index of the record of the capturing group with the number n. Each capturing group is among them.
pub fn groups_are_numbered()
    ensures groups { (tree : Whole) (nodes : List Node) (groups texts : List ℕ) → AreRecords tree nodes groups texts → (n at : ℕ) → slice_get groups n ≡ Some at → IsGroup nodes at (n + 1) }
    ensures all { (tree : Whole) (nodes : List Node) (groups texts : List ℕ) → AreRecords tree nodes groups texts → (number at : ℕ) → IsGroup nodes at number → (n : ℕ) × (number ≡ n + 1) × (slice_get groups n ≡ Some at) }
{}
