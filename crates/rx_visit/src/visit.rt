use rx_ast::RegExpAstKind;

/// What is done at each node of a tree.
///
/// `entered` says that to enter a node from one state may give this answer and leave another state. `left` says that to leave a node
/// from one state may leave another.
pub trait Visit {
    ghost use Rattle.std.specs.Prelude.{Bool};
    ghost use Rattle.rx_ast.specs.Kinds.{Kind};
    ghost use Rattle.rx_ast.specs.MirrorKinds.{mirror_kind};

    ghost entered: { Self → Kind → Bool → Self → Type 0 };

    ghost left: { Self → Kind → Self → Type 0 };

    /// Called before the nodes in a node are visited. Says whether they are to be visited.
    fn enter_node(&mut self, kind: RegExpAstKind<'_>) -> bool
        ensures { entered self.old (mirror_kind kind.entry) result self.new };

    /// Called after the nodes in a node were visited, or passed over.
    fn leave_node(&mut self, kind: RegExpAstKind<'_>)
        ensures { left self.old (mirror_kind kind.entry) self.new };
}
