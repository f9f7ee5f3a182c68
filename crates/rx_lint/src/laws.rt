//! Laws of the definitions. The functions do nothing: each contract is a law.

ghost use Rattle.std.specs.Prelude.{◌≡◌, ◌↔◌, IsTrue, All, map};
ghost use Rattle.rx_ast.specs.Tree.{Nodes, Whole, mirror};
ghost use Rattle.rx_ast.specs.Kinds.{order, pattern};
ghost use Rattle.rx_ast.specs.Forget.{bare, forget_nodes, no_kind};
ghost use Rattle.rx_ast.specs.declared.term.Pattern.{Pattern};
ghost use Rattle.rx_lint.specs.Places.{IsChild, IsRooted, places};
ghost use Rattle.rx_lint.specs.Numbers.{are_equal_bare};
ghost use Rattle.rx_lint.specs.Findings.{findings};

/// The places of a pattern are those of all its nodes, in the order of the text.
pub fn places_are_in_order()
    ensures { (p : Whole) → map (λ at. at.node) (places p) ≡ order (pattern p) }
{}

/// At each place the nodes before are the earlier children of the parent.
pub fn places_are_of_children()
    ensures { (p : Whole) → All IsChild (places p) }
{}

/// Only the pattern stands in no node.
pub fn only_the_pattern_stands_in_none()
    ensures { (p : Whole) → All (IsRooted p) (places p) }
{}

/// Two alternatives are compared by what their `bare` is.
pub fn equal_numbers_are_equal_bare()
    ensures { (ns ms : Nodes) → IsTrue (are_equal_bare ns ms) ↔ (forget_nodes no_kind ns ≡ forget_nodes no_kind ms) }
{}

/// Trees of equal `bare` have the same rules in the same order.
pub fn equal_bare_has_equal_rules()
    ensures { (a b : Pattern) → bare a ≡ bare b → map (λ found. found.rule) (findings (mirror a)) ≡ map (λ found. found.rule) (findings (mirror b)) }
{}
