//! Laws of matching, for contracts alone. The functions do nothing: each contract is a law.

ghost use Rattle.std.specs.Prelude.{ℕ, suc, ◌*◌, ◌≤◌, List, Err};
ghost use Rattle.rx_ast.specs.Tree.{Whole};
ghost use Rattle.rx_trace.specs.declared.answer.MatchFlags.{MatchFlags};
ghost use Rattle.rx_trace.specs.declared.answer.MatchFault.TheVariants as fault;
ghost use Rattle.rx_trace.specs.Answers.{IsAnswer};
ghost use Rattle.rx_trace.specs.Straight.{IsStraightDisjunction, terms_in_each};

/// A tree without quantifiers in which each disjunction has one alternative is matched from a place within as many Ticks as it has terms.
pub fn straight_is_never_spent()
    ensures { (flags : MatchFlags) (tree : Whole) (input : List ℕ) (start budget : ℕ) → IsStraightDisjunction tree.1.1 → terms_in_each tree.1.1 ≤ budget → IsAnswer flags tree input 0 start budget (Err fault.Spent) → ⊥ }
{}

/// So is a search from a place and from so many places after it, where from each place it may take as many Ticks as the tree has terms.
pub fn straight_search_is_never_spent()
    ensures { (flags : MatchFlags) (tree : Whole) (input : List ℕ) (more start budget : ℕ) → IsStraightDisjunction tree.1.1 → suc more * terms_in_each tree.1.1 ≤ budget → IsAnswer flags tree input more start budget (Err fault.Spent) → ⊥ }
{}
