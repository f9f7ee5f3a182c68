//! Laws of the definitions. The functions do nothing: each contract is a law.

ghost use Rattle.std.specs.Prelude.{◌≡◌, ◌≤◌, ◌<◌, ℕ, List, ◌↔◌};
ghost use Rattle.rx_base.specs.declared.span.Span.{Span};
ghost use Rattle.rx_ast.specs.Tree.{Whole, mirror};
ghost use Rattle.rx_ast.specs.declared.term.Pattern.{Pattern};
ghost use Rattle.rx_units.specs.declared.code_point.CodePoint.{CodePoint};
ghost use Rattle.rx_units.specs.Units.{offset_at};
ghost use Rattle.rx_model.specs.declared.mode.Mode.{Mode};
ghost use Rattle.rx_model.specs.declared.rules.Rules.{Rules};
ghost use Rattle.rx_model.specs.Reading.Reading.{IsSpanned};
ghost use Rattle.rx_paint.specs.declared.token.Token.{Token};
ghost use Rattle.rx_ast.specs.Forest.{Path, AreParents};
ghost use Rattle.rx_ast.specs.Parts.{IsNestedPattern, in_pattern, part_span, pattern_forest};
ghost use Rattle.rx_paint.specs.Paints.{part_token, root_token};
ghost use Rattle.rx_paint.specs.Owners.{owner, Owns};
ghost use Rattle.rx_paint.specs.Runs.{AreRuns, HaveNoOther, Tile, pattern_tokens};

/// The owner of an offset of a pattern is a deepest node whose span holds the offset.
pub fn owner_is_deepest()
    ensures { (p : Whole) (offset : ℕ) → p.0.start ≤ offset → offset < p.0.end → (path : Path) × (depth : ℕ) × Owns (pattern_forest part_token p) offset path depth (owner (root_token p) (in_pattern part_token p) offset) }
{}

/// Owners with one span and one kind are one node of a nested pattern.
pub fn equal_owners_are_one()
    ensures { (p : Whole) (first second : ℕ) (path other : Path) (depth deep : ℕ) (t : Token) → IsNestedPattern p → Owns (pattern_forest part_token p) first path depth t → Owns (pattern_forest part_token p) second other deep t → path ≡ other }
{}

/// The tokens are the longest runs of offsets with one owner.
pub fn tokens_are_longest_runs()
    ensures { (p : Whole) → IsNestedPattern p → AreRuns (owner (root_token p) (in_pattern part_token p)) p.0.start p.0.end (pattern_tokens p) }
{}

/// No two lists are the longest runs.
pub fn one_list_of_runs()
    ensures { (owns : ℕ → Token) (low high : ℕ) (xs ys : List Token) → AreRuns owns low high xs → AreRuns owns low high ys → xs ≡ ys }
{}

/// The tokens tile the pattern's span.
pub fn tokens_tile()
    ensures { (p : Whole) → IsNestedPattern p → Tile p.0.start p.0.end (pattern_tokens p) }
{}

/// A pattern is nested exactly where each node ends no earlier than it begins, its children lie within it, and each child ends no later
/// than the next one begins.
pub fn nested_by_siblings()
    ensures { (p : Whole) → IsNestedPattern p ↔ AreParents (λ (s : Span). s) (pattern_forest part_span p) }
{}

/// A pattern that is spanned over offsets that do not fall has no token Other.
pub fn no_token_is_other()
    ensures { (mode : Mode) (rules : Rules) (p : Pattern) (us : List CodePoint) (first added : ℕ) → ((i j : ℕ) → i ≤ j → offset_at first us i ≤ offset_at first us j) → IsSpanned mode rules p us first added → HaveNoOther (pattern_tokens (mirror p)) }
{}
