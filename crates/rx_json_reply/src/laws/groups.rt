//! The groups that are told are those of the pattern.
ghost use Rattle.std.specs.Prelude.{◌≡◌, ℕ, List, [], length};
ghost use Rattle.rx_base.specs.declared.span.Span.{Span};
ghost use Rattle.rx_ast.specs.Kinds.{order, pattern};
ghost use Rattle.rx_ast.specs.Tree.{mirror};
ghost use Rattle.rx_ast.specs.declared.term.Pattern.{Pattern};
ghost use Rattle.rx_model.specs.Trees.Names.{groups, names};
ghost use Rattle.rx_json.specs.Groups.{groups_of, names_of, once_after};
ghost use Rattle.rx_json.specs.Values.{Field};

/// The groups that are told are as many as those of the pattern, and the names that are told are its names.
pub fn groups_are_of_the_pattern()
    ensures groups { (place : Span → List Field) (p : Pattern) → length (groups_of place 1 (order (pattern (mirror p)))) ≡ groups p }
    ensures names { (p : Pattern) → once_after [] (names_of (order (pattern (mirror p)))) ≡ names p }
{}
