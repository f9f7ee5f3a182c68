//! Kinds of elements of a pattern, for contracts alone.

ghost use Rattle.std.specs.Prelude.{◌≡◌, List, []};

pub use rx_units::sequence::ElementKind;

/// The tokens of a pattern. A list of them ends at the end of the text.
pub struct PatternTokens;

impl ElementKind for PatternTokens {
    ghost use Rattle.rx_units.specs.declared.code_point.CodePoint.{CodePoint};
    ghost use Rattle.rx_model.specs.Inputs.Environment.{Environment};
    ghost use Rattle.rx_model.specs.Reading.Rows.{Spells};
    ghost use Rattle.rx_model.specs.Trees.Token.{Token};

    ghost Element = { Token };

    ghost TextUnit = { CodePoint };

    ghost Surroundings = { Environment };

    ghost Place = { Unit {0} };

    ghost spells = { λ e q. Spells e };

    ghost following = { λ e q t rest. tt };

    ghost is_stop = { λ e q us. us ≡ [] };

    fn some_units() {}

    fn one_front() {}

    fn none_at_stop() {}
}

/// The tokens of a class. A list of them ends after the closer.
pub struct ClassTokens;

impl ElementKind for ClassTokens {
    ghost use Rattle.std.specs.Prelude.{Option, None};
    ghost use Rattle.rx_units.specs.declared.code_point.CodePoint.{CodePoint};
    ghost use Rattle.rx_model.specs.Classes.ClassTokens.{ClassToken};
    ghost use Rattle.rx_model.specs.Reading.ElementKinds.{NestedPlace, SpellsOfClass, after_of_class};
    ghost use Rattle.rx_model.specs.Inputs.Environment.{Environment};

    ghost Element = { ClassToken };

    ghost TextUnit = { CodePoint };

    ghost Surroundings = { Environment };

    ghost Place = { Option NestedPlace };

    ghost spells = { SpellsOfClass };

    ghost following = { after_of_class };

    ghost is_stop = { λ e q us. q ≡ None };

    fn some_units() {}

    fn one_front() {}

    fn none_at_stop() {}
}

/// The characters of a name, in a unicode mode or not. A place says whether the next one is the first. A list of them ends before a `>`, or where no
/// further one stands.
pub struct NameCharacters;

impl ElementKind for NameCharacters {
    ghost use Rattle.std.specs.Prelude.{ℕ, Bool, false};
    ghost use Rattle.rx_model.specs.Reading.ElementKinds.{IsNameEnd};
    ghost use Rattle.rx_model.specs.Groups.GroupNames.{SpellsNameCharacter};

    ghost Element = { ℕ };

    ghost TextUnit = { ℕ };

    ghost Surroundings = { Bool };

    ghost Place = { Bool };

    ghost spells = { SpellsNameCharacter };

    ghost following = { λ unicode_mode first c rest. false };

    ghost is_stop = { IsNameEnd };

    fn some_units() {}

    fn one_front() {}

    fn none_at_stop() {}
}

/// The alternatives of a disjunction after the first, each with the `|` before it. A list of them ends before a `)` or at the end of the text.
pub struct BarredAlternatives;

impl ElementKind for BarredAlternatives {
    ghost use Rattle.rx_ast.specs.Tree.{Nodes};
    ghost use Rattle.rx_units.specs.declared.code_point.CodePoint.{CodePoint};
    ghost use Rattle.rx_model.specs.Inputs.Environment.{Environment};
    ghost use Rattle.rx_model.specs.Reading.Alternatives.{EndsDisjunction, SpellsBarred};

    ghost Element = { Nodes };

    ghost TextUnit = { CodePoint };

    ghost Surroundings = { Environment };

    ghost Place = { Unit {0} };

    ghost spells = { λ e q. SpellsBarred e };

    ghost following = { λ e q t rest. tt };

    ghost is_stop = { λ e q. EndsDisjunction };

    fn some_units() {}

    fn one_front() {}

    fn none_at_stop() {}
}
