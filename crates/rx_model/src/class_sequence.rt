//! Kinds of elements that classes are made of, for contracts alone: each is a kind of `sequence::ElementKind`.

ghost use Rattle.std.specs.Prelude.{◌≡◌, List, []};

use crate::sequence::ElementKind;

/// The pieces of a class without `v`: an atom, a range, or three items. A list of them ends before a `]`, or at the end of the text.
pub struct ClassPieces;

impl ElementKind for ClassPieces {
    ghost use Rattle.rx_units.specs.declared.code_point.CodePoint.{CodePoint};
    ghost use Rattle.rx_model.specs.Classes.ClassPieces.{IsPiecesEnd, Piece, SpellsPiece};
    ghost use Rattle.rx_model.specs.Inputs.Environment.{Environment};

    ghost Element = { Piece };

    ghost TextUnit = { CodePoint };

    ghost Surroundings = { Environment };

    ghost Place = { Unit {0} };

    ghost spells = { λ e q. SpellsPiece e };

    ghost following = { λ e q p rest. tt };

    ghost is_stop = { λ e q us. IsPiecesEnd us };

    fn some_units() {}

    fn one_front() {}

    fn none_at_stop() {}
}

/// The characters of a class string. A list of them ends before a `|` or a `}`.
pub struct StringCharacters;

impl ElementKind for StringCharacters {
    ghost use Rattle.rx_ast.specs.declared.leaf.Character.{Character};
    ghost use Rattle.rx_units.specs.declared.code_point.CodePoint.{CodePoint};
    ghost use Rattle.rx_model.specs.Classes.ClassStrings.{IsStringEnd, SpellsSetCharacter};
    ghost use Rattle.rx_model.specs.Inputs.Environment.{Environment};

    ghost Element = { Character };

    ghost TextUnit = { CodePoint };

    ghost Surroundings = { Environment };

    ghost Place = { Unit {0} };

    ghost spells = { λ e q. SpellsSetCharacter e };

    ghost following = { λ e q c rest. tt };

    ghost is_stop = { λ e q us. IsStringEnd us };

    fn some_units() {}

    fn one_front() {}

    fn none_at_stop() {}
}

/// Class strings but the first, each with the `|` before it. A list of them ends before a `}`.
pub struct BarredStrings;

impl ElementKind for BarredStrings {
    ghost use Rattle.rx_ast.specs.declared.class.ClassString.{ClassString};
    ghost use Rattle.rx_units.specs.declared.code_point.CodePoint.{CodePoint};
    ghost use Rattle.rx_model.specs.Classes.ClassStrings.{IsDisjunctionEnd, SpellsBarredString};
    ghost use Rattle.rx_model.specs.Inputs.Environment.{Environment};

    ghost Element = { ClassString };

    ghost TextUnit = { CodePoint };

    ghost Surroundings = { Environment };

    ghost Place = { Unit {0} };

    ghost spells = { λ e q. SpellsBarredString e };

    ghost following = { λ e q s rest. tt };

    ghost is_stop = { λ e q us. IsDisjunctionEnd us };

    fn some_units() {}

    fn one_front() {}

    fn none_at_stop() {}
}

/// The items of a union in a class with `v`: operands and ranges. A list of them ends before a `]`.
pub struct UnionItems;

impl ElementKind for UnionItems {
    ghost use Rattle.rx_ast.specs.ClassTree.{Member};
    ghost use Rattle.rx_units.specs.declared.code_point.CodePoint.{CodePoint};
    ghost use Rattle.rx_model.specs.Classes.ClassOperands.{IsOperandsEnd, SpellsUnionItem};
    ghost use Rattle.rx_model.specs.Inputs.Environment.{Environment};

    ghost Element = { Member };

    ghost TextUnit = { CodePoint };

    ghost Surroundings = { Environment };

    ghost Place = { Unit {0} };

    ghost spells = { λ e q. SpellsUnionItem e };

    ghost following = { λ e q m rest. tt };

    ghost is_stop = { λ e q us. IsOperandsEnd us };

    fn some_units() {}

    fn one_front() {}

    fn none_at_stop() {}
}

/// The operands of an intersection or a subtraction but the first, each with the operator before it. A list of them ends before a `]`.
pub struct FurtherOperands;

impl ElementKind for FurtherOperands {
    ghost use Rattle.rx_base.specs.declared.diagnostic.kinds.SetOperator.{SetOperator};
    ghost use Rattle.rx_ast.specs.ClassTree.{Member};
    ghost use Rattle.rx_units.specs.declared.code_point.CodePoint.{CodePoint};
    ghost use Rattle.rx_model.specs.Classes.ClassOperands.{IsOperandsEnd, SpellsFurtherOperand};
    ghost use Rattle.rx_model.specs.Inputs.Environment.{Environment};

    ghost Element = { Member };

    ghost TextUnit = { CodePoint };

    ghost Surroundings = { Environment × SetOperator };

    ghost Place = { Unit {0} };

    ghost spells = { λ e q. SpellsFurtherOperand e.0 e.1 };

    ghost following = { λ e q m rest. tt };

    ghost is_stop = { λ e q us. IsOperandsEnd us };

    fn some_units() {}

    fn one_front() {}

    fn none_at_stop() {}
}
