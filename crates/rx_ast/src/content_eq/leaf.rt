ghost use Rattle.std.specs.Prelude.{◌↔◌, ◌≡◌, IsTrue};

use crate::leaf::{
    BoundaryAssertion, BoundaryAssertionKind, Character, CharacterClassEscape,
    CharacterClassEscapeKind, CharacterKind, Dot, IndexedReference, LookAroundAssertionKind,
    Modifiers, NamedReference, UnicodePropertyEscape,
};
use crate::modifier::Modifier;
use rx_base::ContentEq;

impl ContentEq for BoundaryAssertionKind {
    ghost use Rattle.std.specs.Prelude.{◌≡◌};
    ghost use Rattle.rx_base.specs.Equivalence.{same_content};

    ghost same = { λ a b. a ≡ b };

    fn content_eq(&self, other: &BoundaryAssertionKind) -> bool {
        self == other
    }

    ghost laws = { same_content (λ a. a) };
}

impl ContentEq for CharacterClassEscapeKind {
    ghost use Rattle.std.specs.Prelude.{◌≡◌};
    ghost use Rattle.rx_base.specs.Equivalence.{same_content};

    ghost same = { λ a b. a ≡ b };

    fn content_eq(&self, other: &CharacterClassEscapeKind) -> bool {
        self == other
    }

    ghost laws = { same_content (λ a. a) };
}

impl ContentEq for CharacterKind {
    ghost use Rattle.std.specs.Prelude.{◌≡◌};
    ghost use Rattle.rx_base.specs.Equivalence.{same_content};

    ghost same = { λ a b. a ≡ b };

    fn content_eq(&self, other: &CharacterKind) -> bool {
        self == other
    }

    ghost laws = { same_content (λ a. a) };
}

impl ContentEq for LookAroundAssertionKind {
    ghost use Rattle.std.specs.Prelude.{◌≡◌};
    ghost use Rattle.rx_base.specs.Equivalence.{same_content};

    ghost same = { λ a b. a ≡ b };

    fn content_eq(&self, other: &LookAroundAssertionKind) -> bool {
        self == other
    }

    ghost laws = { same_content (λ a. a) };
}

/// Only the three bits that have a meaning count.
impl ContentEq for Modifier {
    ghost use Rattle.std.specs.Prelude.{◌≡◌, ◌%◌};
    ghost use Rattle.rx_base.specs.Equivalence.{same_content};

    ghost same = { λ a b. a.0 % 8 ≡ b.0 % 8 };

    fn content_eq(&self, other: &Modifier) -> bool {
        self.bits() % 8 == other.bits() % 8
    }

    ghost laws = { same_content (λ a. a.0 % 8) };
}

impl ContentEq for Modifiers {
    ghost use Rattle.std.specs.Prelude.{◌≡◌};
    ghost use Rattle.rx_base.specs.Equivalence.{same_content};
    ghost use Rattle.rx_ast.specs.Forget.{three_bits};

    ghost same = { λ a b. three_bits a ≡ three_bits b };

    fn content_eq(&self, other: &Modifiers) -> bool {
        self.enabling.content_eq(&other.enabling) && self.disabling.content_eq(&other.disabling)
    }

    ghost laws = { same_content three_bits };
}

impl ContentEq for Character {
    ghost use Rattle.std.specs.Prelude.{◌≡◌};
    ghost use Rattle.rx_base.specs.Equivalence.{same_content};
    ghost use Rattle.rx_ast.specs.Forget.{forget_character, same_kind};

    ghost same = { λ a b. forget_character same_kind a ≡ forget_character same_kind b };

    fn content_eq(&self, other: &Character) -> bool {
        self.kind.content_eq(&other.kind) && self.value == other.value
    }

    ghost laws = { same_content (forget_character same_kind) };
}

impl ContentEq for BoundaryAssertion {
    ghost use Rattle.std.specs.Prelude.{◌≡◌};
    ghost use Rattle.rx_base.specs.Equivalence.{same_content};
    ghost use Rattle.rx_ast.specs.declared.leaf.BoundaryAssertion.{BoundaryAssertion};
    ghost use Rattle.rx_ast.specs.Forget.{nowhere};

    ghost same = { λ a b. record a { span = nowhere } ≡ record b { span = nowhere } };

    fn content_eq(&self, other: &BoundaryAssertion) -> bool {
        self.kind.content_eq(&other.kind)
    }

    ghost laws = { same_content (λ (a : BoundaryAssertion). record a { span = nowhere }) };
}

impl ContentEq for CharacterClassEscape {
    ghost use Rattle.std.specs.Prelude.{◌≡◌};
    ghost use Rattle.rx_base.specs.Equivalence.{same_content};
    ghost use Rattle.rx_ast.specs.declared.leaf.CharacterClassEscape.{CharacterClassEscape};
    ghost use Rattle.rx_ast.specs.Forget.{nowhere};

    ghost same = { λ a b. record a { span = nowhere } ≡ record b { span = nowhere } };

    fn content_eq(&self, other: &CharacterClassEscape) -> bool {
        self.kind.content_eq(&other.kind)
    }

    ghost laws = { same_content (λ (a : CharacterClassEscape). record a { span = nowhere }) };
}

impl ContentEq for Dot {
    ghost use Rattle.std.specs.Prelude.{◌≡◌};
    ghost use Rattle.rx_base.specs.Equivalence.{same_content};
    ghost use Rattle.rx_ast.specs.declared.leaf.Dot.{Dot};
    ghost use Rattle.rx_ast.specs.Forget.{nowhere};

    ghost same = { λ a b. record a { span = nowhere } ≡ record b { span = nowhere } };

    fn content_eq(&self, _: &Dot) -> bool {
        true
    }

    ghost laws = { same_content (λ (a : Dot). record a { span = nowhere }) };
}

impl ContentEq for UnicodePropertyEscape {
    ghost use Rattle.std.specs.Prelude.{◌≡◌};
    ghost use Rattle.rx_base.specs.Equivalence.{same_content};
    ghost use Rattle.rx_ast.specs.declared.leaf.UnicodePropertyEscape.{UnicodePropertyEscape};
    ghost use Rattle.rx_ast.specs.Forget.{nowhere};

    ghost same = { λ a b. record a { span = nowhere } ≡ record b { span = nowhere } };

    fn content_eq(&self, other: &UnicodePropertyEscape) -> bool {
        self.negative == other.negative
            && self.strings == other.strings
            && self.name.content_eq(&other.name)
            && self.value.content_eq(&other.value)
    }

    ghost laws = { same_content (λ (a : UnicodePropertyEscape). record a { span = nowhere }) };
}

impl ContentEq for IndexedReference {
    ghost use Rattle.std.specs.Prelude.{◌≡◌};
    ghost use Rattle.rx_base.specs.Equivalence.{same_content};
    ghost use Rattle.rx_ast.specs.declared.leaf.IndexedReference.{IndexedReference};
    ghost use Rattle.rx_ast.specs.Forget.{nowhere};

    ghost same = { λ a b. record a { span = nowhere } ≡ record b { span = nowhere } };

    fn content_eq(&self, other: &IndexedReference) -> bool {
        self.index == other.index
    }

    ghost laws = { same_content (λ (a : IndexedReference). record a { span = nowhere }) };
}

impl ContentEq for NamedReference {
    ghost use Rattle.std.specs.Prelude.{◌≡◌};
    ghost use Rattle.rx_base.specs.Equivalence.{same_content};
    ghost use Rattle.rx_ast.specs.declared.leaf.NamedReference.{NamedReference};
    ghost use Rattle.rx_ast.specs.Forget.{nowhere};

    ghost same = { λ a b. record a { span = nowhere } ≡ record b { span = nowhere } };

    fn content_eq(&self, other: &NamedReference) -> bool {
        self.name.content_eq(&other.name)
    }

    ghost laws = { same_content (λ (a : NamedReference). record a { span = nowhere }) };
}
