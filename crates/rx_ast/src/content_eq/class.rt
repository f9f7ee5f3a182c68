ghost use Rattle.std.specs.Prelude.{◌↔◌, ◌≡◌, IsTrue};

use crate::class::{
    CharacterClass, CharacterClassContents, CharacterClassContentsKind, CharacterClassRange,
    ClassString, ClassStringDisjunction,
};
use rx_base::ContentEq;

impl ContentEq for CharacterClassContentsKind {
    ghost use Rattle.std.specs.Prelude.{◌≡◌};
    ghost use Rattle.rx_base.specs.Equivalence.{same_content};

    ghost same = { λ a b. a ≡ b };

    fn content_eq(&self, other: &CharacterClassContentsKind) -> bool {
        self == other
    }

    ghost laws = { same_content (λ a. a) };
}

impl ContentEq for CharacterClassRange {
    ghost use Rattle.std.specs.Prelude.{◌≡◌};
    ghost use Rattle.rx_base.specs.Equivalence.{same_content};
    ghost use Rattle.rx_ast.specs.Forget.{forget_range, same_kind};

    ghost same = { λ a b. forget_range same_kind a ≡ forget_range same_kind b };

    fn content_eq(&self, other: &CharacterClassRange) -> bool {
        self.min.content_eq(&other.min) && self.max.content_eq(&other.max)
    }

    ghost laws = { same_content (forget_range same_kind) };
}

impl ContentEq for ClassString {
    ghost use Rattle.std.specs.Prelude.{◌≡◌};
    ghost use Rattle.rx_base.specs.Equivalence.{same_content};
    ghost use Rattle.rx_ast.specs.Forget.{forget_string, same_kind};

    ghost same = { λ a b. forget_string same_kind a ≡ forget_string same_kind b };

    fn content_eq(&self, other: &ClassString) -> bool {
        self.strings == other.strings && self.body.content_eq(&other.body)
    }

    ghost laws = { same_content (forget_string same_kind) };
}

impl ContentEq for ClassStringDisjunction {
    ghost use Rattle.std.specs.Prelude.{◌≡◌};
    ghost use Rattle.rx_base.specs.Equivalence.{same_content};
    ghost use Rattle.rx_ast.specs.Forget.{forget_strings, same_kind};

    ghost same = { λ a b. forget_strings same_kind a ≡ forget_strings same_kind b };

    fn content_eq(&self, other: &ClassStringDisjunction) -> bool {
        self.strings == other.strings && self.body.content_eq(&other.body)
    }

    ghost laws = { same_content (forget_strings same_kind) };
}

/// Whether two classes are the same but for what they hold.
fn have_same_head(some: &CharacterClass, other: &CharacterClass) -> bool
    ensures { IsTrue result ↔ ((some.now.negative ≡ other.now.negative) × (some.now.strings ≡ other.now.strings) × (some.now.kind ≡ other.now.kind)) }
{
    some.negative == other.negative && some.strings == other.strings && some.kind == other.kind
}

impl ContentEq for CharacterClass {
    ghost use Rattle.std.specs.Prelude.{◌≡◌};
    ghost use Rattle.rx_base.specs.Equivalence.{same_content};
    ghost use Rattle.rx_ast.specs.declared.class.CharacterClass.{CharacterClass};
    ghost use Rattle.rx_ast.specs.ClassTree.{mirror_class};
    ghost use Rattle.rx_ast.specs.Forget.{forget_class, same_kind};

    ghost same = { λ a b. forget_class same_kind (mirror_class a) ≡ forget_class same_kind (mirror_class b) };

    #[cycle(class)]
    fn content_eq(&self, other: &CharacterClass) -> bool {
        if !have_same_head(self, other) {
            return false;
        }
        if self.body.len() != other.body.len() {
            return false;
        }
        let others = other.body.as_slice();
        for (i, contents) in self.body.as_slice().iter().enumerate() {
            if !contents.content_eq(&others[i]) {
                return false;
            }
        }
        true
    }

    ghost laws = { same_content (λ (a : CharacterClass). forget_class same_kind (mirror_class a)) };
}

impl ContentEq for CharacterClassContents {
    ghost use Rattle.std.specs.Prelude.{◌≡◌};
    ghost use Rattle.rx_base.specs.Equivalence.{same_content};
    ghost use Rattle.rx_ast.specs.declared.class.CharacterClassContents.{CharacterClassContents};
    ghost use Rattle.rx_ast.specs.ClassTree.{mirror_contents};
    ghost use Rattle.rx_ast.specs.Forget.{forget_member, same_kind};

    ghost same = { λ a b. forget_member same_kind (mirror_contents a) ≡ forget_member same_kind (mirror_contents b) };

    #[cycle(class)]
    fn content_eq(&self, other: &CharacterClassContents) -> bool {
        match self {
            CharacterClassContents::CharacterClassRange(it) => match other {
                CharacterClassContents::CharacterClassRange(that) => it.content_eq(that),
                _ => false,
            },
            CharacterClassContents::CharacterClassEscape(it) => match other {
                CharacterClassContents::CharacterClassEscape(that) => it.content_eq(that),
                _ => false,
            },
            CharacterClassContents::UnicodePropertyEscape(it) => match other {
                CharacterClassContents::UnicodePropertyEscape(that) => it.content_eq(that),
                _ => false,
            },
            CharacterClassContents::Character(it) => match other {
                CharacterClassContents::Character(that) => it.content_eq(that),
                _ => false,
            },
            CharacterClassContents::NestedCharacterClass(it) => match other {
                CharacterClassContents::NestedCharacterClass(that) => (**it).content_eq(&**that),
                _ => false,
            },
            CharacterClassContents::ClassStringDisjunction(it) => match other {
                CharacterClassContents::ClassStringDisjunction(that) => it.content_eq(that),
                _ => false,
            },
        }
    }

    ghost laws = { same_content (λ (a : CharacterClassContents). forget_member same_kind (mirror_contents a)) };
}
