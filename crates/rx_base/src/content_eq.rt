ghost use Rattle.std.specs.Prelude.{◌↔◌, IsTrue};

use crate::{List, Text};

/// Values that are compared by their content, without their spans.
pub trait ContentEq {
    ghost use Rattle.rx_base.specs.Equivalence.{IsEquivalence};

    /// The two have the same content.
    ghost same: { Self → Self → Type 0 };

    /// Whether the two have the same content. It takes no memory.
    fn content_eq(&self, other: &Self) -> bool
        ensures { IsTrue result ↔ same self.now other.now };

    /// It is reflexive, symmetric and transitive.
    ghost laws: { IsEquivalence same };
}

/// Texts of the same characters.
impl ContentEq for Text {
    ghost use Rattle.std.specs.Prelude.{◌≡◌};
    ghost use Rattle.rx_base.specs.Equivalence.{same_content};

    ghost same = { λ a b. a ≡ b };

    fn content_eq(&self, other: &Text) -> bool {
        self.as_str() == other.as_str()
    }

    ghost laws = { same_content (λ a. a) };
}

/// Lists of the same length whose items have the same content, index by index.
impl<T: ContentEq> ContentEq for List<T> {
    ghost use Rattle.std.specs.List.{AllZip};
    ghost use Rattle.rx_base.specs.Equivalence.{each_equivalent};

    ghost same = { AllZip T.same };

    fn content_eq(&self, other: &List<T>) -> bool {
        if self.len() != other.len() {
            return false;
        }
        let others = other.as_slice();
        for (i, item) in self.as_slice().iter().enumerate() {
            if !item.content_eq(&others[i]) {
                return false;
            }
        }
        true
    }

    ghost laws = { each_equivalent T.same T.laws };
}

/// Boxes of values with the same content.
impl<T: ContentEq> ContentEq for Box<T> {
    ghost use Rattle.rx_base.specs.Equivalence.{IsEquivalence};

    ghost same = { λ a b. T.same a.value b.value };

    fn content_eq(&self, other: &Box<T>) -> bool {
        (**self).content_eq(&**other)
    }

    ghost laws = { record {
      reflexive = λ a. T.laws.reflexive a.value;
      symmetric = λ a b. T.laws.symmetric a.value b.value;
      transitive = λ a b c. T.laws.transitive a.value b.value c.value;
    } };
}

/// Both are `None`, or both are `Some` with the same content.
impl<T: ContentEq> ContentEq for Option<T> {
    ghost use Rattle.rx_base.specs.Equivalence.{BothOrNeither, both_equivalent};

    ghost same = { BothOrNeither T.same };

    fn content_eq(&self, other: &Option<T>) -> bool {
        match self {
            None => other.is_none(),
            Some(item) => match other {
                None => false,
                Some(it) => item.content_eq(it),
            },
        }
    }

    ghost laws = { both_equivalent T.same T.laws };
}
