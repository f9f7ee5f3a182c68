ghost use Rattle.std.specs.Prelude.{◌≡◌, ◌↔◌, IsTrue, Some, true};
ghost use Rattle.std.specs.Option.{option_map};
ghost use Rattle.rx_model.specs.Classes.ClassFromTokens.{kind_of};
ghost use Rattle.rx_model.specs.Classes.ClassRuns.{empty, is_union, is_whole, operand, operator_of, with_range, with_strings, pending, with_operator};
ghost use Rattle.rx_class.specs.SetReading.HeldMirror.{mirror_held};

use rx_ast::CharacterClassContentsKind;
use rx_base::SetOperator;

/// What a bracket of a class holds so far (ClassContents of ECMA-262, 22.2.1).
#[derive(Clone, Copy)]
pub enum Held {
    /// Nothing.
    Empty,

    /// One operand.
    Single,

    /// More of a union: operands and ranges.
    Several,

    /// Operands with the operator between, and such an operator at the end.
    Pending(SetOperator),

    /// Two operands or more with the operator between.
    Joined(SetOperator),
}

impl Held {
    /// What is held after one more operand, or `None` where none may stand.
    pub fn with_operand(self) -> Option<Held>
        ensures { option_map mirror_held result ≡ operand (mirror_held self) }
    {
        match self {
            Held::Empty => Some(Held::Single),
            Held::Single | Held::Several => Some(Held::Several),
            Held::Pending(operator) => Some(Held::Joined(operator)),
            Held::Joined(_) => None,
        }
    }

    /// Whether no operator is held.
    #[inline(always)]
    pub fn is_union(self) -> bool
        ensures { result ≡ is_union (mirror_held self) }
    {
        matches!(self, Held::Empty | Held::Single | Held::Several)
    }

    /// What a union holds after one more operand.
    #[inline(always)]
    pub fn with_member(self) -> Held
        requires { is_union (mirror_held self) ≡ true }
        ensures { operand (mirror_held self) ≡ Some (mirror_held result) }
    {
        if self.is_empty() {
            Held::Single
        } else {
            Held::Several
        }
    }

    /// What is held after one more range, or `None` where none may stand.
    pub fn with_range(self) -> Option<Held>
        ensures { option_map mirror_held result ≡ with_range (mirror_held self) }
    {
        match self {
            Held::Empty | Held::Single | Held::Several => Some(Held::Several),
            Held::Pending(_) | Held::Joined(_) => None,
        }
    }

    /// What is held after the operator, or `None` where it may not stand.
    pub fn with_operator(self, operator: SetOperator) -> Option<Held>
        ensures { option_map mirror_held result ≡ with_operator operator (mirror_held self) }
    {
        match self {
            Held::Single => Some(Held::Pending(operator)),
            Held::Joined(between) if between == operator => Some(Held::Pending(operator)),
            Held::Empty | Held::Several | Held::Pending(_) | Held::Joined(_) => None,
        }
    }

    /// Whether the bracket may close: no operator stands at the end.
    pub fn is_whole(self) -> bool
        ensures { result ≡ is_whole (mirror_held self) }
    {
        match self {
            Held::Pending(_) => false,
            Held::Empty | Held::Single | Held::Several | Held::Joined(_) => true,
        }
    }

    /// Whether nothing is held.
    pub fn is_empty(self) -> bool
        ensures { IsTrue result ↔ (mirror_held self ≡ empty) }
    {
        matches!(self, Held::Empty)
    }

    /// The operator that stands between the operands.
    pub fn operator(self) -> Option<SetOperator>
        ensures { result ≡ operator_of (mirror_held self) }
    {
        match self {
            Held::Empty | Held::Single | Held::Several => None,
            Held::Pending(operator) | Held::Joined(operator) => Some(operator),
        }
    }

    /// Whether the operator stands at the end.
    pub fn is_pending(self, operator: SetOperator) -> bool
        ensures { IsTrue result ↔ (mirror_held self ≡ pending operator) }
    {
        match self {
            Held::Pending(last) => last == operator,
            _ => false,
        }
    }

    /// What its operands make up.
    pub fn kind(self) -> CharacterClassContentsKind
        ensures { result ≡ kind_of (mirror_held self) }
    {
        match self.operator() {
            None => CharacterClassContentsKind::Union,
            Some(SetOperator::Intersection) => CharacterClassContentsKind::Intersection,
            Some(SetOperator::Subtraction) => CharacterClassContentsKind::Subtraction,
        }
    }

    /// Whether the contents may match strings (MayContainStrings of ECMA-262, 22.2.1.8) with one operand more, by
    /// whether the old ones may, and the new one.
    pub fn with_strings(self, old: bool, new: bool) -> bool
        ensures { result ≡ with_strings (mirror_held self) old new }
    {
        match self {
            Held::Empty => new,
            Held::Single | Held::Several => old || new,
            Held::Pending(SetOperator::Intersection) => old && new,
            Held::Pending(SetOperator::Subtraction) | Held::Joined(_) => old,
        }
    }
}
