ghost use Rattle.std.specs.Prelude.{◌≡◌};
ghost use Rattle.std.specs.Str.{encode_utf8_all};
ghost use Rattle.rx_base.specs.DiagnosticMessage.{unterminated_reason, range_reason, operator_reason, digits_reason, property_reason};

/// What was begun but not ended.
#[derive(Clone, Copy, Debug, PartialEq, Eq)]
pub enum Unterminated {
    LookAround,
    CapturingGroup,
    IgnoreGroup,
    GroupName,
    PropertyEscape,
    CharacterClass,
    NestedClass,
    ClassStringDisjunction,
}

impl Unterminated {
    pub(super) fn reason(self) -> &'static str
        ensures { result.now ≡ encode_utf8_all (unterminated_reason self) }
    {
        match self {
            Self::LookAround => "Unterminated lookaround assertion",
            Self::CapturingGroup => "Unterminated capturing group",
            Self::IgnoreGroup => "Unterminated ignore group",
            Self::GroupName => "Unterminated capturing group name",
            Self::PropertyEscape => "Unterminated unicode property escape",
            Self::CharacterClass => "Unterminated character class",
            Self::NestedClass => "Unterminated nested class",
            Self::ClassStringDisjunction => "Unterminated class string disjunction",
        }
    }
}

/// Which kind of range is out of order: one of a class, or one of a class set.
#[derive(Clone, Copy, Debug, PartialEq, Eq)]
pub enum RangeKind {
    ClassAtom,
    ClassSet,
}

impl RangeKind {
    pub(super) fn reason(self) -> &'static str
        ensures { result.now ≡ encode_utf8_all (range_reason self) }
    {
        match self {
            Self::ClassAtom => "Character class atom range out of order",
            Self::ClassSet => "Character class set range out of order",
        }
    }
}

/// An operator of classes with `v`. In a refusal it is the one between whose operands a character is wrong.
#[derive(Clone, Copy, Debug, PartialEq, Eq)]
pub enum SetOperator {
    Intersection,
    Subtraction,
}

impl SetOperator {
    pub(super) fn reason(self) -> &'static str
        ensures { result.now ≡ encode_utf8_all (operator_reason self) }
    {
        match self {
            Self::Intersection => "Unexpected character inside of class intersection",
            Self::Subtraction => "Unexpected character inside of class subtraction",
        }
    }
}

/// In which digits a number is written.
#[derive(Clone, Copy, Debug, PartialEq, Eq)]
pub enum DigitsKind {
    Decimal,
    Hex,
}

impl DigitsKind {
    pub(super) fn reason(self) -> &'static str
        ensures { result.now ≡ encode_utf8_all (digits_reason self) }
    {
        match self {
            Self::Decimal => "Number is too large in decimal digits",
            Self::Hex => "Number is too large in hex digits",
        }
    }
}

/// Which part of a property is not known.
#[derive(Clone, Copy, Debug, PartialEq, Eq)]
pub enum PropertyPart {
    Name,
    NameOrValue,
}

impl PropertyPart {
    pub(super) fn reason(self) -> &'static str
        ensures { result.now ≡ encode_utf8_all (property_reason self) }
    {
        match self {
            Self::Name => "Invalid unicode property name",
            Self::NameOrValue => "Invalid unicode property name and/or value",
        }
    }
}
