ghost use Rattle.std.specs.Prelude.{◌≡◌, true};
ghost use Rattle.rx_base.specs.Diagnostic.{is_of_class, name_of, first_span_of, second_span_of};

use crate::{List, Span, Text};

mod kinds;
mod message;
mod reason;

pub use kinds::{DigitsKind, PropertyPart, RangeKind, SetOperator, Unterminated};

/// Why a pattern was refused, and where: each span is in bytes.
#[derive(Debug, Drop)]
pub enum Diagnostic {
    InvalidInput { span: Span },
    /// `flag` is the code point that names no flag.
    UnknownFlag { span: Span, flag: u32 },
    /// `flag` is the code point that stands twice.
    DuplicatedFlags { span: Span, flag: u32 },
    InvalidUnicodeFlags { span: Span },
    /// Two groups have the same name and can take part in one match.
    DuplicatedCapturingGroupNames { first: Span, second: Span },
    TooMayCapturingGroups { span: Span },
    ParsePatternIncomplete { span: Span },
    LoneQuantifier { span: Span },
    UnterminatedPattern { span: Span, what: Unterminated },
    InvalidExtendedAtomEscape { span: Span },
    InvalidBracedQuantifier { span: Span },
    /// `max` is the count of capturing groups. The number is larger.
    InvalidIndexedReference { span: Span, max: u32 },
    EmptyGroupSpecifier { span: Span },
    /// `names` are the names of the groups.
    InvalidNamedReference { span: Span, names: List<Text> },
    InvalidUnicodePropertyNameNegativeStrings { span: Span, name: Text },
    InvalidCharacterClass { span: Span },
    CharacterClassRangeOutOfOrder { span: Span, what: RangeKind },
    CharacterClassRangeDashNotSubtraction { span: Span },
    CharacterClassRangeInvalidAtom { span: Span },
    InvalidClassAtom { span: Span },
    EmptyClassSetExpression { span: Span },
    ClassIntersectionUnexpectedAmpersand { span: Span },
    ClassSetExpressionInvalidCharacter { span: Span, what: SetOperator },
    CharacterClassContentsInvalidOperands { span: Span },
    TooLargeNumberInBracedQuantifier { span: Span },
    BracedQuantifierOutOfOrder { span: Span },
    TooLargeNumberDigits { span: Span, what: DigitsKind },
    InvalidUnicodeProperty { span: Span, what: PropertyPart },
    InvalidUnicodePropertyOfStrings { span: Span, name: Text },
    InvalidUnicodeEscapeSequence { span: Span },
    InvalidSurrogatePair { span: Span },
    DuplicatedModifiers { span: Span },
    InvalidModifiers { span: Span },
    EmptyModifiers { span: Span },
    UnknownModifiers { span: Span },
}

impl Diagnostic {
    /// What it is called in the program's replies.
    pub fn name(&self) -> &'static str
        ensures { result.now ≡ name_of self.now }
    {
        match self {
            Self::InvalidInput { .. } => "invalid_input",
            Self::UnknownFlag { .. } => "unknown_flag",
            Self::DuplicatedFlags { .. } => "duplicated_flags",
            Self::InvalidUnicodeFlags { .. } => "invalid_unicode_flags",
            Self::DuplicatedCapturingGroupNames { .. } => "duplicated_capturing_group_names",
            Self::TooMayCapturingGroups { .. } => "too_may_capturing_groups",
            Self::ParsePatternIncomplete { .. } => "parse_pattern_incomplete",
            Self::LoneQuantifier { .. } => "lone_quantifier",
            Self::UnterminatedPattern { .. } => "unterminated_pattern",
            Self::InvalidExtendedAtomEscape { .. } => "invalid_extended_atom_escape",
            Self::InvalidBracedQuantifier { .. } => "invalid_braced_quantifier",
            Self::InvalidIndexedReference { .. } => "invalid_indexed_reference",
            Self::EmptyGroupSpecifier { .. } => "empty_group_specifier",
            Self::InvalidNamedReference { .. } => "invalid_named_reference",
            Self::TooLargeNumberInBracedQuantifier { .. } =>
                "too_large_number_in_braced_quantifier",
            Self::BracedQuantifierOutOfOrder { .. } => "braced_quantifier_out_of_order",
            Self::TooLargeNumberDigits { .. } => "too_large_number_digits",
            Self::InvalidUnicodeEscapeSequence { .. } => "invalid_unicode_escape_sequence",
            Self::InvalidSurrogatePair { .. } => "invalid_surrogate_pair",
            Self::DuplicatedModifiers { .. } => "duplicated_modifiers",
            Self::InvalidModifiers { .. } => "invalid_modifiers",
            Self::EmptyModifiers { .. } => "empty_modifiers",
            Self::UnknownModifiers { .. } => "unknown_modifiers",
            _ => self.class_name(),
        }
    }

    /// What a refusal of a class or of a property of characters is called.
    fn class_name(&self) -> &'static str
        requires { is_of_class self.now ≡ true }
        ensures { result.now ≡ name_of self.now }
    {
        match self {
            Self::InvalidUnicodePropertyNameNegativeStrings { .. } =>
                "invalid_unicode_property_name_negative_strings",
            Self::InvalidCharacterClass { .. } => "invalid_character_class",
            Self::CharacterClassRangeOutOfOrder { .. } => "character_class_range_out_of_order",
            Self::CharacterClassRangeDashNotSubtraction { .. } =>
                "character_class_range_dash_not_subtraction",
            Self::CharacterClassRangeInvalidAtom { .. } => "character_class_range_invalid_atom",
            Self::InvalidClassAtom { .. } => "invalid_class_atom",
            Self::EmptyClassSetExpression { .. } => "empty_class_set_expression",
            Self::ClassIntersectionUnexpectedAmpersand { .. } =>
                "class_intersection_unexpected_ampersand",
            Self::ClassSetExpressionInvalidCharacter { .. } =>
                "class_set_expression_invalid_character",
            Self::CharacterClassContentsInvalidOperands { .. } =>
                "character_class_contents_invalid_operands",
            Self::InvalidUnicodeProperty { .. } => "invalid_unicode_property",
            Self::InvalidUnicodePropertyOfStrings { .. } => "invalid_unicode_property_of_strings",
            _ => unreachable!(),
        }
    }

    /// The span, or the first of the two.
    pub fn first_span(&self) -> Span
        ensures { result ≡ first_span_of self.now }
    {
        match self {
            Self::DuplicatedCapturingGroupNames { first, .. } => *first,
            Self::InvalidInput { span }
            | Self::UnknownFlag { span, .. }
            | Self::DuplicatedFlags { span, .. }
            | Self::InvalidUnicodeFlags { span }
            | Self::TooMayCapturingGroups { span }
            | Self::ParsePatternIncomplete { span }
            | Self::LoneQuantifier { span }
            | Self::UnterminatedPattern { span, .. }
            | Self::InvalidExtendedAtomEscape { span }
            | Self::InvalidBracedQuantifier { span }
            | Self::InvalidIndexedReference { span, .. }
            | Self::EmptyGroupSpecifier { span }
            | Self::InvalidNamedReference { span, .. }
            | Self::TooLargeNumberInBracedQuantifier { span }
            | Self::BracedQuantifierOutOfOrder { span }
            | Self::TooLargeNumberDigits { span, .. }
            | Self::InvalidUnicodeEscapeSequence { span }
            | Self::InvalidSurrogatePair { span }
            | Self::DuplicatedModifiers { span }
            | Self::InvalidModifiers { span }
            | Self::EmptyModifiers { span }
            | Self::UnknownModifiers { span } => *span,
            _ => self.class_span(),
        }
    }

    /// The span of a class or of a property of characters that is refused.
    fn class_span(&self) -> Span
        requires { is_of_class self.now ≡ true }
        ensures { result ≡ first_span_of self.now }
    {
        match self {
            Self::InvalidUnicodePropertyNameNegativeStrings { span, .. }
            | Self::InvalidCharacterClass { span }
            | Self::CharacterClassRangeOutOfOrder { span, .. }
            | Self::CharacterClassRangeDashNotSubtraction { span }
            | Self::CharacterClassRangeInvalidAtom { span }
            | Self::InvalidClassAtom { span }
            | Self::EmptyClassSetExpression { span }
            | Self::ClassIntersectionUnexpectedAmpersand { span }
            | Self::ClassSetExpressionInvalidCharacter { span, .. }
            | Self::CharacterClassContentsInvalidOperands { span }
            | Self::InvalidUnicodeProperty { span, .. }
            | Self::InvalidUnicodePropertyOfStrings { span, .. } => *span,
            _ => unreachable!(),
        }
    }

    /// The second span of a pair of groups with the same name, and of nothing else.
    pub fn second_span(&self) -> Option<Span>
        ensures { result ≡ second_span_of self.now }
    {
        match self {
            Self::DuplicatedCapturingGroupNames { second, .. } => Some(*second),
            _ => None,
        }
    }
}
