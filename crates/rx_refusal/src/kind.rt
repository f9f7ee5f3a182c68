ghost use Rattle.std.specs.Prelude.{◌≡◌};
ghost use Rattle.std.specs.Option.{option_copied};
ghost use Rattle.rx_refusal.specs.Kinds.{digits_kind as digits, kind_of, operator_kind as operator, property_kind as property, range_kind as range, unterminated_kind as unterminated};

use rx_base::{Diagnostic, DigitsKind, PropertyPart, RangeKind, SetOperator, Unterminated};

/// Which kind of its name a refusal is, where there are several.
pub fn kind_of(refusal: &Diagnostic) -> Option<&'static str>
    ensures { option_copied result ≡ kind_of refusal.now }
{
    match refusal {
        Diagnostic::UnterminatedPattern { what, .. } => Some(unterminated_kind(*what)),
        Diagnostic::CharacterClassRangeOutOfOrder { what, .. } => Some(range_kind(*what)),
        Diagnostic::ClassSetExpressionInvalidCharacter { what, .. } => Some(operator_kind(*what)),
        Diagnostic::TooLargeNumberDigits { what, .. } => Some(digits_kind(*what)),
        Diagnostic::InvalidUnicodeProperty { what, .. } => Some(property_kind(*what)),
        _ => None,
    }
}

fn unterminated_kind(what: Unterminated) -> &'static str
    ensures { result.now ≡ unterminated what }
{
    match what {
        Unterminated::LookAround => "look_around",
        Unterminated::CapturingGroup => "capturing_group",
        Unterminated::IgnoreGroup => "ignore_group",
        Unterminated::GroupName => "group_name",
        Unterminated::PropertyEscape => "property_escape",
        Unterminated::CharacterClass => "character_class",
        Unterminated::NestedClass => "nested_class",
        Unterminated::ClassStringDisjunction => "class_string_disjunction",
    }
}

fn range_kind(what: RangeKind) -> &'static str
    ensures { result.now ≡ range what }
{
    match what {
        RangeKind::ClassAtom => "class_atom",
        RangeKind::ClassSet => "class_set",
    }
}

fn operator_kind(what: SetOperator) -> &'static str
    ensures { result.now ≡ operator what }
{
    match what {
        SetOperator::Intersection => "intersection",
        SetOperator::Subtraction => "subtraction",
    }
}

fn digits_kind(what: DigitsKind) -> &'static str
    ensures { result.now ≡ digits what }
{
    match what {
        DigitsKind::Decimal => "decimal",
        DigitsKind::Hex => "hex",
    }
}

fn property_kind(what: PropertyPart) -> &'static str
    ensures { result.now ≡ property what }
{
    match what {
        PropertyPart::Name => "name",
        PropertyPart::NameOrValue => "name_or_value",
    }
}
