ghost use Rattle.std.specs.Prelude.{◌≡◌, ◌++◌, Some, true};
ghost use Rattle.std.specs.Str.{encode_utf8_all};
ghost use Rattle.rx_base.specs.Diagnostic.{is_of_class};
ghost use Rattle.rx_base.specs.DiagnosticMessage.{message_of, reason_of};
ghost use Rattle.rx_base.specs.Reason.{reason_bytes};

use super::Diagnostic;
use super::reason::Reason;
use super::reason::Reason::{Fixed, Flag, Name};
use std::error::Error;
use std::fmt;

impl Diagnostic {
    fn reason(&self) -> Reason<'_>
        ensures { reason_bytes result ≡ encode_utf8_all (reason_of self.now) }
    {
        match self {
            Self::InvalidInput { .. } => Fixed("Invalid input string literal"),
            Self::UnknownFlag { flag, .. } => Flag("Unknown flag: `", *flag, "` found"),
            Self::DuplicatedFlags { flag, .. } => Flag("Duplicated flag: `", *flag, "` found"),
            Self::InvalidUnicodeFlags { .. } => Fixed(
                "Invalid unicode flags combination `u` and `v`",
            ),
            Self::DuplicatedCapturingGroupNames { .. } => Fixed("Duplicated capturing group names"),
            Self::TooMayCapturingGroups { .. } => Fixed("Too many capturing groups"),
            Self::ParsePatternIncomplete { .. } => Fixed("Could not parse the entire pattern"),
            Self::LoneQuantifier { .. } => Fixed("Lone quantifier found, expected with `Atom`"),
            Self::UnterminatedPattern { what, .. } => Fixed(what.reason()),
            Self::InvalidExtendedAtomEscape { .. } => Fixed("Invalid extended atom escape"),
            Self::InvalidBracedQuantifier { .. } => Fixed("Invalid braced quantifier"),
            Self::InvalidIndexedReference { .. } => Fixed("Invalid indexed reference"),
            Self::EmptyGroupSpecifier { .. } => Fixed("Group specifier is empty"),
            Self::InvalidNamedReference { .. } => Fixed("Invalid named reference"),
            Self::TooLargeNumberInBracedQuantifier { .. } => Fixed(
                "Number is too large in braced quantifier",
            ),
            Self::BracedQuantifierOutOfOrder { .. } => Fixed(
                "Numbers out of order in braced quantifier",
            ),
            Self::TooLargeNumberDigits { what, .. } => Fixed(what.reason()),
            Self::InvalidUnicodeEscapeSequence { .. } => Fixed("Invalid unicode escape sequence"),
            Self::InvalidSurrogatePair { .. } => Fixed("Invalid surrogate pair"),
            Self::DuplicatedModifiers { .. } => Fixed("Duplicated modifier"),
            Self::InvalidModifiers { .. } => Fixed("Invalid modifiers"),
            Self::EmptyModifiers { .. } => Fixed("Empty modifiers"),
            Self::UnknownModifiers { .. } => Fixed("Unknown modifiers"),
            _ => self.class_reason(),
        }
    }

    /// The reason where what is refused is a class or a property of characters.
    fn class_reason(&self) -> Reason<'_>
        requires { is_of_class self.now ≡ true }
        ensures { reason_bytes result ≡ encode_utf8_all (reason_of self.now) }
    {
        match self {
            Self::InvalidUnicodePropertyNameNegativeStrings { name, .. } => Name(
                "Property name `",
                name.as_str(),
                "` is not allowed here",
            ),
            Self::InvalidCharacterClass { .. } => Fixed(
                "Invalid character class with strings unicode property",
            ),
            Self::CharacterClassRangeOutOfOrder { what, .. } => Fixed(what.reason()),
            Self::CharacterClassRangeDashNotSubtraction { .. } => Fixed(
                "Character class range out of order",
            ),
            Self::CharacterClassRangeInvalidAtom { .. } => Fixed(
                "Character class range with invalid atom",
            ),
            Self::InvalidClassAtom { .. } => Fixed("Invalid class atom"),
            Self::EmptyClassSetExpression { .. } => Fixed("Expected nonempty class set expression"),
            Self::ClassIntersectionUnexpectedAmpersand { .. } => Fixed(
                "Unexpected `&` inside of class intersection",
            ),
            Self::ClassSetExpressionInvalidCharacter { what, .. } => Fixed(what.reason()),
            Self::CharacterClassContentsInvalidOperands { .. } => Fixed(
                "Invalid class operands inside of character class contents",
            ),
            Self::InvalidUnicodeProperty { what, .. } => Fixed(what.reason()),
            Self::InvalidUnicodePropertyOfStrings { name, .. } => Name(
                "Invalid unicode property `",
                name.as_str(),
                "`",
            ),
            _ => unreachable!(),
        }
    }
}

/// Every message begins in the same way. Width, precision and the other options are ignored.
impl fmt::Display for Diagnostic {
    ghost output = { λ diagnostic. Some (encode_utf8_all (message_of diagnostic)) };

    ghost styled_output = { λ diagnostic _. Some (encode_utf8_all (message_of diagnostic)) };

    fn fmt<W: fmt::Write>(&self, f: &mut fmt::Formatter<W>) -> fmt::Result {
        f.write_str("Invalid regular expression: ")?;
        self.reason().write(f)
    }
}

impl Error for Diagnostic {}
