//! What to write instead of what is refused.
ghost use Rattle.std.specs.Prelude.{◌≡◌, Some};
ghost use Rattle.std.specs.Option.{option_copied};
ghost use Rattle.rx_refusal.specs.Helps.{class_help as for_class, class_text, escape_help as for_escape, escape_text, first_help as for_first, first_is_one_of, fixed_class_help as for_class_name, fixed_help as for_name, group_help as for_group, help_at, help_of, help_text, incomplete_help as for_incomplete, input_help as for_input, is_doubled as is_twice, is_escape as begins_escape, modifiers_help as for_modifiers, operand_help as for_operand, other_operator as other, read_from as from_byte, set_help as for_set, strings_help as for_strings, unicode_help as for_unicode, unterminated_help as for_unterminated};

use rx_base::{Diagnostic, SetOperator, Unterminated};
use rx_model::Form;

/// What to write instead.
#[derive(Clone, Copy, Debug, PartialEq, Eq)]
pub enum Help {
    NamedGroup,
    NamedReference,
    GroupOfModifiers,
    Modifiers,
    ModifierOnce,
    OnOrOff,
    PlainGroup,
    GroupEnd,
    Name,
    OtherName,
    LoneCharacter,
    Property,
    PropertyOfStrings,
    CharactersAlone,
    LoneQuantifier,
    SmallerFirst,
    Flags,
    FlagOnce,
    OneUnicodeFlag,
    Quotes,
    InEscape(EscapeHelp),
    InClass(ClassHelp),
}

/// What to write instead of a backslash that begins no escape, or after it.
#[derive(Clone, Copy, Debug, PartialEq, Eq)]
pub enum EscapeHelp {
    NeedlessBackslash,
    Backslash,
    HexadecimalDigits,
    ControlLetter,
    CodePoint,
    UnicodeEscape,
}

/// What to write in a class.
#[derive(Clone, Copy, Debug, PartialEq, Eq)]
pub enum ClassHelp {
    DoubledCharacter,
    OneOperator,
    Ampersand,
    ClassEnd,
    StringsEnd,
    Dash,
    Beside(SetOperator),
    Operand(SetOperator),
}

/// What to write instead, where the first span of a refusal lies in this text, so much being added to each place. The text of a constructor stands with its quotes.
pub fn help_for(form: Form, text: &str, offset: u32, refusal: &Diagnostic) -> Option<&'static str>
    ensures { option_copied result ≡ help_at form text.now offset refusal.now }
{
    let span = refusal.first_span();
    let bytes = text.as_bytes();
    let front = read_from(form, bytes, span.start.saturating_sub(offset) as usize);
    let after = read_from(form, bytes, span.end.saturating_sub(offset) as usize);
    Some(Help::of(refusal, bytes, front, after)?.text())
}

impl Help {
    /// What can be said of a refusal, if anything can, by what is read from the beginning and from the end of its first span on. An argument that is no string and no
    /// template is looked at as it stands.
    pub fn of(
        refusal: &Diagnostic,
        text: &[u8],
        front: Option<&[u8]>,
        after: Option<&[u8]>,
    ) -> Option<Help>
        ensures { result ≡ help_of refusal.now text.now (option_copied front.entry) (option_copied after.entry) }
    {
        match refusal {
            Diagnostic::InvalidInput { .. } => input_help(text),
            Diagnostic::UnknownModifiers { .. } => modifiers_help(after?),
            Diagnostic::ParsePatternIncomplete { .. } => Some(incomplete_help(front?)),
            Diagnostic::UnterminatedPattern { what, .. } => unterminated_help(*what, after),
            Diagnostic::InvalidClassAtom { .. } => Some(escape_help(after?)),
            Diagnostic::EmptyClassSetExpression { .. } => first_help(front?),
            Diagnostic::ClassSetExpressionInvalidCharacter { what, .. } => {
                Some(operand_help(*what, front?))
            }
            Diagnostic::InvalidUnicodeEscapeSequence { .. } => Some(unicode_help(front?)),
            _ => fixed_help(refusal),
        }
    }

    pub fn text(self) -> &'static str
        ensures { result.now ≡ help_text self }
    {
        match self {
            Help::NamedGroup => "named groups are written (?<a>b)",
            Help::NamedReference => "references by name are written \\k<a>",
            Help::GroupOfModifiers => "modifiers apply to a group, as in (?i:a)",
            Help::Modifiers => "the modifiers are i, m and s",
            Help::ModifierOnce => "write each modifier once",
            Help::OnOrOff => "a modifier is switched on or off, not both",
            Help::PlainGroup => "a group without modifiers is written (?:a)",
            Help::GroupEnd => "a group ends with )",
            Help::Name =>
                "a name consists of letters, digits, $ and _, does not begin with a digit, and ends with >",
            Help::OtherName => "give one of the two groups another name",
            Help::LoneCharacter =>
                "to match the character at which reading stops, write a backslash before it",
            Help::Property => "a property is written in braces, as in \\p{Letter}",
            Help::PropertyOfStrings => "properties of strings need the flag v",
            Help::CharactersAlone => "what is negated may hold single characters, but no strings",
            Help::LoneQuantifier =>
                "a quantifier follows what it repeats; to match the character itself, write a backslash before it",
            Help::SmallerFirst => "the smaller one comes first",
            Help::Flags => "the flags are d, g, i, m, s, u, v and y",
            Help::FlagOnce => "write each flag once",
            Help::OneUnicodeFlag => "v does all that u does, so leave out u",
            Help::Quotes => "an argument of RegExp is written with its quotes",
            Help::InEscape(it) => it.text(),
            Help::InClass(it) => it.text(),
        }
    }
}

impl EscapeHelp {
    fn text(self) -> &'static str
        ensures { result.now ≡ escape_text self }
    {
        match self {
            EscapeHelp::NeedlessBackslash =>
                "to match the character after the backslash, leave the backslash out",
            EscapeHelp::Backslash => "to match a backslash, write two",
            EscapeHelp::HexadecimalDigits => "two hexadecimal digits must follow \\x",
            EscapeHelp::ControlLetter => "a letter from a to z must follow \\c",
            EscapeHelp::CodePoint =>
                "a character is written by its number as \\x41, \\u0041 or, with u or v, \\u{1F600}",
            EscapeHelp::UnicodeEscape =>
                "four hexadecimal digits must follow \\u, or a number up to 10FFFF in braces, as in \\u{1F600}",
        }
    }
}

impl ClassHelp {
    fn text(self) -> &'static str
        ensures { result.now ≡ class_text self }
    {
        match self {
            ClassHelp::DoubledCharacter =>
                "a class with v holds no sign twice in a row: write it once, or a backslash before each",
            ClassHelp::OneOperator =>
                "&& and -- cannot be mixed: one of them must stand in brackets of its own",
            ClassHelp::Ampersand => "to match &, write \\&",
            ClassHelp::ClassEnd => "a class ends with ]",
            ClassHelp::StringsEnd => "\\q{ ends with }",
            ClassHelp::Dash => "to match -, write \\-",
            ClassHelp::Beside(SetOperator::Intersection) =>
                "a range must stand in brackets of its own beside &&, and so must more than one item",
            ClassHelp::Beside(SetOperator::Subtraction) =>
                "a range must stand in brackets of its own beside --, and so must more than one item",
            ClassHelp::Operand(SetOperator::Intersection) =>
                "something must stand on both sides of &&",
            ClassHelp::Operand(SetOperator::Subtraction) =>
                "something must stand on both sides of --",
        }
    }
}

/// What is read from a byte of a text on, where that is known: a literal has no quotes; an argument ends before its closing quote, and an escape of the string itself
/// is not looked at.
pub fn read_from(form: Form, text: &[u8], at: usize) -> Option<&[u8]>
    ensures { option_copied result ≡ from_byte form text.now at }
{
    let read = &text[at.min(text.len())..];
    match form {
        Form::Literal => Some(read),
        Form::Constructor if stands_first(b"\\", read) => None,
        Form::Constructor => Some(&read[..read.len().saturating_sub(1)]),
    }
}

/// What is the same for all refusals of a name.
fn fixed_help(refusal: &Diagnostic) -> Option<Help>
    ensures { result ≡ for_name refusal.now }
{
    match refusal {
        Diagnostic::UnknownFlag { .. } => Some(Help::Flags),
        Diagnostic::DuplicatedFlags { .. } => Some(Help::FlagOnce),
        Diagnostic::InvalidUnicodeFlags { .. } => Some(Help::OneUnicodeFlag),
        Diagnostic::DuplicatedCapturingGroupNames { .. } => Some(Help::OtherName),
        Diagnostic::LoneQuantifier { .. } => Some(Help::LoneQuantifier),
        Diagnostic::InvalidBracedQuantifier { .. } => Some(Help::LoneQuantifier),
        Diagnostic::BracedQuantifierOutOfOrder { .. } => Some(Help::SmallerFirst),
        Diagnostic::EmptyGroupSpecifier { .. } => Some(Help::NamedReference),
        Diagnostic::InvalidSurrogatePair { .. } => Some(Help::Name),
        Diagnostic::DuplicatedModifiers { .. } => Some(Help::ModifierOnce),
        Diagnostic::InvalidModifiers { .. } => Some(Help::OnOrOff),
        Diagnostic::EmptyModifiers { .. } => Some(Help::PlainGroup),
        Diagnostic::InvalidExtendedAtomEscape { .. } => {
            Some(Help::InEscape(EscapeHelp::Backslash))
        }
        _ => fixed_class_help(refusal),
    }
}

/// The same of classes and properties.
fn fixed_class_help(refusal: &Diagnostic) -> Option<Help>
    ensures { result ≡ for_class_name refusal.now }
{
    match refusal {
        Diagnostic::InvalidUnicodePropertyNameNegativeStrings { .. } => Some(Help::CharactersAlone),
        Diagnostic::InvalidCharacterClass { .. } => Some(Help::CharactersAlone),
        Diagnostic::CharacterClassContentsInvalidOperands { .. } => Some(Help::CharactersAlone),
        Diagnostic::InvalidUnicodePropertyOfStrings { .. } => Some(Help::PropertyOfStrings),
        Diagnostic::CharacterClassRangeOutOfOrder { .. } => Some(Help::SmallerFirst),
        Diagnostic::ClassIntersectionUnexpectedAmpersand { .. } => {
            Some(Help::InClass(ClassHelp::Ampersand))
        }
        Diagnostic::CharacterClassRangeInvalidAtom { .. } => Some(Help::InClass(ClassHelp::Dash)),
        Diagnostic::CharacterClassRangeDashNotSubtraction { .. } => {
            Some(Help::InClass(ClassHelp::Dash))
        }
        _ => None,
    }
}

/// By whether a text that is no string and no template begins with a quote.
fn input_help(text: &[u8]) -> Option<Help>
    ensures { result ≡ for_input text.now }
{
    if stands_first(b"\"'`", text) {
        None
    } else {
        Some(Help::Quotes)
    }
}

/// By what stands in place of a modifier.
fn modifiers_help(after: &[u8]) -> Option<Help>
    ensures { result ≡ for_modifiers after.now }
{
    if after.starts_with(b"P<") {
        Some(Help::NamedGroup)
    } else if stands_first(b"'", after) {
        Some(Help::NamedGroup)
    } else if after.starts_with(b"P=") {
        Some(Help::NamedReference)
    } else if after.is_empty() {
        Some(Help::GroupOfModifiers)
    } else if stands_first(b")", after) {
        Some(Help::GroupOfModifiers)
    } else if stands_first(
        b"-abcdefghijklmnopqrstuvwxyzABCDEFGHIJKLMNOPQRSTUVWXYZ",
        after,
    ) {
        Some(Help::Modifiers)
    } else {
        None
    }
}

/// By what stands where reading cannot go on: a character that stands for itself only after a backslash, or what a backslash stands before.
fn incomplete_help(front: &[u8]) -> Help
    ensures { result ≡ for_incomplete front.now }
{
    if stands_first(b")]{}", front) {
        Help::LoneCharacter
    } else {
        escape_help(front)
    }
}

/// The same in a group.
fn group_help(after: &[u8]) -> Help
    ensures { result ≡ for_group after.now }
{
    if after.is_empty() {
        Help::GroupEnd
    } else {
        incomplete_help(after)
    }
}

/// By whether the span is an escape in a name, or the `u` of an escape.
fn unicode_help(front: &[u8]) -> Help
    ensures { result ≡ for_unicode front.now }
{
    if stands_first(b"\\", front) {
        Help::Name
    } else {
        Help::InEscape(EscapeHelp::UnicodeEscape)
    }
}

/// By what stands after a backslash that begins no escape.
fn escape_help(after: &[u8]) -> Help
    ensures { result ≡ for_escape after.now }
{
    if after.is_empty() {
        Help::InEscape(EscapeHelp::Backslash)
    } else if stands_first(b"x", after) {
        Help::InEscape(EscapeHelp::HexadecimalDigits)
    } else if stands_first(b"c", after) {
        Help::InEscape(EscapeHelp::ControlLetter)
    } else if stands_first(b"u0123456789", after) {
        Help::InEscape(EscapeHelp::CodePoint)
    } else {
        Help::InEscape(EscapeHelp::NeedlessBackslash)
    }
}

fn unterminated_help(what: Unterminated, after: Option<&[u8]>) -> Option<Help>
    ensures { result ≡ for_unterminated what (option_copied after.entry) }
{
    match what {
        Unterminated::LookAround | Unterminated::CapturingGroup | Unterminated::IgnoreGroup => {
            Some(group_help(after?))
        }
        Unterminated::GroupName => Some(Help::Name),
        Unterminated::PropertyEscape => Some(Help::Property),
        Unterminated::CharacterClass | Unterminated::NestedClass => class_help(after?),
        Unterminated::ClassStringDisjunction => strings_help(after?),
    }
}

/// By what stands where a class is not read on.
fn class_help(after: &[u8]) -> Option<Help>
    ensures { result ≡ for_class after.now }
{
    if after.is_empty() {
        Some(Help::InClass(ClassHelp::ClassEnd))
    } else if after.starts_with(b"&&") {
        Some(Help::InClass(ClassHelp::Beside(SetOperator::Intersection)))
    } else if after.starts_with(b"--") {
        Some(Help::InClass(ClassHelp::Beside(SetOperator::Subtraction)))
    } else {
        set_help(after)
    }
}

/// By what stands first in a class.
fn first_help(front: &[u8]) -> Option<Help>
    ensures { result ≡ for_first front.now }
{
    if front.starts_with(b"&&") {
        Some(Help::InClass(ClassHelp::Operand(SetOperator::Intersection)))
    } else if front.starts_with(b"--") {
        Some(Help::InClass(ClassHelp::Operand(SetOperator::Subtraction)))
    } else {
        set_help(front)
    }
}

/// By what stands in strings of a class.
fn strings_help(after: &[u8]) -> Option<Help>
    ensures { result ≡ for_strings after.now }
{
    if after.is_empty() {
        Some(Help::InClass(ClassHelp::StringsEnd))
    } else {
        set_help(after)
    }
}

/// By what stands in place of an operand of a class with `v`.
fn set_help(front: &[u8]) -> Option<Help>
    ensures { result ≡ for_set front.now }
{
    if stands_first(b"\\", front) {
        Some(escape_help(&front[1..]))
    } else if is_doubled(front) {
        Some(Help::InClass(ClassHelp::DoubledCharacter))
    } else if stands_first(b"()[]{}/-|", front) {
        Some(Help::LoneCharacter)
    } else {
        None
    }
}

/// By what stands after an operator or after its operand.
fn operand_help(what: SetOperator, front: &[u8]) -> Help
    ensures { result ≡ for_operand what front.now }
{
    if front.is_empty() {
        Help::InClass(ClassHelp::ClassEnd)
    } else if stands_first(b"]", front) {
        Help::InClass(ClassHelp::Operand(what))
    } else if front.starts_with(other_operator(what)) {
        Help::InClass(ClassHelp::OneOperator)
    } else if is_doubled(front) {
        Help::InClass(ClassHelp::DoubledCharacter)
    } else if front.starts_with(b"-]") {
        Help::InClass(ClassHelp::Dash)
    } else if stands_first(b"-[", front) || is_escape(front) {
        Help::InClass(ClassHelp::Beside(what))
    } else {
        set_help(front).unwrap_or(Help::InClass(ClassHelp::Beside(what)))
    }
}

fn other_operator(what: SetOperator) -> &'static [u8]
    ensures { result.now ≡ other what }
{
    match what {
        SetOperator::Intersection => b"--",
        SetOperator::Subtraction => b"&&",
    }
}

/// Whether a text begins with a character that a class with `v` does not hold twice in a row.
fn is_doubled(text: &[u8]) -> bool
    ensures { result ≡ is_twice text.now }
{
    stands_first(b"&!#$%*+,-.:;<=>?@^`~", text) && text.len() >= 2 && text[0] == text[1]
}

/// Whether a text begins with a backslash and what makes an escape with it in a class with `v`, but for digits, `c` and `x`, after which not all makes one.
fn is_escape(text: &[u8]) -> bool
    ensures { result ≡ begins_escape text.now }
{
    stands_first(b"\\", text)
        && stands_first(
            b"dDsSwWpPqbfnrtvu^$\\.*+?()[]{}|/&-!#%,:;<=>@`~",
            &text[1..],
        )
}

/// Whether a text begins with one of these bytes.
fn stands_first(bytes: &[u8], text: &[u8]) -> bool
    ensures { result ≡ first_is_one_of bytes.now text.now }
{
    match text.first() {
        Some(byte) => bytes.contains(byte),
        None => false,
    }
}
