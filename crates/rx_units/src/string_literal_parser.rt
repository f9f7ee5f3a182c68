ghost use Rattle.std.specs.Prelude.{◌≡◌, ◌∷◌, ◌+◌, ◌<◌, ◌^◌, ◌⊎◌, false, length, IfErr, IfOk, List, MatchOption, MatchResult, Some};
ghost use Rattle.std.specs.Str.{chars, encode_utf8_all};
ghost use Rattle.rx_units.specs.declared.code_point.CodePoint.{CodePoint as UnitValue};
ghost use Rattle.rx_units.specs.declared.quoted_text.literal.Literal.TheVariants as literal;
ghost use Rattle.rx_units.specs.declared.string_literal_parser.StringFault.{StringFault as FaultValue};
ghost use Rattle.rx_units.specs.declared.string_literal_parser.StringLiteralKind.{StringLiteralKind as StringKind};
ghost use Rattle.rx_units.specs.Messages.{legacy_name, string_message};
ghost use Rattle.rx_units.specs.Quoted.Answers.{IsGiven, IsStringOf, string_fault_at};
ghost use Rattle.rx_units.specs.Quoted.Elements.{quote_of};
ghost use Rattle.rx_units.specs.Quoted.Faults.{IsStringFault, is_string_quote};
ghost use Rattle.rx_units.specs.Quoted.Found.{seen_front};
ghost use Rattle.rx_units.specs.Quoted.Fronts.{front};
ghost use Rattle.rx_units.specs.Quoted.Texts.{IsDecoded, byte_count};
ghost use Rattle.rx_units.specs.Digits.{front_is};

use crate::quoted_text::found::Found;
use crate::quoted_text::reading::{Source, Stop, elements, width};
use crate::quoted_text::value::text_units;
use crate::quoted_text::{Element, Literal, Writing};
use crate::{CodePoint, Options};
use rx_base::{List, OutOfMemory, Span};
use std::alloc::Global;
use std::error::Error;
use std::fmt;
use std::marker::Model;

/// StringLiteral of ECMA-262, 12.9.4, as units.
#[derive(Debug, Drop)]
pub struct StringLiteral {
    pub span: Span,
    pub kind: StringLiteralKind,
    pub body: List<CodePoint>,
}

/// In which quotes a string stands.
#[derive(Clone, Copy, Debug, PartialEq, Eq)]
pub enum StringLiteralKind {
    Double,
    Single,
}

/// An escape that strict mode code does not allow (ECMA-262, 12.9.4.1).
#[derive(Clone, Copy, Debug, PartialEq, Eq)]
pub enum LegacyKind {
    /// LegacyOctalEscapeSequence
    Octal,
    /// NonOctalDecimalEscapeSequence
    NonOctalDecimal,
}

/// A width, a precision and the other options of a hole are ignored.
impl fmt::Display for LegacyKind {
    ghost output = { λ kind. Some (encode_utf8_all (legacy_name kind)) };

    ghost styled_output = { λ kind _. Some (encode_utf8_all (legacy_name kind)) };

    fn fmt<W: fmt::Write>(&self, f: &mut fmt::Formatter<W>) -> fmt::Result {
        match self {
            LegacyKind::Octal => f.write_str("octal"),
            LegacyKind::NonOctalDecimal => f.write_str("non octal decimal"),
        }
    }
}

/// Why a string was not decoded.
#[derive(Clone, Copy, Debug, PartialEq, Eq)]
pub enum StringFault {
    OutOfMemory,
    InvalidInput { span: Span },
    LegacyInStrictMode { what: LegacyKind, span: Span },
    TooLargeUnicodeEscapeSequence { span: Span },
}

/// A width, a precision and the other options of a hole are ignored.
// Why: docs/DECISIONS.md, 92.
impl fmt::Display for StringFault {
    ghost output = { λ fault. Some (encode_utf8_all (string_message fault)) };

    ghost styled_output = { λ fault _. Some (encode_utf8_all (string_message fault)) };

    fn fmt<W: fmt::Write>(&self, f: &mut fmt::Formatter<W>) -> fmt::Result {
        f.write_str(match self {
            Self::OutOfMemory => "Out of memory",
            Self::InvalidInput { .. } =>
                "String literal should be wrapped with ' or \", or escaped properly",
            Self::LegacyInStrictMode {
                what: LegacyKind::Octal,
                ..
            } => "Not allowed octal escape sequence in strict mode",
            Self::LegacyInStrictMode {
                what: LegacyKind::NonOctalDecimal,
                ..
            } => "Not allowed non octal decimal escape sequence in strict mode",
            Self::TooLargeUnicodeEscapeSequence { .. } => "Too large unicode escape sequence",
        })
    }
}

impl Error for StringFault {}

impl From<OutOfMemory> for StringFault {
    ghost use Rattle.std.specs.Prelude.{◌≡◌};
    ghost use Rattle.rx_units.specs.declared.string_literal_parser.StringFault.TheVariants as fault;

    ghost from_gives = { λ _ e. e ≡ fault.OutOfMemory };

    fn from(_: OutOfMemory) -> StringFault {
        StringFault::OutOfMemory
    }
}

/// Decodes a string.
#[derive(Drop)]
pub struct Parser {
    source: Source,
}

impl Model for Parser {
    ghost use Rattle.rx_units.specs.Quoted.Texts.{Given};

    ghost Value = { Given };

    ghost view = { λ p. p.source };
}

impl Parser {
    /// Takes a text with its quotes. Fails only where there is not enough memory.
    pub fn new(alloc: Global, source_text: &str, options: Options) -> Result<Parser, StringFault>
        requires { options.span_offset + length source_text.now < 2 ^ 32 }
        ensures ok { IfOk result (λ parser. parser ≡ record { text = chars source_text.now; options = options }) }
        ensures err { IfErr result (λ fault. fault ≡ StringFault.OutOfMemory) }
    {
        let source = Source::new(alloc, source_text, options)?;
        Ok(Parser { source })
    }

    /// Decodes the text, or says where it is no string.
    pub fn parse(self) -> Result<StringLiteral, StringFault>
        ensures ok { IfOk result (IsStringOf self) }
        ensures err { IfErr result (λ fault. (fault ≡ StringFault.OutOfMemory) ⊎ IsStringFault self.options self.text fault) }
        ensures decodes { (kind : StringKind) (units : List UnitValue) → IsDecoded (literal.String kind) self.options self.text units → IfErr result (λ fault. fault ≡ StringFault.OutOfMemory) }
        ensures refuses { (f : FaultValue) → IsStringFault self.options self.text f → MatchResult result (λ it. ⊥) (λ fault. (fault ≡ StringFault.OutOfMemory) ⊎ (fault ≡ f)) }
    {
        let source = &self.source;
        decode(source.alloc, source.text.as_slice(), source.options)
    }
}

/// The string that a text is decoded to (StringLiteral of ECMA-262, 12.9.4).
fn decode(alloc: Global, text: &[char], options: Options) -> Result<StringLiteral, StringFault>
    requires { IsGiven text.now options }
    ensures ok { IfOk result (IsStringOf (record { text = text.now; options = options })) }
    ensures err { IfErr result (λ fault. (fault ≡ StringFault.OutOfMemory) ⊎ IsStringFault options text.now fault) }
    ensures decodes { (kind : StringKind) (units : List UnitValue) → IsDecoded (literal.String kind) options text.now units → IfErr result (λ fault. fault ≡ StringFault.OutOfMemory) }
    ensures refuses { (f : FaultValue) → IsStringFault options text.now f → MatchResult result (λ it. ⊥) (λ fault. (fault ≡ StringFault.OutOfMemory) ⊎ (fault ≡ f)) }
{
    decode_text(alloc, text, options)
}

/// The same. That no other answer is possible follows from its two clauses, since a text is decoded in one way or has one fault.
fn decode_text(alloc: Global, text: &[char], options: Options) -> Result<StringLiteral, StringFault>
    requires { IsGiven text.now options }
    ensures ok { IfOk result (IsStringOf (record { text = text.now; options = options })) }
    ensures err { IfErr result (λ fault. (fault ≡ StringFault.OutOfMemory) ⊎ IsStringFault options text.now fault) }
{
    let start = options.span_offset;
    let Some((kind, inner)) = strip_opening(text) else {
        let span = Span::empty(start);
        return Err(StringFault::InvalidInput { span });
    };
    let stop = elements(alloc, Literal::String(kind), inner, options)?;
    if !stop.is_end() {
        return Err(fault(kind, &stop));
    }
    let span = Span::new(start, stop.end());
    let body = text_units(alloc, stop.units, options)?;
    Ok(StringLiteral { span, kind, body })
}

/// In which quotes a string stands, and the characters after the opening one.
fn strip_opening(text: &[char]) -> Option<(StringLiteralKind, &[char])>
    ensures { MatchOption result (front_is is_string_quote text.now ≡ false) (λ it. text.now ≡ quote_of (literal.String it.0) ∷ it.1.now) }
{
    match text {
        ['"', inner @ ..] => Some((StringLiteralKind::Double, inner)),
        ['\'', inner @ ..] => Some((StringLiteralKind::Single, inner)),
        _ => None,
    }
}

/// The fault by what stands where reading stops.
fn fault(kind: StringLiteralKind, stop: &Stop<'_>) -> StringFault
    requires found { seen_front stop.now.found ≡ front (literal.String kind) stop.now.rest.now }
    requires fits { stop.now.offset + byte_count stop.now.rest.now < 2 ^ 32 }
    ensures { result ≡ string_fault_at (seen_front stop.now.found) stop.now.offset stop.now.rest.now }
{
    let start = stop.offset;
    match stop.found {
        Found::Element {
            element: Element {
                writing: Writing::Legacy(what),
                ..
            },
            length,
        } => StringFault::LegacyInStrictMode {
            what,
            span: Span::new(start, start + width(stop.rest, length)),
        },
        Found::TooLarge { length } => StringFault::TooLargeUnicodeEscapeSequence {
            span: stop.span(length),
        },
        Found::Closer => StringFault::InvalidInput {
            span: stop.empty_span(1),
        },
        _ => StringFault::InvalidInput {
            span: Span::empty(start),
        },
    }
}
