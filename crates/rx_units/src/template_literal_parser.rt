ghost use Rattle.std.specs.Prelude.{◌≡◌, ◌∷◌, ◌+◌, ◌<◌, ◌^◌, ◌⊎◌, false, length, IfErr, IfOk, List, MatchOption, MatchResult, Some};
ghost use Rattle.std.specs.Str.{chars, encode_utf8_all};
ghost use Rattle.rx_base.specs.Ascii as ascii;
ghost use Rattle.rx_units.specs.declared.code_point.CodePoint.{CodePoint as UnitValue};
ghost use Rattle.rx_units.specs.declared.quoted_text.literal.Literal.TheVariants as literal;
ghost use Rattle.rx_units.specs.declared.template_literal_parser.TemplateFault.{TemplateFault as FaultValue};
ghost use Rattle.rx_units.specs.Messages.{template_message};
ghost use Rattle.rx_units.specs.Quoted.Answers.{IsGiven, IsTemplateOf, template_fault_at};
ghost use Rattle.rx_units.specs.Quoted.Faults.{IsTemplateFault, is_grave_accent};
ghost use Rattle.rx_units.specs.Quoted.Found.{seen_front};
ghost use Rattle.rx_units.specs.Quoted.Fronts.{front};
ghost use Rattle.rx_units.specs.Quoted.Texts.{IsDecoded, byte_count};
ghost use Rattle.rx_units.specs.Digits.{front_is};

use crate::quoted_text::found::Found;
use crate::quoted_text::reading::{Source, Stop, elements, width};
use crate::quoted_text::value::text_units;
use crate::quoted_text::{Element, Literal, Writing};
use crate::{CodePoint, Options};
use rx_base::{List, OutOfMemory, Span};
use std::alloc::Global;
use std::error::Error;
use std::fmt;
use std::marker::Model;

/// NoSubstitutionTemplate of ECMA-262, 12.9.6, as units.
#[derive(Debug, Drop)]
pub struct TemplateLiteral {
    pub span: Span,
    pub body: List<CodePoint>,
}

/// Why a template was not decoded.
#[derive(Clone, Copy, Debug, PartialEq, Eq)]
pub enum TemplateFault {
    OutOfMemory,
    InvalidInput { span: Span },
    TemplateSubstitution { span: Span },
    TooLargeUnicodeEscapeSequence { span: Span },
    InvalidHexEscape { span: Span },
    InvalidUnicodeEscape { span: Span },
    NotEscapeSequence { span: Span },
}

/// A width, a precision and the other options of a hole are ignored.
impl fmt::Display for TemplateFault {
    ghost output = { λ fault. Some (encode_utf8_all (template_message fault)) };

    ghost styled_output = { λ fault _. Some (encode_utf8_all (template_message fault)) };

    fn fmt<W: fmt::Write>(&self, f: &mut fmt::Formatter<W>) -> fmt::Result {
        f.write_str(match self {
            Self::OutOfMemory => "Out of memory",
            Self::InvalidInput { .. } =>
                "Template literal should be wrapped with ` or escaped properly",
            Self::TemplateSubstitution { .. } =>
                "Template literal should not contain unescaped `${}`",
            Self::TooLargeUnicodeEscapeSequence { .. } => "Too large unicode escape sequence",
            Self::InvalidHexEscape { .. } => "Invalid hex escape sequence",
            Self::InvalidUnicodeEscape { .. } => "Invalid unicode escape sequence",
            Self::NotEscapeSequence { .. } =>
                "Octal escapes, `\\8` and `\\9` are not allowed in template literals",
        })
    }
}

impl Error for TemplateFault {}

impl From<OutOfMemory> for TemplateFault {
    ghost use Rattle.std.specs.Prelude.{◌≡◌};
    ghost use Rattle.rx_units.specs.declared.template_literal_parser.TemplateFault.TheVariants as fault;

    ghost from_gives = { λ _ e. e ≡ fault.OutOfMemory };

    fn from(_: OutOfMemory) -> TemplateFault {
        TemplateFault::OutOfMemory
    }
}

/// Decodes a template.
#[derive(Drop)]
pub struct Parser {
    source: Source,
}

impl Model for Parser {
    ghost use Rattle.rx_units.specs.Quoted.Texts.{Given};

    ghost Value = { Given };

    ghost view = { λ p. p.source };
}

impl Parser {
    /// Takes a text with its grave accents. Fails only where there is not enough memory.
    pub fn new(alloc: Global, source_text: &str, options: Options) -> Result<Parser, TemplateFault>
        requires { options.span_offset + length source_text.now < 2 ^ 32 }
        ensures ok { IfOk result (λ parser. parser ≡ record { text = chars source_text.now; options = options }) }
        ensures err { IfErr result (λ fault. fault ≡ TemplateFault.OutOfMemory) }
    {
        let source = Source::new(alloc, source_text, options)?;
        Ok(Parser { source })
    }

    /// Decodes the text, or says where it is no template without substitutions. Strict mode changes nothing.
    pub fn parse(self) -> Result<TemplateLiteral, TemplateFault>
        ensures ok { IfOk result (IsTemplateOf self) }
        ensures err { IfErr result (λ fault. (fault ≡ TemplateFault.OutOfMemory) ⊎ IsTemplateFault self.options self.text fault) }
        ensures decodes { (units : List UnitValue) → IsDecoded literal.Template self.options self.text units → IfErr result (λ fault. fault ≡ TemplateFault.OutOfMemory) }
        ensures refuses { (f : FaultValue) → IsTemplateFault self.options self.text f → MatchResult result (λ it. ⊥) (λ fault. (fault ≡ TemplateFault.OutOfMemory) ⊎ (fault ≡ f)) }
    {
        let source = &self.source;
        decode(source.alloc, source.text.as_slice(), source.options)
    }
}

/// The template that a text is decoded to (NoSubstitutionTemplate of ECMA-262, 12.9.6).
fn decode(alloc: Global, text: &[char], options: Options) -> Result<TemplateLiteral, TemplateFault>
    requires { IsGiven text.now options }
    ensures ok { IfOk result (IsTemplateOf (record { text = text.now; options = options })) }
    ensures err { IfErr result (λ fault. (fault ≡ TemplateFault.OutOfMemory) ⊎ IsTemplateFault options text.now fault) }
    ensures decodes { (units : List UnitValue) → IsDecoded literal.Template options text.now units → IfErr result (λ fault. fault ≡ TemplateFault.OutOfMemory) }
    ensures refuses { (f : FaultValue) → IsTemplateFault options text.now f → MatchResult result (λ it. ⊥) (λ fault. (fault ≡ TemplateFault.OutOfMemory) ⊎ (fault ≡ f)) }
{
    decode_text(alloc, text, options)
}

/// The same. That no other answer is possible follows from its two clauses, since a text is decoded in one way or has one fault.
fn decode_text(
    alloc: Global,
    text: &[char],
    options: Options,
) -> Result<TemplateLiteral, TemplateFault>
    requires { IsGiven text.now options }
    ensures ok { IfOk result (IsTemplateOf (record { text = text.now; options = options })) }
    ensures err { IfErr result (λ fault. (fault ≡ TemplateFault.OutOfMemory) ⊎ IsTemplateFault options text.now fault) }
{
    let start = options.span_offset;
    let Some(inner) = strip_opening(text) else {
        let span = Span::empty(start);
        return Err(TemplateFault::InvalidInput { span });
    };
    let stop = elements(alloc, Literal::Template, inner, options)?;
    if !stop.is_end() {
        return Err(fault(&stop));
    }
    let span = Span::new(start, stop.end());
    let body = text_units(alloc, stop.units, options)?;
    Ok(TemplateLiteral { span, body })
}

/// The characters after the opening grave accent.
fn strip_opening(text: &[char]) -> Option<&[char]>
    ensures { MatchOption result (front_is is_grave_accent text.now ≡ false) (λ inner. text.now ≡ ascii.grave_accent ∷ inner.now) }
{
    match text {
        ['`', inner @ ..] => Some(inner),
        _ => None,
    }
}

/// The fault by what stands where reading stops.
fn fault(stop: &Stop<'_>) -> TemplateFault
    requires found { seen_front stop.now.found ≡ front literal.Template stop.now.rest.now }
    requires fits { stop.now.offset + byte_count stop.now.rest.now < 2 ^ 32 }
    ensures { result ≡ template_fault_at (seen_front stop.now.found) stop.now.offset stop.now.rest.now }
{
    let start = stop.offset;
    match stop.found {
        Found::Element {
            element: Element {
                writing: Writing::NotEscape,
                ..
            },
            length,
        } => TemplateFault::NotEscapeSequence {
            span: Span::new(start, start + width(stop.rest, length)),
        },
        Found::Element { .. } => TemplateFault::InvalidInput {
            span: Span::empty(start),
        },
        Found::Closer => TemplateFault::InvalidInput {
            span: stop.empty_span(1),
        },
        Found::Nothing { length } => TemplateFault::InvalidInput {
            span: stop.empty_span(length),
        },
        Found::Substitution => TemplateFault::TemplateSubstitution {
            span: Span::empty(start),
        },
        Found::InvalidHex { length } => TemplateFault::InvalidHexEscape {
            span: stop.empty_span(length),
        },
        Found::InvalidUnicode { length } => TemplateFault::InvalidUnicodeEscape {
            span: stop.span(length),
        },
        Found::TooLarge { length } => TemplateFault::TooLargeUnicodeEscapeSequence {
            span: stop.span(length),
        },
    }
}
