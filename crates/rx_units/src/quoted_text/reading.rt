ghost use Rattle.std.specs.Prelude.{◌≡◌, ◌+◌, ◌<◌, ◌≤◌, ◌^◌, ℕ, All, IfOk, IfSome, MatchOption, true, length, take, drop, ◌==◌, ◌&&◌};
ghost use Rattle.std.specs.Str.{chars};
ghost use Rattle.rx_units.specs.declared.options.Options.{Options as OptionsValue};
ghost use Rattle.rx_units.specs.declared.quoted_text.element.Element.{Element as ElementValue};
ghost use Rattle.rx_units.specs.declared.quoted_text.literal.Literal.{Literal as LiteralValue};
ghost use Rattle.rx_units.specs.Quoted.Answers.{IsPlainFront, IsStop};
ghost use Rattle.rx_units.specs.Quoted.Faults.{empty_at, from_to};
ghost use Rattle.rx_units.specs.Quoted.Found.{is_closer, seen_front};
ghost use Rattle.rx_units.specs.Quoted.Fronts.{element, front, is_plain};
ghost use Rattle.rx_units.specs.Quoted.Texts.{IsAllowed, Leads, byte_count, is_refused};

use crate::quoted_text::found::Found;
use crate::quoted_text::string_front::string_front;
use crate::quoted_text::template_front::template_front;
use crate::quoted_text::value::push_element;
use crate::quoted_text::{Element, Literal, Writing};
use crate::string_literal_parser::StringLiteralKind;
use crate::{CR, CodePoint, EscapeKind, LF, Options};
use rx_base::{List, OutOfMemory, Span};
use std::alloc::{AllocError, Global};
use std::marker::Model;

/// A text, character by character, and how it is decoded.
#[derive(Drop)]
pub(crate) struct Source {
    pub alloc: Global,
    pub text: Vec<char>,
    pub options: Options,
}

impl Model for Source {
    ghost use Rattle.rx_units.specs.Quoted.Answers.{IsGiven};
    ghost use Rattle.rx_units.specs.Quoted.Texts.{Given};

    ghost Value = { Given };

    ghost view = { λ s. record { text = s.text.items; options = s.options } };

    ghost invariant = { λ s. IsGiven s.text.items s.options };
}

impl Source {
    pub(crate) fn new(
        alloc: Global,
        source_text: &str,
        options: Options,
    ) -> Result<Source, OutOfMemory>
        requires { options.span_offset + length source_text.now < 2 ^ 32 }
        ensures { IfOk result (λ source. source ≡ record { text = chars source_text.now; options = options }) }
    {
        let text = characters(alloc, source_text)?;
        Ok(Source {
            alloc,
            text,
            options,
        })
    }
}

fn characters(alloc: Global, text: &str) -> Result<Vec<char>, AllocError>
    ensures { IfOk result (λ characters. characters.items ≡ chars text.now) }
{
    if text.is_ascii() {
        return ascii_characters(alloc, text.as_bytes());
    }
    text.chars().collect(alloc)
}

/// The characters of ASCII text, which are its bytes.
fn ascii_characters(alloc: Global, bytes: &[u8]) -> Result<Vec<char>, AllocError>
    ensures { IfOk result (λ characters. characters.items ≡ bytes.now) }
{
    let mut characters = Vec::with_capacity(alloc, bytes.len())?;
    for byte in bytes {
        characters.push_reserved(*byte as char);
    }
    Ok(characters)
}

/// The place after elements at which none stands, or one that is not allowed.
#[derive(Drop)]
pub(crate) struct Stop<'a> {
    pub units: List<CodePoint>,
    pub offset: u32,
    pub rest: &'a [char],
    pub found: Found,
}

impl Stop<'_> {
    /// Whether the closing quote stands here, and then the text ends.
    pub(crate) fn is_end(&self) -> bool
        ensures { result ≡ (is_closer (seen_front self.now.found) && (length self.now.rest.now == 1)) }
    {
        matches!(self.found, Found::Closer) && self.rest.len() == 1
    }

    /// The offset after the closing quote that stands here.
    pub(crate) fn end(&self) -> u32
        requires { self.now.offset + 1 < 2 ^ 32 }
        ensures { result ≡ self.now.offset + 1 }
    {
        self.offset + 1
    }

    /// Covers some characters from here on, of one byte each.
    pub(crate) fn span(&self, length: usize) -> Span
        requires { self.now.offset + length < 2 ^ 32 }
        ensures { result ≡ from_to self.now.offset (self.now.offset + length) }
    {
        Span::sized(self.offset, length as u32)
    }

    /// Covers nothing, after some characters of one byte each.
    pub(crate) fn empty_span(&self, length: usize) -> Span
        requires { self.now.offset + length < 2 ^ 32 }
        ensures { result ≡ empty_at (self.now.offset + length) }
    {
        Span::empty(self.offset + length as u32)
    }
}

/// Reads the elements after an opening quote (DoubleStringCharacters, SingleStringCharacters or TemplateCharacters of ECMA-262, 12.9.4 and 12.9.6).
// Why: docs/DECISIONS.md, 49.
pub(crate) fn elements<'a>(
    alloc: Global,
    literal: Literal,
    inner: &'a [char],
    options: Options,
) -> Result<Stop<'a>, OutOfMemory>
    requires fits { options.span_offset + 1 + byte_count inner.now < 2 ^ 32 }
    requires code_points { All (λ c. c ≤ 0x10FFFF) inner.now }
    ensures { IfOk result (IsStop literal options inner.now) }
{
    // Only a character past FFFF gives more than one unit.
    let mut units = List::with_capacity(alloc, inner.len())?;
    let (mut offset, mut rest) = push_plain(&mut units, inner, options.span_offset + 1)?;
    while let Some((element, length)) = next_element(literal, rest, options) {
        let end = offset + width(rest, length);
        push_element(&mut units, element, (offset, end), options)?;
        (offset, rest) = push_plain(&mut units, rest_after(rest, length), end)?;
    }
    let found = front(literal, rest);
    Ok(Stop {
        units,
        offset,
        rest,
        found,
    })
}

/// Adds the units of the plain elements that stand next. Gives the place after them and the characters from there on.
fn push_plain<'a>(
    units: &mut List<CodePoint>,
    chars: &'a [char],
    start: u32,
) -> Result<(u32, &'a [char]), OutOfMemory>
    requires { start + byte_count chars.now < 2 ^ 32 }
    ensures { IfOk result (λ end. (literal : LiteralValue) (o : OptionsValue) → Leads literal o
        (record { units = units.old; offset = start; rest = chars.now }) (record { units = units.new; offset = end.0; rest = end.1.now })) }
{
    let mut offset = start;
    let mut rest = chars;
    while let Some((value, length)) = plain_element(rest) {
        let end = offset + length as u32;
        units.push(CodePoint {
            span: Span::new(offset, end),
            value: value as u32,
            escape_kind: EscapeKind::None,
        })?;
        offset = end;
        rest = rest_after(rest, length);
    }
    Ok((offset, rest))
}

/// The character of ASCII that the next element gives, and how many characters spell it, where the same stands in each kind of quotes: one that stands for itself,
/// or a backslash by its escape.
#[inline]
fn plain_element(chars: &[char]) -> Option<(char, usize)>
    ensures { IfSome result (λ it. IsPlainFront it.0 it.1 chars.now) }
{
    match chars {
        [first, ..] if is_plain(*first) => Some((*first, 1)),
        [first, second, ..] if *first == '\\' && *second == '\\' => Some(('\\', 2)),
        _ => None,
    }
}

/// Whether a character is ASCII and stands for itself in each kind of quotes.
#[inline]
fn is_plain(c: char) -> bool
    ensures { result ≡ is_plain c }
{
    c.is_ascii() && !matches!(c, '"' | '\'' | '`' | '$' | '\\' | CR | LF)
}

/// The element that stands next, and how many characters spell it, where it is allowed.
fn next_element(literal: Literal, chars: &[char], options: Options) -> Option<(Element, usize)>
    ensures { MatchOption result
        ((e : ElementValue) (n : ℕ) → front literal chars.now ≡ element e n → is_refused options e.writing ≡ true)
        (λ next. (front literal chars.now ≡ element next.0 next.1) × IsAllowed options next.0) }
{
    match front(literal, chars) {
        Found::Element { element, length } if !is_refused(element.writing, options) => {
            Some((element, length))
        }
        _ => None,
    }
}

/// Whether an element is not allowed: in strict mode code a legacy escape, and with strings as the standard has them digits that are no escape.
fn is_refused(writing: Writing, options: Options) -> bool
    ensures { result ≡ is_refused options writing }
{
    match writing {
        Writing::Legacy(_) => options.strict_mode,
        Writing::NotEscape => options.standard_strings,
        _ => false,
    }
}

/// What stands next.
#[tactic(auto, unfolding(crate::specs::Quoted::Fronts::front))]
fn front(literal: Literal, chars: &[char]) -> Found
    ensures { seen_front result ≡ front literal chars.now }
{
    match literal {
        Literal::String(StringLiteralKind::Double) => string_front('"', chars),
        Literal::String(StringLiteralKind::Single) => string_front('\'', chars),
        Literal::Template => template_front(chars),
    }
}

/// How many bytes the first characters take.
pub(crate) fn width(chars: &[char], count: usize) -> u32
    requires within { count ≤ length chars.now }
    requires bytes { byte_count chars.now < 2 ^ 32 }
    ensures { result ≡ byte_count (take count chars.now) }
{
    byte_count(&chars[..count])
}

/// The characters after the first ones.
fn rest_after(chars: &[char], count: usize) -> &[char]
    requires { count ≤ length chars.now }
    ensures { result.now ≡ drop count chars.now }
{
    &chars[count..]
}

/// How many bytes characters take.
fn byte_count(chars: &[char]) -> u32
    requires { byte_count chars.now < 2 ^ 32 }
    ensures { result ≡ byte_count chars.now }
{
    let mut count = 0;
    for c in chars {
        count += c.len_utf8() as u32;
    }
    count
}
