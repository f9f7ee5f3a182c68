//! What the parts of a node are written as, for whoever writes a tree part by part.
ghost use Rattle.std.specs.Prelude.{◌≡◌, codes, Some};
ghost use Rattle.std.specs.Fmt.{WritesOnOk};
ghost use Rattle.std.specs.Str.{chars, encode_utf8_all};
ghost use Rattle.rx_base.specs.Texts.{are_same};
ghost use Rattle.rx_ast.specs.Texts.{boundary_text as boundary, class_escape_text as escape, class_opener as opener, counts_text, dash as dash_of, lazy_text as lazy, letters as letters_of, look_sign as sign, look_text as look, opener_text, operator_text as operator, property_opener as opener_of_property, quantifier_text};
ghost use Rattle.rx_ast.specs.Tree.{capturing, ignoring};

pub use super::neighbours::{contents_pair, term_pair};
use crate::class::CharacterClassContentsKind;
use crate::leaf::{
    BoundaryAssertionKind, CharacterClassEscapeKind, LookAroundAssertionKind, Modifiers,
};
use crate::modifier::Modifier;
use crate::term::Quantifier;
use rx_base::Text;
use std::fmt;

/// Writes a text.
pub(super) fn write_text<W: fmt::Write>(f: &mut fmt::Formatter<W>, text: &str) -> fmt::Result
    ensures { WritesOnOk W.write_str_gives f.old result (encode_utf8_all (chars text.now)) f.new }
{
    f.write_str(text)
}

/// Writes what stands after a quantifier's body.
pub fn write_suffix<W: fmt::Write>(f: &mut fmt::Formatter<W>, it: &Quantifier) -> fmt::Result
    ensures { WritesOnOk W.write_str_gives f.old result (encode_utf8_all (quantifier_text it.now.min it.now.max it.now.greedy)) f.new }
{
    write_counts(f, it.min, it.max)?;
    write_text(f, lazy_text(it.greedy))
}

/// Writes the first that fits of `*`, `+`, `?`, `{n}`, `{n,m}`, `{n,}`.
fn write_counts<W: fmt::Write>(f: &mut fmt::Formatter<W>, min: u64, max: Option<u64>) -> fmt::Result
    ensures { WritesOnOk W.write_str_gives f.old result (encode_utf8_all (counts_text min max)) f.new }
{
    match max {
        None if min == 0 => f.write_str("*"),
        None if min == 1 => f.write_str("+"),
        None => write!(f, "{{{min},}}"),
        Some(max) => write_bounded_counts(f, min, max),
    }
}

fn write_bounded_counts<W: fmt::Write>(f: &mut fmt::Formatter<W>, min: u64, max: u64) -> fmt::Result
    ensures { WritesOnOk W.write_str_gives f.old result (encode_utf8_all (counts_text min (Some max))) f.new }
{
    if min == 0 && max == 1 {
        f.write_str("?")
    } else if min == max {
        write!(f, "{{{min}}}")
    } else {
        write!(f, "{{{min},{max}}}")
    }
}

/// What stands after the counts of a quantifier.
#[tactic(auto, using(crate::proofs::Plain::plain_texts))]
pub fn lazy_text(greedy: bool) -> &'static str
    ensures { chars result.now ≡ lazy greedy }
{
    if greedy { "" } else { "?" }
}

/// Writes what a capturing group begins with.
pub fn write_capturing<W: fmt::Write>(f: &mut fmt::Formatter<W>, name: &Option<Text>) -> fmt::Result
    ensures { WritesOnOk W.write_str_gives f.old result (encode_utf8_all (opener_text (capturing name.now))) f.new }
{
    match name {
        None => f.write_str("("),
        Some(name) => write!(f, "(?<{}>", name.as_str()),
    }
}

/// Writes what a group that does not capture begins with.
pub fn write_ignoring<W: fmt::Write>(
    f: &mut fmt::Formatter<W>,
    modifiers: &Option<Modifiers>,
) -> fmt::Result
    ensures { WritesOnOk W.write_str_gives f.old result (encode_utf8_all (opener_text (ignoring modifiers.now))) f.new }
{
    match modifiers {
        None => f.write_str("(?:"),
        Some(modifiers) => write!(f, "(?{modifiers}:"),
    }
}

/// The letters of modifiers, in the order `i`, `m`, `s`.
#[tactic(auto, using(crate::proofs::Plain::plain_texts), unfolding(crate::specs::Texts::letters))]
pub fn letters(modifier: Modifier) -> &'static str
    ensures { chars result.now ≡ letters_of modifier.0 }
{
    match modifier.bits() % 8 {
        0 => "",
        1 => "i",
        2 => "m",
        3 => "im",
        4 => "s",
        5 => "is",
        6 => "ms",
        _ => "ims",
    }
}

/// What stands before the modifiers that a group disables.
#[tactic(auto, using(crate::proofs::Plain::plain_texts))]
pub fn dash(disabling: Modifier) -> &'static str
    ensures { chars result.now ≡ dash_of disabling.0 }
{
    if disabling.bits() % 8 == 0 { "" } else { "-" }
}

/// A boundary or an end of the text.
#[tactic(auto, using(crate::proofs::Plain::plain_texts))]
pub fn boundary_text(kind: BoundaryAssertionKind) -> &'static str
    ensures { chars result.now ≡ boundary kind }
{
    match kind {
        BoundaryAssertionKind::Start => "^",
        BoundaryAssertionKind::End => "$",
        BoundaryAssertionKind::Boundary => "\\b",
        BoundaryAssertionKind::NegativeBoundary => "\\B",
        BoundaryAssertionKind::StartBuffer => "\\A",
        BoundaryAssertionKind::EndBuffer => "\\z",
        BoundaryAssertionKind::EndBufferOptionalNewline => "\\Z",
    }
}

/// A class escape that names no property.
#[tactic(auto, using(crate::proofs::Plain::plain_texts))]
pub fn class_escape_text(kind: CharacterClassEscapeKind) -> &'static str
    ensures { chars result.now ≡ escape kind }
{
    match kind {
        CharacterClassEscapeKind::D => "\\d",
        CharacterClassEscapeKind::NegativeD => "\\D",
        CharacterClassEscapeKind::S => "\\s",
        CharacterClassEscapeKind::NegativeS => "\\S",
        CharacterClassEscapeKind::W => "\\w",
        CharacterClassEscapeKind::NegativeW => "\\W",
    }
}

/// What a property begins with.
#[tactic(auto, using(crate::proofs::Plain::plain_texts))]
pub fn property_opener(negative: bool) -> &'static str
    ensures { chars result.now ≡ opener_of_property negative }
{
    if negative { "\\P{" } else { "\\p{" }
}

/// Whether the name of a property is `General_Category`, whose values stand alone.
pub fn is_general_category(name: &Text) -> bool
    ensures { result ≡ are_same name.now (codes "General_Category") }
{
    name.as_str() == "General_Category"
}

/// What a look-around begins with after its parenthesis.
#[tactic(auto, using(crate::proofs::Plain::plain_texts))]
pub fn look_sign(kind: LookAroundAssertionKind) -> &'static str
    ensures { chars result.now ≡ sign kind }
{
    match kind {
        LookAroundAssertionKind::Lookahead => "?=",
        LookAroundAssertionKind::NegativeLookahead => "?!",
        LookAroundAssertionKind::Lookbehind => "?<=",
        LookAroundAssertionKind::NegativeLookbehind => "?<!",
    }
}

/// What a look-around begins with.
#[tactic(auto, using(crate::proofs::Plain::plain_texts))]
pub fn look_text(kind: LookAroundAssertionKind) -> &'static str
    ensures { chars result.now ≡ look kind }
{
    match kind {
        LookAroundAssertionKind::Lookahead => "(?=",
        LookAroundAssertionKind::NegativeLookahead => "(?!",
        LookAroundAssertionKind::Lookbehind => "(?<=",
        LookAroundAssertionKind::NegativeLookbehind => "(?<!",
    }
}

/// What a class begins with.
#[tactic(auto, using(crate::proofs::Plain::plain_texts))]
pub fn class_opener(negative: bool) -> &'static str
    ensures { chars result.now ≡ opener negative }
{
    if negative { "[^" } else { "[" }
}

/// What stands between the contents of a class.
#[tactic(auto, using(crate::proofs::Plain::plain_texts))]
pub fn operator_text(kind: CharacterClassContentsKind) -> &'static str
    ensures { chars result.now ≡ operator kind }
{
    match kind {
        CharacterClassContentsKind::Union => "",
        CharacterClassContentsKind::Intersection => "&&",
        CharacterClassContentsKind::Subtraction => "--",
    }
}
