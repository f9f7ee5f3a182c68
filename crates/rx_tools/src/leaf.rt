ghost use Rattle.std.specs.Prelude.{◌≡◌, ◌≤◌, false, true, IfOk};
ghost use Rattle.rx_ast.specs.Size.{terms_size};
ghost use Rattle.rx_ast.specs.Tree.{mirror_term, mirror_quantifier};
ghost use Rattle.rx_base.specs.Writing.{Written};
ghost use Rattle.rx_model.specs.Spelling.Spelling.{node_text};
ghost use Rattle.rx_tools.specs.Leaves.{WritesFront, is_leaf as stands_alone, rest_text, unless_left};
ghost use Rattle.rx_tools.specs.Utf8.{utf8};

use crate::character::{Place, character, is_plain, write_character};
use crate::class::{is_flat, write_class};
use crate::property::write_property;
use crate::quantifier::write_quantifier;
use crate::term::{refers, write_indexed, write_named};
use crate::write::{write_char, write_str};
use rx_ast::parts::{boundary_text, class_escape_text};
use rx_ast::{Quantifier, Term};
use rx_base::{Failed, TextSink};
use rx_model::Mode;

/// What is left of an alternative.
#[derive(Clone, Copy)]
pub struct Rest<'a> {
    /// Whether an unquantified indexed reference stands right before the terms.
    pub after_reference: bool,

    pub terms: &'a [Term],
}

/// Whether nothing nests in the term: it is no quantifier, group or look-around, and no class that holds a class.
#[inline(always)]
#[tactic(auto, using(rx_ast::proofs::Equations::mirrors))]
pub fn is_leaf(term: &Term) -> bool
    ensures { result ≡ stands_alone (mirror_term term.now) }
{
    match term {
        Term::BoundaryAssertion(_) => true,
        Term::Character(_) => true,
        Term::Dot(_) => true,
        Term::CharacterClassEscape(_) => true,
        Term::UnicodePropertyEscape(_) => true,
        Term::IndexedReference(_) => true,
        Term::NamedReference(_) => true,
        Term::CharacterClass(it) => is_flat(it),
        Term::Quantifier(_) => false,
        Term::LookAroundAssertion(_) => false,
        Term::CapturingGroup(_) => false,
        Term::IgnoreGroup(_) => false,
    }
}

/// Writes a term in which nothing nests.
#[inline(always)]
#[tactic(auto, using(crate::proofs::Pieces::in_pieces, rx_ast::proofs::Equations::mirrors))]
pub fn write_leaf<W: TextSink>(
    sink: &mut W,
    mode: Mode,
    after_reference: bool,
    term: &Term,
) -> Result<(), Failed>
    requires { stands_alone (mirror_term term.now) ≡ true }
    ensures { Written W.taken W.fixed W.faults sink.old sink.new result (utf8 (node_text mode after_reference (mirror_term term.now))) }
{
    match term {
        Term::Character(it) => {
            write_character(sink, mode, Place::Outside(after_reference), it.value)
        }
        Term::BoundaryAssertion(it) => write_str(sink, boundary_text(it.kind)),
        Term::Dot(_) => write_char(sink, '.'),
        Term::CharacterClassEscape(it) => write_str(sink, class_escape_text(it.kind)),
        Term::UnicodePropertyEscape(it) => write_property(sink, it),
        Term::CharacterClass(it) => write_class(sink, mode, it),
        Term::IndexedReference(it) => write_indexed(sink, it.index),
        Term::NamedReference(it) => write_named(sink, &it.name),
        Term::Quantifier(_) => unreachable!(),
        Term::LookAroundAssertion(_) => unreachable!(),
        Term::CapturingGroup(_) => unreachable!(),
        Term::IgnoreGroup(_) => unreachable!(),
    }
}

/// Writes a term in which nothing nests, and its quantifier.
fn write_quantified_leaf<W: TextSink>(
    sink: &mut W,
    mode: Mode,
    after_reference: bool,
    it: &Quantifier,
) -> Result<(), Failed>
    requires { stands_alone (mirror_term it.now.body) ≡ true }
    ensures { Written W.taken W.fixed W.faults sink.old sink.new result (utf8 (node_text mode after_reference (mirror_quantifier it.now))) }
{
    write_leaf(sink, mode, after_reference, &it.body)?;
    write_quantifier(sink, it.min, it.max, it.greedy)
}

/// Writes the term if nothing nests in it or, of a quantifier, in its body, and answers whether it did. Most terms are characters,
/// so it is inlined for these alone.
#[inline(always)]
#[tactic(auto, using(rx_ast::proofs::Equations::mirrors))]
fn write_if_leaf<W: TextSink>(
    sink: &mut W,
    mode: Mode,
    after_reference: bool,
    term: &Term,
) -> Result<bool, Failed>
    ensures { Written W.taken W.fixed W.faults sink.old sink.new result (utf8 (unless_left result (node_text mode after_reference (mirror_term term.now)))) }
{
    match term {
        Term::Character(it) => {
            write_character(sink, mode, Place::Outside(after_reference), it.value)?;
            Ok(true)
        }
        _ => write_if_other_leaf(sink, mode, term, after_reference),
    }
}

/// Writes the term, which need not be a character, if nothing nests in it or, of a quantifier, in its body, and answers whether it
/// did.
#[inline(never)]
fn write_if_other_leaf<W: TextSink>(
    sink: &mut W,
    mode: Mode,
    term: &Term,
    after_reference: bool,
) -> Result<bool, Failed>
    ensures { Written W.taken W.fixed W.faults sink.old sink.new result (utf8 (unless_left result (node_text mode after_reference (mirror_term term.now)))) }
{
    if is_leaf(term) {
        write_leaf(sink, mode, after_reference, term)?;
        return Ok(true);
    }
    match term {
        Term::Quantifier(it) if is_leaf(&it.body) => {
            write_quantified_leaf(sink, mode, after_reference, it)?;
            Ok(true)
        }
        _ => Ok(false),
    }
}

/// Writes the terms before the first that is neither a term in which nothing nests nor such a term with its quantifier, and
/// answers what is left.
#[inline(always)]
pub fn write_leaves<'a, W: TextSink>(
    sink: &mut W,
    mode: Mode,
    mut rest: Rest<'a>,
) -> Result<Rest<'a>, Failed>
    ensures written { WritesFront W.taken W.fixed W.faults sink.old sink.new result (rest_text mode rest.entry) (rest_text mode) }
    ensures smaller { IfOk result (λ left. terms_size left.terms.now ≤ terms_size rest.entry.terms.now) }
{
    loop {
        let left = write_plain_characters(sink, mode, rest)?;
        let Some((first, terms)) = left.terms.split_first() else {
            return Ok(left);
        };
        if !write_if_leaf(sink, mode, left.after_reference, first)? {
            return Ok(left);
        }
        rest = Rest {
            after_reference: refers(first),
            terms,
        };
    }
}

/// Writes the characters at the front that are spelled as themselves, and answers what is left.
#[inline(always)]
fn write_plain_characters<'a, W: TextSink>(
    sink: &mut W,
    mode: Mode,
    mut rest: Rest<'a>,
) -> Result<Rest<'a>, Failed>
    ensures written { WritesFront W.taken W.fixed W.faults sink.old sink.new result (rest_text mode rest.entry) (rest_text mode) }
    ensures smaller { IfOk result (λ left. terms_size left.terms.now ≤ terms_size rest.entry.terms.now) }
{
    while let Some((first, terms)) = rest.terms.split_first() {
        let Term::Character(it) = first else {
            return Ok(rest);
        };
        if !is_plain(mode, Place::Outside(rest.after_reference), it.value) {
            return Ok(rest);
        }
        write_char(sink, character(it.value))?;
        rest = Rest {
            after_reference: false,
            terms,
        };
    }
    Ok(rest)
}
