ghost use Rattle.std.specs.Prelude.{◌≡◌};
ghost use Rattle.rx_ast.specs.Tree.{mirror_term, capturing, ignoring};
ghost use Rattle.rx_base.specs.Writing.{Written};
ghost use Rattle.rx_ast.specs.Texts.{opener_text, indexed_text, named_text};
ghost use Rattle.rx_model.specs.Spelling.Spelling.{refers as reference};
ghost use Rattle.rx_tools.specs.Utf8.{utf8};

use crate::quantifier::decimal_text;
use crate::write::{write_char, write_pieces, write_str};
use itoa::Buffer;
use rx_ast::parts::{dash, letters};
use rx_ast::{Modifiers, Term};
use rx_base::{Failed, Text, TextSink};

#[tactic(auto, using(crate::proofs::Pieces::in_pieces))]
pub fn write_capturing<W: TextSink>(sink: &mut W, name: &Option<Text>) -> Result<(), Failed>
    ensures { Written W.taken W.fixed W.faults sink.old sink.new result (utf8 (opener_text (capturing name.now))) }
{
    match name {
        None => write_char(sink, '('),
        Some(name) => write_pieces(sink, &["(?<", name.as_str(), ">"]),
    }
}

#[tactic(auto, using(crate::proofs::Pieces::in_pieces))]
pub fn write_ignoring<W: TextSink>(
    sink: &mut W,
    modifiers: &Option<Modifiers>,
) -> Result<(), Failed>
    ensures { Written W.taken W.fixed W.faults sink.old sink.new result (utf8 (opener_text (ignoring modifiers.now))) }
{
    match modifiers {
        None => write_str(sink, "(?:"),
        Some(it) => {
            let enabled = letters(it.enabling);
            let disabled = letters(it.disabling);
            write_pieces(sink, &["(?", enabled, dash(it.disabling), disabled, ":"])
        }
    }
}

#[tactic(auto, using(crate::proofs::Pieces::in_pieces))]
pub fn write_indexed<W: TextSink>(sink: &mut W, index: u32) -> Result<(), Failed>
    ensures { Written W.taken W.fixed W.faults sink.old sink.new result (utf8 (indexed_text index)) }
{
    let mut buffer = Buffer::new();
    write_pieces(sink, &["\\", decimal_text(&mut buffer, u64::from(index))])
}

#[tactic(auto, using(crate::proofs::Pieces::in_pieces))]
pub fn write_named<W: TextSink>(sink: &mut W, name: &Text) -> Result<(), Failed>
    ensures { Written W.taken W.fixed W.faults sink.old sink.new result (utf8 (named_text name.now)) }
{
    write_pieces(sink, &["\\k<", name.as_str(), ">"])
}

/// Whether the term is an unquantified indexed reference.
#[inline(always)]
#[tactic(auto, using(rx_ast::proofs::Equations::mirrors))]
pub fn refers(term: &Term) -> bool
    ensures { result ≡ reference (mirror_term term.now) }
{
    match term {
        Term::IndexedReference(_) => true,
        Term::BoundaryAssertion(_) => false,
        Term::LookAroundAssertion(_) => false,
        Term::Quantifier(_) => false,
        Term::Character(_) => false,
        Term::Dot(_) => false,
        Term::CharacterClassEscape(_) => false,
        Term::UnicodePropertyEscape(_) => false,
        Term::CharacterClass(_) => false,
        Term::CapturingGroup(_) => false,
        Term::IgnoreGroup(_) => false,
        Term::NamedReference(_) => false,
    }
}
