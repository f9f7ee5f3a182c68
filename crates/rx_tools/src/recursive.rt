ghost use Rattle.std.specs.Prelude.{◌++◌, false, map, codes};
ghost use Rattle.rx_ast.specs.Forget.{bare};
ghost use Rattle.rx_ast.specs.Tree.{nodes, alternatives as alternatives_of, mirror_term, mirror_quantifier, mirror_alternative, mirror_disjunction};
ghost use Rattle.rx_base.specs.Writing.{Written};
ghost use Rattle.rx_model.specs.Spelling.Spelling.{alternatives_text, node_text, nodes_text, spelling};
ghost use Rattle.rx_tools.specs.Utf8.{utf8};

use crate::class::write_class;
use crate::leaf::{Rest, write_leaf, write_leaves};
use crate::quantifier::write_quantifier;
use crate::term::{refers, write_capturing, write_ignoring};
use crate::write::{write_char, write_str};
use rx_ast::parts::look_text;
use rx_ast::{Alternative, Disjunction, Pattern, Quantifier, Term};
use rx_base::{Failed, Sink, TextSink};
use rx_model::Mode;

/// Writes the canonical spelling of a tree in a mode, also of a tree that no text spells, and takes no memory. After `Failed` only
/// its front was written, of which at least one byte is missing.
///
/// It calls itself for what nests: groups, look-arounds, quantifiers, and classes in classes. So it takes a deeper stack for a
/// deeper tree, and is safe only where groups are not nested deep; of a tree that may be deeper, `canonical_text` gives the same
/// spelling.
// Why: docs/DECISIONS.md, 52.
pub fn write_canonical<K: Sink>(sink: &mut K, pattern: &Pattern, mode: Mode) -> Result<(), Failed>
    ensures written { Written K.taken K.fixed K.faults sink.old sink.new result (utf8 (spelling (bare pattern.now) mode)) }
{
    write_alternatives(sink, mode, pattern.body.body.as_slice())
}

#[cycle(pattern)]
#[tactic(auto, using(rx_ast::proofs::Sizes::sizes))]
fn write_alternatives<W: TextSink>(
    sink: &mut W,
    mode: Mode,
    alternatives: &[Alternative],
) -> Result<(), Failed>
    ensures { Written W.taken W.fixed W.faults sink.old sink.new result (utf8 (alternatives_text mode (alternatives_of (map mirror_alternative alternatives.now)))) }
{
    let mut before = "";
    for alternative in alternatives {
        write_str(sink, before)?;
        write_terms(sink, mode, alternative.body.as_slice())?;
        before = "|";
    }
    Ok(())
}

/// Writes the terms of an alternative.
#[cycle(pattern)]
#[tactic(auto, using(rx_ast::proofs::Sizes::sizes))]
fn write_terms<W: TextSink>(sink: &mut W, mode: Mode, terms: &[Term]) -> Result<(), Failed>
    ensures { Written W.taken W.fixed W.faults sink.old sink.new result (utf8 (nodes_text mode false (nodes (map mirror_term terms.now)))) }
{
    let whole = Rest {
        after_reference: false,
        terms,
    };
    let mut rest = write_leaves(sink, mode, whole)?;
    while let Some((term, others)) = rest.terms.split_first() {
        write_term(sink, mode, rest.after_reference, term)?;
        let following = Rest {
            after_reference: refers(term),
            terms: others,
        };
        rest = write_leaves(sink, mode, following)?;
    }
    Ok(())
}

#[cycle(pattern)]
#[tactic(auto, using(rx_ast::proofs::Sizes::sizes, rx_ast::proofs::Equations::mirrors, crate::proofs::Pieces::in_pieces))]
fn write_term<W: TextSink>(
    sink: &mut W,
    mode: Mode,
    after_reference: bool,
    term: &Term,
) -> Result<(), Failed>
    ensures { Written W.taken W.fixed W.faults sink.old sink.new result (utf8 (node_text mode after_reference (mirror_term term.now))) }
{
    match term {
        Term::Quantifier(it) => write_quantified(sink, mode, after_reference, it),
        Term::LookAroundAssertion(it) => {
            write_str(sink, look_text(it.kind))?;
            write_group(sink, mode, &it.body)
        }
        Term::CapturingGroup(it) => {
            write_capturing(sink, &it.name)?;
            write_group(sink, mode, &it.body)
        }
        Term::IgnoreGroup(it) => {
            write_ignoring(sink, &it.modifiers)?;
            write_group(sink, mode, &it.body)
        }
        Term::CharacterClass(it) => write_class(sink, mode, it),
        Term::BoundaryAssertion(_) => write_leaf(sink, mode, after_reference, term),
        Term::Character(_) => write_leaf(sink, mode, after_reference, term),
        Term::Dot(_) => write_leaf(sink, mode, after_reference, term),
        Term::CharacterClassEscape(_) => write_leaf(sink, mode, after_reference, term),
        Term::UnicodePropertyEscape(_) => write_leaf(sink, mode, after_reference, term),
        Term::IndexedReference(_) => write_leaf(sink, mode, after_reference, term),
        Term::NamedReference(_) => write_leaf(sink, mode, after_reference, term),
    }
}

#[cycle(pattern)]
#[tactic(auto, using(rx_ast::proofs::Sizes::sizes))]
fn write_quantified<W: TextSink>(
    sink: &mut W,
    mode: Mode,
    after_reference: bool,
    it: &Quantifier,
) -> Result<(), Failed>
    ensures { Written W.taken W.fixed W.faults sink.old sink.new result (utf8 (node_text mode after_reference (mirror_quantifier it.now))) }
{
    write_term(sink, mode, after_reference, &it.body)?;
    write_quantifier(sink, it.min, it.max, it.greedy)
}

/// Writes what a group holds, and its end.
#[cycle(pattern)]
#[tactic(auto, using(rx_ast::proofs::Sizes::sizes))]
fn write_group<W: TextSink>(sink: &mut W, mode: Mode, body: &Disjunction) -> Result<(), Failed>
    ensures { Written W.taken W.fixed W.faults sink.old sink.new result (utf8 (alternatives_text mode (mirror_disjunction body.now).1 ++ codes ")")) }
{
    write_alternatives(sink, mode, body.body.as_slice())?;
    write_char(sink, ')')
}
