ghost use Rattle.std.specs.Prelude.{◌++◌, if◌then◌else◌, [], Some, false, map, codes};
ghost use Rattle.std.specs.Fmt.{WritesOnOk};
ghost use Rattle.std.specs.Str.{encode_utf8_all};
ghost use Rattle.rx_ast.specs.Kinds as kinds;
ghost use Rattle.rx_ast.specs.MirrorKinds.{capturing_kind, ignore_kind, look_kind, quantifier_kind};
ghost use Rattle.rx_ast.specs.Shown.{alternatives_shown, node_shown, nodes_shown, pair_or, shown};
ghost use Rattle.rx_ast.specs.Tree.{alternatives as alternatives_of, mirror, mirror_alternative, mirror_capturing, mirror_disjunction, mirror_ignore, mirror_look, mirror_quantifier, mirror_term, nodes};

use crate::display::class::write_class;
use crate::display::parts::{
    look_text, term_pair, write_capturing, write_ignoring, write_suffix, write_text,
};
use crate::term::{
    Alternative, CapturingGroup, Disjunction, IgnoreGroup, LookAroundAssertion, Pattern,
    Quantifier, Term,
};
use std::fmt;
use std::fmt::Display;

/// A width, a precision and the other options of a hole are ignored, here and in every other node.
// Why: docs/DECISIONS.md, 56.
impl fmt::Display for Pattern {
    ghost output = { λ it. Some (encode_utf8_all (shown (kinds.pattern (mirror it)))) };

    fn fmt<W: fmt::Write>(&self, f: &mut fmt::Formatter<W>) -> fmt::Result {
        self.body.fmt(f)
    }
}

impl fmt::Display for Disjunction {
    ghost output = { λ it. Some (encode_utf8_all (shown (kinds.disjunction (mirror_disjunction it)))) };

    fn fmt<W: fmt::Write>(&self, f: &mut fmt::Formatter<W>) -> fmt::Result {
        write_alternatives(f, self.body.as_slice())
    }
}

impl fmt::Display for Alternative {
    ghost output = { λ it. Some (encode_utf8_all (shown (kinds.alternative (mirror_alternative it)))) };

    fn fmt<W: fmt::Write>(&self, f: &mut fmt::Formatter<W>) -> fmt::Result {
        write_terms(f, self.body.as_slice())
    }
}

impl fmt::Display for Term {
    ghost output = { λ it. Some (encode_utf8_all (shown (kinds.term (mirror_term it)))) };

    fn fmt<W: fmt::Write>(&self, f: &mut fmt::Formatter<W>) -> fmt::Result {
        write_term(f, self)
    }
}

impl fmt::Display for LookAroundAssertion {
    ghost output = { λ it. Some (encode_utf8_all (shown (look_kind it))) };

    fn fmt<W: fmt::Write>(&self, f: &mut fmt::Formatter<W>) -> fmt::Result {
        write_look_around(f, self)
    }
}

impl fmt::Display for Quantifier {
    ghost output = { λ it. Some (encode_utf8_all (shown (quantifier_kind it))) };

    fn fmt<W: fmt::Write>(&self, f: &mut fmt::Formatter<W>) -> fmt::Result {
        write_quantified(f, self)
    }
}

impl fmt::Display for CapturingGroup {
    ghost output = { λ it. Some (encode_utf8_all (shown (capturing_kind it))) };

    fn fmt<W: fmt::Write>(&self, f: &mut fmt::Formatter<W>) -> fmt::Result {
        write_capturing_group(f, self)
    }
}

impl fmt::Display for IgnoreGroup {
    ghost output = { λ it. Some (encode_utf8_all (shown (ignore_kind it))) };

    fn fmt<W: fmt::Write>(&self, f: &mut fmt::Formatter<W>) -> fmt::Result {
        write_ignore_group(f, self)
    }
}

#[cycle(pattern)]
#[tactic(auto, using(crate::proofs::Sizes::sizes))]
fn write_alternatives<W: fmt::Write>(
    f: &mut fmt::Formatter<W>,
    alternatives: &[Alternative],
) -> fmt::Result
    ensures { WritesOnOk W.write_str_gives f.old result (encode_utf8_all (alternatives_shown (alternatives_of (map mirror_alternative alternatives.now)))) f.new }
{
    let mut before = "";
    for alternative in alternatives {
        write_text(f, before)?;
        write_terms(f, alternative.body.as_slice())?;
        before = "|";
    }
    Ok(())
}

/// Writes the terms of an alternative.
#[cycle(pattern)]
#[tactic(auto, using(crate::proofs::Sizes::sizes))]
fn write_terms<W: fmt::Write>(f: &mut fmt::Formatter<W>, terms: &[Term]) -> fmt::Result
    ensures { WritesOnOk W.write_str_gives f.old result (encode_utf8_all (nodes_shown false (nodes (map mirror_term terms.now)))) f.new }
{
    let mut joined = false;
    let mut rest = terms;
    while let Some((term, others)) = rest.split_first() {
        let pair = term_pair(term, others);
        write_unless_joined(f, joined, pair, term)?;
        joined = pair.is_some();
        rest = others;
    }
    Ok(())
}

/// Writes the pair, or the term where it stands alone, unless it was written together with the one before it.
#[cycle(pattern)]
#[tactic(auto, using(crate::proofs::Sizes::sizes))]
fn write_unless_joined<W: fmt::Write>(
    f: &mut fmt::Formatter<W>,
    joined: bool,
    pair: Option<char>,
    term: &Term,
) -> fmt::Result
    ensures { WritesOnOk W.write_str_gives f.old result (encode_utf8_all (if joined then [] else pair_or pair (node_shown (mirror_term term.now)))) f.new }
{
    match pair {
        _ if joined => Ok(()),
        Some(pair) => f.write_char(pair),
        None => write_term(f, term),
    }
}

#[cycle(pattern)]
#[tactic(auto, using(crate::proofs::Sizes::sizes, crate::proofs::Equations::mirrors))]
fn write_term<W: fmt::Write>(f: &mut fmt::Formatter<W>, term: &Term) -> fmt::Result
    ensures { WritesOnOk W.write_str_gives f.old result (encode_utf8_all (node_shown (mirror_term term.now))) f.new }
{
    match term {
        Term::BoundaryAssertion(it) => it.fmt(f),
        Term::LookAroundAssertion(it) => write_look_around(f, it),
        Term::Quantifier(it) => write_quantified(f, it),
        Term::Character(it) => it.fmt(f),
        Term::Dot(it) => it.fmt(f),
        Term::CharacterClassEscape(it) => it.fmt(f),
        Term::UnicodePropertyEscape(it) => (**it).fmt(f),
        Term::CharacterClass(it) => write_class(f, it),
        Term::CapturingGroup(it) => write_capturing_group(f, it),
        Term::IgnoreGroup(it) => write_ignore_group(f, it),
        Term::IndexedReference(it) => it.fmt(f),
        Term::NamedReference(it) => (**it).fmt(f),
    }
}

#[cycle(pattern)]
#[tactic(auto, using(crate::proofs::Sizes::sizes))]
fn write_quantified<W: fmt::Write>(f: &mut fmt::Formatter<W>, it: &Quantifier) -> fmt::Result
    ensures { WritesOnOk W.write_str_gives f.old result (encode_utf8_all (node_shown (mirror_quantifier it.now))) f.new }
{
    write_term(f, &it.body)?;
    write_suffix(f, it)
}

#[cycle(pattern)]
#[tactic(auto, using(crate::proofs::Sizes::sizes))]
fn write_look_around<W: fmt::Write>(
    f: &mut fmt::Formatter<W>,
    it: &LookAroundAssertion,
) -> fmt::Result
    ensures { WritesOnOk W.write_str_gives f.old result (encode_utf8_all (node_shown (mirror_look it.now))) f.new }
{
    write_text(f, look_text(it.kind))?;
    write_group(f, &it.body)
}

#[cycle(pattern)]
#[tactic(auto, using(crate::proofs::Sizes::sizes))]
fn write_capturing_group<W: fmt::Write>(
    f: &mut fmt::Formatter<W>,
    it: &CapturingGroup,
) -> fmt::Result
    ensures { WritesOnOk W.write_str_gives f.old result (encode_utf8_all (node_shown (mirror_capturing it.now))) f.new }
{
    write_capturing(f, &it.name)?;
    write_group(f, &it.body)
}

#[cycle(pattern)]
#[tactic(auto, using(crate::proofs::Sizes::sizes))]
fn write_ignore_group<W: fmt::Write>(f: &mut fmt::Formatter<W>, it: &IgnoreGroup) -> fmt::Result
    ensures { WritesOnOk W.write_str_gives f.old result (encode_utf8_all (node_shown (mirror_ignore it.now))) f.new }
{
    write_ignoring(f, &it.modifiers)?;
    write_group(f, &it.body)
}

/// Writes what a group holds, and its end.
#[cycle(pattern)]
#[tactic(auto, using(crate::proofs::Sizes::sizes))]
fn write_group<W: fmt::Write>(f: &mut fmt::Formatter<W>, body: &Disjunction) -> fmt::Result
    ensures { WritesOnOk W.write_str_gives f.old result (encode_utf8_all (alternatives_shown (mirror_disjunction body.now).1 ++ codes ")")) f.new }
{
    write_alternatives(f, body.body.as_slice())?;
    write_text(f, ")")
}
