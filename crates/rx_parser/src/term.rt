ghost use Rattle.std.specs.Prelude.{◌≡◌, ◌+◌, ◌-◌, ◌*◌, ◌≤◌, ℕ, IfOk, List, OnOk};
ghost use Rattle.rx_ast.specs.ClassTree.{mirror_class};
ghost use Rattle.rx_ast.specs.Tree as tree;
ghost use Rattle.rx_ast.specs.Tree.{leaf, mirror_term};
ghost use Rattle.rx_model.specs.Trees.Token.{named, property};
ghost use Rattle.rx_parser.specs.Found.{HoldsName, leaf_term};
ghost use Rattle.rx_parser.specs.Progress.{IsLeafOf};

use crate::found::Leaf;
use rx_ast::{
    BoundaryAssertion, Character, CharacterClass, CharacterClassEscape, Dot, IndexedReference,
    NamedReference, Term, UnicodePropertyEscape,
};
use rx_base::{Counter, OutOfMemory, Span, Text};
use rx_scan::capturing_group_name_counted;
use rx_units::{Ahead, Unit};
use std::alloc::Global;

/// The term that a leaf is.
#[inline]
pub fn term(leaf: Leaf, span: Span) -> Term
    ensures { result ≡ leaf_term leaf span }
{
    match leaf {
        Leaf::Boundary(kind) => Term::BoundaryAssertion(BoundaryAssertion { span, kind }),
        Leaf::Character { kind, value } => Term::Character(Character { span, kind, value }),
        Leaf::Dot => Term::Dot(Dot { span }),
        Leaf::ClassEscape(kind) => Term::CharacterClassEscape(CharacterClassEscape { span, kind }),
        Leaf::IndexedReference(index) => {
            Term::IndexedReference(IndexedReference { span, index })
        }
    }
}

/// The reference by this name.
pub fn named_term(alloc: Global, name: Text, span: Span) -> Result<Term, OutOfMemory>
    ensures { IfOk result (λ it. IsLeafOf it (named name) span.start span.end) }
{
    let reference = NamedReference { span, name };
    Ok(Term::NamedReference(Box::new(alloc, reference)?))
}

/// The property escape as a term.
pub fn property_term(alloc: Global, escape: UnicodePropertyEscape) -> Result<Term, OutOfMemory>
    ensures { IfOk result (λ it. IsLeafOf it (property escape.negative escape.strings escape.name escape.value) escape.span.start escape.span.end) }
{
    Ok(Term::UnicodePropertyEscape(Box::new(alloc, escape)?))
}

/// The class as a term.
#[tactic(auto, using(rx_ast::proofs::Equations::mirrors))]
pub fn class_term(alloc: Global, class: CharacterClass) -> Result<Term, OutOfMemory>
    ensures { IfOk result (λ it. mirror_term it ≡ leaf (tree.class (mirror_class class))) }
{
    Ok(Term::CharacterClass(Box::new(alloc, class)?))
}

/// The name in what n units are, a group's beginning or a reference: it stands between the third unit and the `>` at their end.
pub fn name_in<U: Unit, C: Counter>(
    alloc: Global,
    units: &Ahead<'_, U>,
    length: usize,
    unicode_mode: bool,
    steps: &mut C,
) -> Result<Text, OutOfMemory>
    requires { (name : List ℕ) × HoldsName unicode_mode units.now name length }
    ensures name { IfOk result (λ it. HoldsName unicode_mode units.now it length) }
    ensures steps { C.count steps.new ≤ C.count steps.old + 2 * (length - 1) }
    ensures least { OnOk result (C.count steps.old ≤ C.count steps.new) }
{
    let name = units.from(3).front(length - 4);
    match capturing_group_name_counted(alloc, &name, unicode_mode, steps)? {
        Some(name) => Ok(name),
        None => unreachable!(),
    }
}
