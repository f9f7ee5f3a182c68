ghost use Rattle.std.specs.Prelude.{◌≡◌, ◌+◌, [], IfOk, OnOk, map};
ghost use Rattle.rx_ast.specs.ClassTree.{mirror_class};
ghost use Rattle.rx_ast.specs.Tree.{alternatives as alternatives_of, mirror_alternative, mirror_disjunction, mirror_term, nodes};
ghost use Rattle.rx_program.specs.ClassTests.{each_tests, node_tests, nodes_tests, row_tests};
ghost use Rattle.rx_program.specs.ClassesFound.{Finds, FindsClass, unseen_tests, unseen_weight, with_unseen};
ghost use Rattle.rx_program.specs.Works.{each_weight, node_weight, nodes_weight};

use crate::checks::ClassRow;
use crate::compiler::body_of;
use crate::row_builder::class_row;
use rx_ast::{Alternative, CharacterClass, Disjunction, Term};
use rx_base::{List, OutOfMemory};
use std::alloc::Global;

/// What is still to be looked at for classes.
#[derive(Clone, Copy)]
pub enum Unseen<'a> {
    Alternatives(&'a [Alternative]),
    Terms(&'a [Term]),
    Term(&'a Term),
}

/// The rows of the classes so far, from the last class of a tree to the first, and what is still to be looked at, the next last.
#[derive(Drop)]
pub struct ClassFinder<'a> {
    pub rows: List<ClassRow>,
    pub unseen: List<Unseen<'a>>,
}

impl<'a> ClassFinder<'a> {
    fn push_unseen(&mut self, unseen: Unseen<'a>) -> Result<(), OutOfMemory>
        ensures { OnOk result (self.new ≡ with_unseen self.old unseen.entry) }
    {
        self.unseen.push(unseen)
    }

    fn class(&mut self, alloc: Global, class: &CharacterClass) -> Result<(), OutOfMemory>
        ensures { OnOk result (FindsClass self.old (mirror_class class.now) self.new) }
    {
        let row = class_row(alloc, class)?;
        self.rows.push(row)
    }

    fn alternatives(&mut self, alternatives: &'a [Alternative]) -> Result<(), OutOfMemory>
        ensures { OnOk result (Finds self.old (each_tests (alternatives_of (map mirror_alternative alternatives.now))) (1 + each_weight (alternatives_of (map mirror_alternative alternatives.now))) self.new) }
    {
        let Some((last, alternatives)) = alternatives.split_last() else {
            return Ok(());
        };
        let terms = last.body.as_slice();
        self.push_unseen(Unseen::Alternatives(alternatives))?;
        self.push_unseen(Unseen::Terms(terms))
    }

    fn terms(&mut self, terms: &'a [Term]) -> Result<(), OutOfMemory>
        ensures { OnOk result (Finds self.old (nodes_tests (nodes (map mirror_term terms.now))) (1 + nodes_weight (nodes (map mirror_term terms.now))) self.new) }
    {
        let Some((last, terms)) = terms.split_last() else {
            return Ok(());
        };
        self.push_unseen(Unseen::Terms(terms))?;
        self.push_unseen(Unseen::Term(last))
    }

    fn term(&mut self, alloc: Global, term: &'a Term) -> Result<(), OutOfMemory>
        ensures { OnOk result (Finds self.old (node_tests (mirror_term term.now)) (node_weight (mirror_term term.now)) self.new) }
    {
        match term {
            Term::LookAroundAssertion(it) => {
                let alternatives = it.body.body.as_slice();
                self.push_unseen(Unseen::Alternatives(alternatives))
            }
            Term::Quantifier(it) => {
                let term = body_of(it);
                self.push_unseen(Unseen::Term(term))
            }
            Term::CharacterClass(it) => self.class(alloc, it),
            Term::CapturingGroup(it) => {
                let alternatives = it.body.body.as_slice();
                self.push_unseen(Unseen::Alternatives(alternatives))
            }
            Term::IgnoreGroup(it) => {
                let alternatives = it.body.body.as_slice();
                self.push_unseen(Unseen::Alternatives(alternatives))
            }
            Term::BoundaryAssertion(_) => Ok(()),
            Term::Character(_) => Ok(()),
            Term::Dot(_) => Ok(()),
            Term::CharacterClassEscape(_) => Ok(()),
            Term::UnicodePropertyEscape(_) => Ok(()),
            Term::IndexedReference(_) => Ok(()),
            Term::NamedReference(_) => Ok(()),
        }
    }

    /// Looks at the last of what is there, and leaves the rest for later.
    fn look_at(&mut self, alloc: Global, unseen: Unseen<'a>) -> Result<(), OutOfMemory>
        ensures { OnOk result (Finds self.old (unseen_tests unseen.entry) (unseen_weight unseen.entry) self.new) }
    {
        match unseen {
            Unseen::Alternatives(alternatives) => self.alternatives(alternatives),
            Unseen::Terms(terms) => self.terms(terms),
            Unseen::Term(term) => self.term(alloc, term),
        }
    }
}

/// The rows of the classes of a tree, from the last class to the first.
pub fn class_rows(alloc: Global, body: &Disjunction) -> Result<List<ClassRow>, OutOfMemory>
    ensures { IfOk result (λ rows. row_tests rows ≡ each_tests (mirror_disjunction body.now).1 []) }
{
    let mut finder = ClassFinder {
        rows: List::new(alloc),
        unseen: List::new(alloc),
    };
    let alternatives = body.body.as_slice();
    finder.unseen.push(Unseen::Alternatives(alternatives))?;
    while let Some(unseen) = finder.unseen.pop() {
        finder.look_at(alloc, unseen)?;
    }
    let ClassFinder { rows, .. } = finder;
    Ok(rows)
}
