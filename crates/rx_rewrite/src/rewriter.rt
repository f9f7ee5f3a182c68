ghost use Rattle.std.specs.Prelude.{◌≡◌, ◌∷◌, ◌<◌, IfOk, OnOk, length, map};
ghost use Rattle.rx_ast.specs.Tree.{alternatives as alternatives_of, boundary, class, dot, leaf, mirror_alternative, mirror_capturing, mirror_disjunction, mirror_ignore, mirror_look, mirror_quantifier, mirror_term, nodes};
ghost use Rattle.rx_ast.specs.ClassTree.{mirror_class};
ghost use Rattle.rx_trace.specs.Groups.{Names};
ghost use Rattle.rx_rewrite.specs.RewriterState.{IsNumbered, IsReady, AddsTerm, Performs, opener_of, with_task, work_of, works};
ghost use Rattle.rx_rewrite.specs.Rewriting.{alternatives_rewritten, boundary_rewritten, dot_rewritten, end_rewritten, modifiers_rewritten, name_rewritten, reference_rewritten};
ghost use Rattle.rx_rewrite.specs.Works.{alternatives as alternatives_work, ending_alternative, ending_group, ending_quantifier, opening, term as term_work, terms as terms_work};

use crate::copy_class::copy_class;
use crate::numbers::GroupNumbers;
use crate::opener::{Opener, copy_text};
use crate::plain::{any_unit, class_term, look_for, no_line_terminator};
use crate::rewrites::Rewrites;
use crate::settings::{
    Replacement, SettingsPair, modifiers_copied, modifiers_kept, replacement_for,
};
use rx_ast::{
    Alternative, BoundaryAssertion, BoundaryAssertionKind, CapturingGroup, CharacterClass,
    Disjunction, Dot, IgnoreGroup, IndexedReference, LookAroundAssertion, LookAroundAssertionKind,
    Modifiers, NamedReference, Quantifier, Term,
};
use rx_base::{List, OutOfMemory, Span, Text};
use rx_trace::settings_after;
use std::alloc::Global;

/// What is still to be rewritten.
#[derive(Drop)]
pub enum Task<'a> {
    Alternatives {
        settings: SettingsPair,
        alternatives: &'a [Alternative],
    },
    Terms {
        settings: SettingsPair,
        terms: &'a [Term],
    },
    Term {
        settings: SettingsPair,
        term: &'a Term,
    },
    /// The end of an alternative, with the terms of the one that its group stands in.
    EndAlternative {
        span: Span,
        outer: List<Term>,
    },
    /// The end of a group or a look-around, with the alternatives of the disjunction that it stands in.
    EndGroup {
        span: Span,
        opener: Opener,
        body: Span,
        outer: List<Alternative>,
    },
    /// The end of the term that a quantifier repeats.
    EndQuantifier(&'a Quantifier),
}

/// The rewritten terms so far of the innermost alternative that has not ended, the rewritten alternatives so far of its disjunction, and what is still to be
/// rewritten, the next last.
#[derive(Drop)]
pub struct Rewriter<'a> {
    pub alloc: Global,
    pub what: Rewrites,
    pub numbers: &'a GroupNumbers,
    pub tasks: List<Task<'a>>,
    pub terms: List<Term>,
    pub alternatives: List<Alternative>,
}

/// The rewriting of a disjunction. What is still to be rewritten waits on the heap, so that a deep tree needs no deep stack.
pub fn rewrite_disjunction(
    alloc: Global,
    what: Rewrites,
    numbers: &GroupNumbers,
    settings: SettingsPair,
    body: &Disjunction,
) -> Result<Disjunction, OutOfMemory>
    requires { (names : Names) × IsNumbered what names numbers.now }
    ensures { (names : Names) → IsNumbered what names numbers.now → IfOk result (λ it. mirror_disjunction it ≡ ((mirror_disjunction body.now).0, alternatives_rewritten what names settings.old settings.new (mirror_disjunction body.now).1)) }
{
    let alternatives = body.body.as_slice();
    let mut rewriter = Rewriter {
        alloc,
        what,
        numbers,
        tasks: List::new(alloc),
        terms: List::new(alloc),
        alternatives: List::with_capacity(alloc, alternatives.len())?,
    };
    rewriter.tasks.push(Task::Alternatives {
        settings,
        alternatives,
    })?;
    while let Some(task) = rewriter.tasks.pop() {
        rewriter.perform(task)?;
    }
    let Rewriter { alternatives, .. } = rewriter;
    Ok(Disjunction {
        span: body.span,
        body: alternatives,
    })
}

impl<'a> Rewriter<'a> {
    /// Does a task, or cuts it into smaller ones.
    fn perform(&mut self, task: Task<'a>) -> Result<(), OutOfMemory>
        requires { IsReady self.old (work_of task ∷ works self.old) }
        ensures { OnOk result (Performs self.old (work_of task.entry) self.new) }
    {
        match task {
            Task::Alternatives {
                settings,
                alternatives,
            } => self.alternatives(settings, alternatives),
            Task::Terms { settings, terms } => self.terms(settings, terms),
            Task::Term { settings, term } => self.term(settings, term),
            Task::EndAlternative { span, outer } => self.end_alternative(span, outer),
            Task::EndGroup {
                span,
                opener,
                body,
                outer,
            } => self.end_group(span, opener, body, outer),
            Task::EndQuantifier(quantifier) => self.end_quantifier(quantifier),
        }
    }

    fn alternatives(
        &mut self,
        settings: SettingsPair,
        alternatives: &'a [Alternative],
    ) -> Result<(), OutOfMemory>
        ensures { OnOk result (Performs self.old (alternatives_work settings.old settings.new (alternatives_of (map mirror_alternative alternatives.now))) self.new) }
    {
        let Some((first, alternatives)) = alternatives.split_first() else {
            return Ok(());
        };
        self.push_task(Task::Alternatives {
            settings,
            alternatives,
        })?;
        let terms = first.body.as_slice();
        let inner = List::with_capacity(self.alloc, terms.len())?;
        let outer = std::mem::replace(&mut self.terms, inner);
        let span = first.span;
        self.push_task(Task::EndAlternative { span, outer })?;
        self.push_task(Task::Terms { settings, terms })
    }

    fn end_alternative(&mut self, span: Span, outer: List<Term>) -> Result<(), OutOfMemory>
        ensures { OnOk result (Performs self.old (ending_alternative span (map mirror_term outer)) self.new) }
    {
        let body = std::mem::replace(&mut self.terms, outer);
        self.alternatives.push(Alternative { span, body })
    }

    fn terms(&mut self, settings: SettingsPair, terms: &'a [Term]) -> Result<(), OutOfMemory>
        ensures { OnOk result (Performs self.old (terms_work settings.old settings.new (nodes (map mirror_term terms.now))) self.new) }
    {
        let Some((term, terms)) = terms.split_first() else {
            return Ok(());
        };
        self.push_task(Task::Terms { settings, terms })?;
        self.push_task(Task::Term { settings, term })
    }

    fn term(&mut self, settings: SettingsPair, term: &'a Term) -> Result<(), OutOfMemory>
        ensures { OnOk result (Performs self.old (term_work settings.old settings.new (mirror_term term.now)) self.new) }
    {
        match term {
            Term::LookAroundAssertion(it) => self.look_around(settings, it),
            Term::Quantifier(it) => self.quantifier(settings, it),
            Term::CapturingGroup(it) => self.rewrite_capturing(settings, it),
            Term::IgnoreGroup(it) => self.ignoring(settings, it),
            Term::BoundaryAssertion(it) => {
                let made = self.boundary(settings, it)?;
                self.push_term(made)
            }
            Term::Dot(it) => {
                let made = self.dot(settings, *it)?;
                self.push_term(made)
            }
            Term::CharacterClass(it) => {
                let made = self.class(it)?;
                self.push_term(made)
            }
            Term::NamedReference(it) => {
                let made = self.named_reference(it)?;
                self.push_term(made)
            }
            Term::Character(_) => self.copy(term),
            Term::CharacterClassEscape(_) => self.copy(term),
            Term::UnicodePropertyEscape(_) => self.copy(term),
            Term::IndexedReference(_) => self.copy(term),
        }
    }

    /// Adds a copy of a term that stays.
    fn copy(&mut self, term: &Term) -> Result<(), OutOfMemory>
        ensures { OnOk result (AddsTerm self.old (mirror_term term.now) self.new) }
    {
        let made = term.clone(self.alloc)?;
        self.push_term(made)
    }

    fn push_term(&mut self, term: Term) -> Result<(), OutOfMemory>
        ensures { OnOk result (AddsTerm self.old (mirror_term term) self.new) }
    {
        self.terms.push(term)
    }

    fn push_task(&mut self, task: Task<'a>) -> Result<(), OutOfMemory>
        ensures { OnOk result (self.new ≡ with_task self.old task.entry) }
    {
        self.tasks.push(task)
    }
}

/// Groups and quantifiers.
impl<'a> Rewriter<'a> {
    fn rewrite_capturing(
        &mut self,
        settings: SettingsPair,
        it: &'a CapturingGroup,
    ) -> Result<(), OutOfMemory>
        ensures { OnOk result (Performs self.old (term_work settings.old settings.new (mirror_capturing it.now)) self.new) }
    {
        let name = self.name(&it.name)?;
        self.open_group(settings, it.span, Opener::Capturing(name), &it.body)
    }

    fn ignoring(&mut self, settings: SettingsPair, it: &'a IgnoreGroup) -> Result<(), OutOfMemory>
        ensures { OnOk result (Performs self.old (term_work settings.old settings.new (mirror_ignore it.now)) self.new) }
    {
        let modifiers = self.modifiers(&it.modifiers);
        let inside = SettingsPair {
            old: settings_after(&it.modifiers, settings.old),
            new: settings_after(&modifiers, settings.new),
        };
        self.open_group(inside, it.span, Opener::Ignoring(modifiers), &it.body)
    }

    fn look_around(
        &mut self,
        settings: SettingsPair,
        it: &'a LookAroundAssertion,
    ) -> Result<(), OutOfMemory>
        ensures { OnOk result (Performs self.old (term_work settings.old settings.new (mirror_look it.now)) self.new) }
    {
        self.open_group(settings, it.span, Opener::LookAround(it.kind), &it.body)
    }

    fn open_group(
        &mut self,
        settings: SettingsPair,
        span: Span,
        opener: Opener,
        body: &'a Disjunction,
    ) -> Result<(), OutOfMemory>
        ensures { OnOk result (Performs self.old (opening settings.old settings.new span (opener_of opener) (mirror_disjunction body.now).0 (mirror_disjunction body.now).1) self.new) }
    {
        let alternatives = body.body.as_slice();
        let inner = List::with_capacity(self.alloc, alternatives.len())?;
        let outer = std::mem::replace(&mut self.alternatives, inner);
        self.push_task(Task::EndGroup {
            span,
            opener,
            body: body.span,
            outer,
        })?;
        self.push_task(Task::Alternatives {
            settings,
            alternatives,
        })
    }

    fn end_group(
        &mut self,
        span: Span,
        opener: Opener,
        body: Span,
        outer: List<Alternative>,
    ) -> Result<(), OutOfMemory>
        ensures { OnOk result (Performs self.old (ending_group span (opener_of opener) body (map mirror_alternative outer)) self.new) }
    {
        let alternatives = std::mem::replace(&mut self.alternatives, outer);
        let body = Disjunction {
            span: body,
            body: alternatives,
        };
        let term = opener.into_term(self.alloc, span, body)?;
        self.terms.push(term)
    }

    fn quantifier(&mut self, settings: SettingsPair, it: &'a Quantifier) -> Result<(), OutOfMemory>
        ensures { OnOk result (Performs self.old (term_work settings.old settings.new (mirror_quantifier it.now)) self.new) }
    {
        self.push_task(Task::EndQuantifier(it))?;
        self.push_task(Task::Term {
            settings,
            term: &it.body,
        })
    }

    fn end_quantifier(&mut self, it: &Quantifier) -> Result<(), OutOfMemory>
        requires { 0 < length self.old.terms }
        ensures { OnOk result (Performs self.old (ending_quantifier it.now.span it.now.min it.now.max it.now.greedy) self.new) }
    {
        let Some(body) = self.terms.pop() else {
            unreachable!()
        };
        let copy = Quantifier {
            span: it.span,
            min: it.min,
            max: it.max,
            greedy: it.greedy,
            body,
        };
        let copy = Box::new(self.alloc, copy)?;
        self.terms.push(Term::Quantifier(copy))
    }

    /// What stays of a group's name.
    fn name(&self, name: &Option<Text>) -> Result<Option<Text>, OutOfMemory>
        ensures { IfOk result (λ it. (names : Names) → it ≡ name_rewritten self.now.what names name.now) }
    {
        if self.what.named_capture_groups {
            Ok(None)
        } else {
            copy_text(self.alloc, name)
        }
    }

    /// What stays of a group's modifiers.
    fn modifiers(&self, modifiers: &Option<Modifiers>) -> Option<Modifiers>
        ensures { (names : Names) → result ≡ modifiers_rewritten self.now.what names modifiers.now }
    {
        if self.what.pattern_modifiers {
            modifiers_kept(modifiers)
        } else {
            modifiers_copied(modifiers)
        }
    }
}

/// Terms that hold no other.
impl<'a> Rewriter<'a> {
    fn class(&self, it: &CharacterClass) -> Result<Term, OutOfMemory>
        ensures { IfOk result (λ made. mirror_term made ≡ leaf (class (mirror_class it.now))) }
    {
        class_term(self.alloc, copy_class(self.alloc, it)?)
    }

    /// `.`, or a class that holds the same.
    fn dot(&self, settings: SettingsPair, it: Dot) -> Result<Term, OutOfMemory>
        ensures { IfOk result (λ made. mirror_term made ≡ dot_rewritten self.now.what.dot_all settings.old.dot_all settings.new.dot_all it) }
    {
        match replacement_for(
            self.what.dot_all,
            settings.old.dot_all,
            settings.new.dot_all,
        ) {
            Replacement::Keep => Ok(Term::Dot(it)),
            Replacement::On => class_term(self.alloc, any_unit(self.alloc, it.span)),
            Replacement::Off => class_term(self.alloc, no_line_terminator(self.alloc, it.span)?),
        }
    }

    fn boundary(&self, settings: SettingsPair, it: &BoundaryAssertion) -> Result<Term, OutOfMemory>
        ensures { IfOk result (λ made. mirror_term made ≡ boundary_rewritten self.now.what.multiline settings.old.multiline settings.new.multiline it.now.kind it.now) }
    {
        match it.kind {
            BoundaryAssertionKind::Start => {
                self.line_end(settings, it, LookAroundAssertionKind::NegativeLookbehind)
            }
            BoundaryAssertionKind::End => {
                self.line_end(settings, it, LookAroundAssertionKind::NegativeLookahead)
            }
            BoundaryAssertionKind::Boundary
            | BoundaryAssertionKind::NegativeBoundary
            | BoundaryAssertionKind::StartBuffer
            | BoundaryAssertionKind::EndBuffer
            | BoundaryAssertionKind::EndBufferOptionalNewline => Ok(boundary_term(it)),
        }
    }

    /// `^` or `$`, or a look-around that holds at the same places.
    fn line_end(
        &self,
        settings: SettingsPair,
        it: &BoundaryAssertion,
        kind: LookAroundAssertionKind,
    ) -> Result<Term, OutOfMemory>
        ensures { IfOk result (λ made. mirror_term made ≡ end_rewritten self.now.what.multiline settings.old.multiline settings.new.multiline kind it.now) }
    {
        match replacement_for(
            self.what.multiline,
            settings.old.multiline,
            settings.new.multiline,
        ) {
            Replacement::Keep => Ok(boundary_term(it)),
            Replacement::On => {
                let class = no_line_terminator(self.alloc, it.span)?;
                look_for(self.alloc, it.span, kind, class)
            }
            Replacement::Off => {
                let class = any_unit(self.alloc, it.span);
                look_for(self.alloc, it.span, kind, class)
            }
        }
    }

    /// A reference by name, or by the number of the group of that name.
    fn named_reference(&self, it: &NamedReference) -> Result<Term, OutOfMemory>
        ensures { IfOk result (λ made. (names : Names) → IsNumbered self.now.what names self.now.numbers.now → mirror_term made ≡ leaf (reference_rewritten self.now.what names it.now)) }
    {
        if self.what.named_capture_groups {
            return Ok(Term::IndexedReference(IndexedReference {
                span: it.span,
                index: self.numbers.number_of(&it.name),
            }));
        }
        let copy = it.clone(self.alloc)?;
        Ok(Term::NamedReference(Box::new(self.alloc, copy)?))
    }
}

/// The same assertion as a term.
#[tactic(auto, using(rx_ast::proofs::Equations::mirrors))]
fn boundary_term(it: &BoundaryAssertion) -> Term
    ensures { mirror_term result ≡ leaf (boundary it.now) }
{
    Term::BoundaryAssertion(BoundaryAssertion {
        span: it.span,
        kind: it.kind,
    })
}
