ghost use Rattle.std.specs.Prelude.{◌≡◌, ◌++◌, ◌∷◌, [], IfOk, OnOk, IsTrue, false};
ghost use Rattle.rx_ast.specs.Tree.{mirror_term};
ghost use Rattle.rx_model.specs.declared.mode.Mode.{Mode};
ghost use Rattle.rx_model.specs.Trees.Events.{Events, enter, leave, token, term_events, disjunction_events};
ghost use Rattle.rx_model.specs.Trees.Shapes.{look_takes, takes};
ghost use Rattle.rx_model.specs.Trees.Token.{bar};
ghost use Rattle.rx_parser.specs.Good.{IsGoodLevel, IsGoodTerm, IsGoodDisjunction};
ghost use Rattle.rx_parser.specs.Levels.{level_events, last_takes, Repeats};

use rx_ast::{Alternative, Disjunction, LookAroundAssertionKind, Quantifier, Term};
use rx_base::{GetSpan, List, OutOfMemory, Span};
use rx_model::Mode;
use std::alloc::Global;

/// What has been read of a disjunction (ECMA-262, 22.2.1) that is not yet at its end. Offsets are in bytes.
#[derive(Drop)]
pub struct Level {
    pub start: u32,
    pub alternatives: List<Alternative>,
    pub alternative_start: u32,
    pub terms: List<Term>,
}

/// The alternatives before the last of a disjunction. Where there are none, memory is taken for the last alone: most disjunctions have no more.
fn with_room_for_last(alternatives: List<Alternative>) -> Result<List<Alternative>, OutOfMemory>
    ensures { IfOk result (λ it. it ≡ alternatives) }
{
    if alternatives.is_empty() {
        List::with_capacity(alternatives.allocator(), 1)
    } else {
        Ok(alternatives)
    }
}

impl Level {
    /// A disjunction of which nothing has been read.
    #[tactic(auto, using(crate::proofs::EventEquations::level_new, crate::proofs::Goods::good_new))]
    pub fn new(alloc: Global, at: u32) -> Level
        ensures events { level_events result ≡ enter at ∷ enter at ∷ [] }
        ensures terms { result.terms ≡ [] }
        ensures good { (mode : Mode) → IsGoodLevel mode result }
    {
        Level {
            start: at,
            alternatives: List::new(alloc),
            alternative_start: at,
            terms: List::new(alloc),
        }
    }

    /// The same, with memory for n terms.
    #[tactic(auto, using(crate::proofs::EventEquations::level_new, crate::proofs::Goods::good_new))]
    pub fn with_capacity(alloc: Global, at: u32, capacity: usize) -> Result<Level, OutOfMemory>
        ensures events { IfOk result (λ it. level_events it ≡ enter at ∷ enter at ∷ []) }
        ensures terms { IfOk result (λ it. it.terms ≡ []) }
        ensures good { IfOk result (λ it. (mode : Mode) → IsGoodLevel mode it) }
    {
        Ok(Level {
            start: at,
            alternatives: List::new(alloc),
            alternative_start: at,
            terms: List::with_capacity(alloc, capacity)?,
        })
    }

    /// Takes memory for n more terms at once.
    #[inline]
    pub fn reserve(&mut self, additional: usize) -> Result<(), OutOfMemory>
        ensures { self.new ≡ self.old }
    {
        self.terms.reserve(additional)
    }

    /// Adds a term.
    #[inline]
    #[tactic(auto, using(crate::proofs::EventEquations::level_push, crate::proofs::Goods::good_push))]
    pub fn push(&mut self, term: Term) -> Result<(), OutOfMemory>
        ensures events { OnOk result (level_events self.new ≡ level_events self.old ++ term_events term) }
        ensures terms { OnOk result (self.new.terms ≡ self.old.terms ++ term ∷ []) }
        ensures good { OnOk result ((mode : Mode) → IsGoodLevel mode self.old → IsGoodTerm mode term → IsGoodLevel mode self.new) }
    {
        self.terms.push(term)
    }

    /// Ends an alternative before a bar, and begins the next after it.
    #[inline(always)]
    #[tactic(auto, using(crate::proofs::EventEquations::level_bar, crate::proofs::Goods::good_bar))]
    pub fn bar(&mut self, alloc: Global, at: u32, after: u32) -> Result<(), OutOfMemory>
        ensures events { OnOk result (level_events self.new ≡ level_events self.old ++ (leave at ∷ token bar ∷ enter after ∷ [])) }
        ensures terms { OnOk result (self.new.terms ≡ []) }
        ensures good { OnOk result ((mode : Mode) → IsGoodLevel mode self.old → IsGoodLevel mode self.new) }
    {
        let body = std::mem::replace(&mut self.terms, List::new(alloc));
        let span = Span::new(self.alternative_start, at);
        self.alternatives.push(Alternative { span, body })?;
        self.alternative_start = after;
        Ok(())
    }

    /// Whether a quantifier may follow what has been read (Term of ECMA-262, 22.2.1 and Annex B.1.2).
    #[tactic(auto, using(crate::proofs::EventEquations::last_is))]
    pub fn is_ready(&self, mode: Mode) -> bool
        ensures { result ≡ last_takes mode self.now.terms }
    {
        match self.terms.as_slice() {
            [.., last] => takes_quantifier(mode, last),
            [] => false,
        }
    }

    /// Makes the last term the body of a quantifier that ends before the byte `after`. The counts are the least and the most, if there is one. Where a
    /// quantifier may not follow, the answer is `false`, and all stays as it was.
    pub fn quantify(
        &mut self,
        mode: Mode,
        counts: (u64, Option<u64>),
        greedy: bool,
        after: u32,
    ) -> Result<bool, OutOfMemory>
        ensures answer { IfOk result (λ it. last_takes mode self.old.terms ≡ it) }
        ensures kept { IfOk result (λ it. it ≡ false → self.new ≡ self.old) }
        ensures ready { IfOk result (λ it. IsTrue it → last_takes mode self.new.terms ≡ false) }
        ensures events { IfOk result (λ it. IsTrue it → (front : Events) → Repeats (front ++ level_events self.old) (front ++ level_events self.new) counts.0 counts.1 greedy after) }
        ensures good { IfOk result (λ it. IsTrue it → IsGoodLevel mode self.old → IsGoodLevel mode self.new) }
    {
        if !self.is_ready(mode) {
            return Ok(false);
        }
        let Some(term) = self.terms.pop() else {
            return Ok(false);
        };
        let (min, max) = counts;
        let alloc = self.terms.allocator();
        let body = Quantifier {
            span: Span::new(term.span().start, after),
            min,
            max,
            greedy,
            body: term,
        };
        self.terms.push(Term::Quantifier(Box::new(alloc, body)?))?;
        Ok(true)
    }

    /// Ends the last alternative and the disjunction.
    #[inline(always)]
    pub fn finish(self, at: u32) -> Result<Disjunction, OutOfMemory>
        ensures events { IfOk result (λ it. disjunction_events it ≡ level_events self ++ (leave at ∷ leave at ∷ [])) }
        ensures good { IfOk result (λ it. (mode : Mode) → IsGoodLevel mode self → IsGoodDisjunction mode it) }
    {
        let Level {
            start,
            alternatives,
            alternative_start,
            terms,
        } = self;
        let mut alternatives = with_room_for_last(alternatives)?;
        alternatives.push(Alternative {
            span: Span::new(alternative_start, at),
            body: terms,
        })?;
        Ok(Disjunction {
            span: Span::new(start, at),
            body: alternatives,
        })
    }
}

/// Whether a term may be a quantifier's body (Term of ECMA-262, 22.2.1 and Annex B.1.2).
#[tactic(auto, using(rx_ast::proofs::Equations::mirrors))]
fn takes_quantifier(mode: Mode, term: &Term) -> bool
    ensures { result ≡ takes mode (mirror_term term.now) }
{
    match term {
        Term::BoundaryAssertion(_) => false,
        Term::Quantifier(_) => false,
        Term::LookAroundAssertion(it) => look_takes_quantifier(mode, it.kind),
        Term::Character(_) => true,
        Term::Dot(_) => true,
        Term::CharacterClassEscape(_) => true,
        Term::UnicodePropertyEscape(_) => true,
        Term::CharacterClass(_) => true,
        Term::CapturingGroup(_) => true,
        Term::IgnoreGroup(_) => true,
        Term::IndexedReference(_) => true,
        Term::NamedReference(_) => true,
    }
}

/// Whether a look-around may be a quantifier's body: a lookahead with neither `u` nor `v` (QuantifiableAssertion of
/// ECMA-262, Annex B.1.2).
fn look_takes_quantifier(mode: Mode, kind: LookAroundAssertionKind) -> bool
    ensures { result ≡ look_takes mode kind }
{
    match mode {
        Mode::Unicode | Mode::Sets => false,
        Mode::Legacy => match kind {
            LookAroundAssertionKind::Lookahead => true,
            LookAroundAssertionKind::NegativeLookahead => true,
            LookAroundAssertionKind::Lookbehind => false,
            LookAroundAssertionKind::NegativeLookbehind => false,
        },
    }
}
