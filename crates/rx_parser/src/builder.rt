ghost use Rattle.std.specs.Prelude.{◌≡◌, ◌++◌, ◌∷◌, [], List, None, IfOk, IfSome, OnOk, IsTrue, ◌↔◌, false};
ghost use Rattle.rx_ast.specs.Tree.{mirror_term};
ghost use Rattle.rx_model.specs.Trees.Events.{enter, leave, token, events, opener_event, term_events};
ghost use Rattle.rx_model.specs.Trees.Shapes.{group_takes, takes, IsWellMade};
ghost use Rattle.rx_model.specs.Trees.Token.{bar, closer, opener_of, Opener};
ghost use Rattle.rx_parser.specs.declared.frame.Frame.{Frame};
ghost use Rattle.rx_parser.specs.Frames.{builder_events, fixed_of, opener_tree, openers, ready};
ghost use Rattle.rx_parser.specs.Good.{IsGood, IsGoodTerm};
ghost use Rattle.rx_parser.specs.Levels.{Repeats};

use crate::{Frame, GroupKind, Level};
use rx_ast::{Pattern, Term};
use rx_base::{List, OutOfMemory, Span};
use rx_model::{Mode, Rules};
use std::alloc::Global;

/// All that has been read of a pattern (ECMA-262, 22.2.1): the open groups, the outermost first, and the innermost
/// disjunction. Offsets are in bytes.
#[derive(Drop)]
pub struct Builder {
    pub mode: Mode,
    pub rules: Rules,
    pub start: u32,
    pub frames: List<Frame>,
    pub level: Level,
}

impl Builder {
    /// A pattern of which nothing has been read, from the byte `start` on.
    #[tactic(auto, using(crate::proofs::FrameEvents::builder_new, crate::proofs::Goods::good_start))]
    pub fn new(alloc: Global, mode: Mode, rules: Rules, start: u32) -> Builder
        ensures events { builder_events result ≡ enter start ∷ enter start ∷ enter start ∷ [] }
        ensures openers { openers result ≡ [] }
        ensures ready { ready result ≡ false }
        ensures good { IsGood result }
        ensures mode { result.mode ≡ mode }
        ensures rules { result.rules ≡ rules }
        ensures start { result.start ≡ start }
    {
        Builder {
            mode,
            rules,
            start,
            frames: List::new(alloc),
            level: Level::new(alloc, start),
        }
    }

    /// The same, with memory for n terms of the first alternative.
    #[tactic(auto, using(crate::proofs::FrameEvents::builder_new, crate::proofs::Goods::good_start))]
    pub fn with_capacity(
        alloc: Global,
        mode: Mode,
        rules: Rules,
        start: u32,
        capacity: usize,
    ) -> Result<Builder, OutOfMemory>
        ensures events { IfOk result (λ it. builder_events it ≡ enter start ∷ enter start ∷ enter start ∷ []) }
        ensures openers { IfOk result (λ it. openers it ≡ []) }
        ensures ready { IfOk result (λ it. ready it ≡ false) }
        ensures good { IfOk result IsGood }
        ensures mode { IfOk result (λ it. it.mode ≡ mode) }
        ensures rules { IfOk result (λ it. it.rules ≡ rules) }
        ensures start { IfOk result (λ it. it.start ≡ start) }
    {
        Ok(Builder {
            mode,
            rules,
            start,
            frames: List::new(alloc),
            level: Level::with_capacity(alloc, start, capacity)?,
        })
    }

    /// Adds a term with no term in it.
    #[inline]
    #[tactic(auto, using(crate::proofs::EventEquations::last_after, crate::proofs::FrameEvents::builder_level, crate::proofs::Goods::good_level))]
    pub fn leaf(&mut self, term: Term) -> Result<(), OutOfMemory>
        ensures events { OnOk result (builder_events self.new ≡ builder_events self.old ++ term_events term) }
        ensures openers { OnOk result (openers self.new ≡ openers self.old) }
        ensures ready { OnOk result (ready self.new ≡ takes self.old.mode (mirror_term term)) }
        ensures good { OnOk result (IsGoodTerm self.old.mode term → IsGood self.old → IsGood self.new) }
        ensures fixed { fixed_of self.new ≡ fixed_of self.old }
    {
        self.level.push(term)
    }

    /// Ends an alternative before a bar, and begins the next after it.
    #[inline(always)]
    #[tactic(auto, using(crate::proofs::FrameEvents::builder_level, crate::proofs::Goods::good_level))]
    pub fn bar(&mut self, alloc: Global, at: u32, after: u32) -> Result<(), OutOfMemory>
        ensures events { OnOk result (builder_events self.new ≡ builder_events self.old ++ (leave at ∷ token bar ∷ enter after ∷ [])) }
        ensures openers { OnOk result (openers self.new ≡ openers self.old) }
        ensures ready { OnOk result (ready self.new ≡ false) }
        ensures good { OnOk result (IsGood self.old → IsGood self.new) }
        ensures fixed { fixed_of self.new ≡ fixed_of self.old }
    {
        self.level.bar(alloc, at, after)
    }

    /// Begins a group or a look-around.
    #[tactic(auto, using(crate::proofs::FrameEvents::builder_open, crate::proofs::Goods::good_open))]
    pub fn open(
        &mut self,
        alloc: Global,
        group_kind: GroupKind,
        at: u32,
        after: u32,
    ) -> Result<(), OutOfMemory>
        ensures events { OnOk result (builder_events self.new ≡ builder_events self.old ++ (enter at ∷ opener_event (opener_tree group_kind) ∷ enter after ∷ enter after ∷ [])) }
        ensures openers { OnOk result (openers self.new ≡ opener_of (opener_tree group_kind) ∷ openers self.old) }
        ensures ready { OnOk result (ready self.new ≡ false) }
        ensures good { OnOk result (IsGood self.old → IsGood self.new) }
        ensures fixed { fixed_of self.new ≡ fixed_of self.old }
    {
        let outer = std::mem::replace(&mut self.level, Level::new(alloc, after));
        self.frames.push(Frame {
            outer,
            start: at,
            group_kind,
        })
    }

    /// Ends the innermost open group or look-around. Where none is open, the answer is `false`, and all stays as it was.
    pub fn close(&mut self, alloc: Global, at: u32, after: u32) -> Result<bool, OutOfMemory>
        ensures events { IfOk result (λ it. IsTrue it → builder_events self.new ≡ builder_events self.old ++ (leave at ∷ leave at ∷ token closer ∷ leave after ∷ [])) }
        ensures openers { IfOk result (λ it. IsTrue it → (o : Opener) × (openers self.old ≡ o ∷ openers self.new) × (ready self.new ≡ group_takes self.old.mode o)) }
        ensures good { IfOk result (λ it. IsTrue it → IsGood self.old → IsGood self.new) }
        ensures none { IfOk result (λ it. it ≡ false → openers self.old ≡ []) }
        ensures kept { IfOk result (λ it. it ≡ false → self.new ≡ self.old) }
        ensures fixed { fixed_of self.new ≡ fixed_of self.old }
    {
        let Some(frame) = self.frames.pop() else {
            return Ok(false);
        };
        let Frame {
            outer,
            start,
            group_kind,
        } = frame;
        let inner = std::mem::replace(&mut self.level, outer);
        let body = inner.finish(at)?;
        let term = group_kind.into_term(alloc, Span::new(start, after), body)?;
        self.level.push(term)?;
        Ok(true)
    }

    /// Makes the last term the body of a quantifier that ends before the byte `after`. The counts are the least and the most, if there is one. Where a
    /// quantifier may not follow, the answer is `false`, and all stays as it was.
    pub fn quantify(
        &mut self,
        counts: (u64, Option<u64>),
        greedy: bool,
        after: u32,
    ) -> Result<bool, OutOfMemory>
        ensures answer { IfOk result (λ it. ready self.old ≡ it) }
        ensures events { IfOk result (λ it. IsTrue it → Repeats (builder_events self.old) (builder_events self.new) counts.0 counts.1 greedy after) }
        ensures openers { IfOk result (λ it. IsTrue it → openers self.new ≡ openers self.old) }
        ensures ready { IfOk result (λ it. IsTrue it → ready self.new ≡ false) }
        ensures good { IfOk result (λ it. IsTrue it → IsGood self.old → IsGood self.new) }
        ensures kept { IfOk result (λ it. it ≡ false → self.new ≡ self.old) }
        ensures fixed { fixed_of self.new ≡ fixed_of self.old }
    {
        self.level.quantify(self.mode, counts, greedy, after)
    }

    /// The innermost open group.
    pub fn innermost(&self) -> Option<&Frame>
        ensures some { IfSome result (λ it. (outer : List Frame) × (self.now.frames ≡ outer ++ it.now ∷ [])) }
        ensures none { result ≡ None → openers self.now ≡ [] }
    {
        self.frames.as_slice().last()
    }

    /// Whether no group is open.
    #[tactic(auto, using(crate::proofs::FrameEvents::frames_none))]
    pub fn is_whole(&self) -> bool
        ensures { IsTrue result ↔ (openers self.now ≡ []) }
    {
        self.frames.is_empty()
    }

    /// Whether a quantifier may follow (Term of ECMA-262, 22.2.1 and Annex B.1.2).
    pub fn is_ready(&self) -> bool
        ensures { result ≡ ready self.now }
    {
        self.level.is_ready(self.mode)
    }

    /// The pattern, which ends before the byte `at`.
    #[inline(always)]
    pub fn finish(self, at: u32) -> Result<Pattern, OutOfMemory>
        requires { openers self ≡ [] }
        ensures events { IfOk result (λ it. events it ≡ builder_events self ++ (leave at ∷ leave at ∷ leave at ∷ [])) }
        ensures good { IfOk result (λ it. IsGood self → IsWellMade self.mode it) }
    {
        let Builder { start, level, .. } = self;
        Ok(Pattern {
            span: Span::new(start, at),
            body: level.finish(at)?,
        })
    }
}
