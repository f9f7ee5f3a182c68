ghost use Rattle.std.specs.Prelude.{◌≡◌, ◌+◌, ◌<◌, ◌≤◌, ◌^◌, ◌∷◌, [], All, if◌then◌else◌};
ghost use Rattle.std.proofs.Props.{props};
ghost use Rattle.rx_units.specs.Cursor.{begins, front, move_on, offset_of, rest};
ghost use Rattle.rx_units.specs.Pace.{IsMove};
ghost use Rattle.rx_model.specs.Inputs.Environment.{is_sets, is_unicode};
ghost use Rattle.rx_model.specs.Refusals.Reached.{span_between};
ghost use Rattle.rx_class.specs.EscapeReading.Answers.{environment_of, span_to};
ghost use Rattle.rx_class.specs.Fitting.{AreFitting};
ghost use Rattle.rx_class.specs.Keeping.{KeepsUnits};

use crate::escapes::escape::is_unicode;
use rx_base::{Counter, Span};
use rx_model::Mode;
use rx_scan::{SpanFactory, State};
use rx_units::{Ahead, Reader, UnitSource};
use std::alloc::Global;

/// What the parts of a pattern are read from and with: a reader whose offsets fit the spans that are made of them, the state of the
/// pattern, memory, and a counter of steps.
// Why: docs/DECISIONS.md, 102.
#[derive(Drop)]
pub struct Reading<'reader, 'text, 'state, 'spans, 'steps, S: UnitSource, C> {
    pub reader: &'reader mut Reader<'text, S>,
    pub state: &'state State,
    pub spans: &'spans SpanFactory,
    pub alloc: Global,
    pub steps: &'steps mut C,
    pub ghost fits: { AreFitting spans.now reader.now } by { Prim.hlevel props },
}

impl<S: UnitSource, C: Counter> Reading<'_, '_, '_, '_, '_, S, C> {
    ghost use Rattle.rx_class.specs.Readings.{ReadsOn};

    /// The units from the place to the end.
    #[inline(always)]
    pub(crate) fn units(&self) -> Ahead<'_, S::Unit>
        ensures units { result ≡ rest self.now.reader.now }
        ensures code_points { All (λ unit. unit.value ≤ 0x10FFFF) result }
    {
        self.reader.ahead()
    }

    /// The value of the unit at the place.
    #[inline]
    pub(crate) fn peek(&self) -> Option<u32>
        ensures { result ≡ front (rest self.now.reader.now) }
    {
        self.reader.peek()
    }

    /// The offset at the place, in bytes.
    #[inline]
    pub(crate) fn offset(&self) -> u32
        ensures value { result ≡ offset_of self.now.reader.now }
        ensures fits { result + self.now.spans.now < 2 ^ 32 }
    {
        self.reader.offset()
    }

    /// Moves one place on, or does nothing at the end.
    #[inline]
    pub(crate) fn advance(&mut self)
        ensures reader { self.new.reader.now ≡ move_on 1 self.old.reader.now }
        ensures steps { IsMove (C.count self.old.steps.now) (C.count self.new.steps.now) self.old.reader.now self.new.reader.now }
        ensures on { ReadsOn self.old self.new }
    {
        self.skip(1);
    }

    /// Moves n places on, or to the end where fewer are left.
    #[inline]
    #[tactic(auto, using(crate::proofs::Fitting::moved_are_fitting))]
    pub(crate) fn skip(&mut self, count: usize)
        ensures reader { self.new.reader.now ≡ move_on count self.old.reader.now }
        ensures steps { IsMove (C.count self.old.steps.now) (C.count self.new.steps.now) self.old.reader.now self.new.reader.now }
        ensures on { ReadsOn self.old self.new }
    {
        self.reader.skip_counted(count, self.steps);
    }

    /// Moves over this character if it is at the place, and says whether it was.
    #[tactic(auto, using(crate::proofs::Fitting::eaten_are_fitting))]
    pub(crate) fn eat(&mut self, ch: char) -> bool
        ensures value { result ≡ begins (ch ∷ []) (rest self.old.reader.now) }
        ensures reader { self.new.reader.now ≡ (if result then move_on 1 self.old.reader.now else self.old.reader.now) }
        ensures steps { IsMove (C.count self.old.steps.now) (C.count self.new.steps.now) self.old.reader.now self.new.reader.now }
        ensures on { ReadsOn self.old self.new }
    {
        self.reader.eat_counted(ch, self.steps)
    }

    /// The span from an offset to the place.
    #[inline]
    pub(crate) fn span_from(&self, start: u32) -> Span
        requires { start + self.now.spans.now < 2 ^ 32 }
        ensures { result ≡ span_to self.now.spans.now start self.now.reader.now }
    {
        self.spans.create(start, self.offset())
    }

    /// The empty span at the place.
    pub(crate) fn here(&self) -> Span
        ensures { result ≡ span_to self.now.spans.now (offset_of self.now.reader.now) self.now.reader.now }
    {
        self.span_from(self.offset())
    }

    /// The span of `count` units that stand `ahead` units on. Moves over them.
    pub(crate) fn read_span(&mut self, ahead: usize, count: usize) -> Span
        ensures span { result ≡ span_between self.old.reader.now.units self.old.reader.now.first self.old.spans.now (self.old.reader.now.place + ahead) (self.old.reader.now.place + ahead + count) }
        ensures reader { KeepsUnits self.old.reader.now self.new.reader.now }
        ensures steps { IsMove (C.count self.old.steps.now) (C.count self.new.steps.now) self.old.reader.now self.new.reader.now }
        ensures on { ReadsOn self.old self.new }
    {
        self.skip(ahead);
        let start = self.offset();
        self.skip(count);
        self.span_from(start)
    }

    /// Whether escapes are those with `u` or `v`.
    pub(crate) fn is_unicode(&self) -> bool
        ensures { result ≡ is_unicode (environment_of self.now.state.now).mode }
    {
        is_unicode(self.state)
    }
}

/// Whether classes are read as sets: with `v`.
pub(crate) fn is_sets(mode: Mode) -> bool
    ensures { result ≡ is_sets mode }
{
    match mode {
        Mode::Sets => true,
        Mode::Legacy | Mode::Unicode => false,
    }
}
