ghost use Rattle.std.specs.Prelude.{◌≡◌, ℕ, ◌+◌, ◌<◌, ◌≤◌, ◌==◌, ◌^◌, ◌∷◌, [], IfSome, MatchOption, drop, false, length, take};
ghost use Rattle.rx_units.specs.Cursor.{begins, front, front_kind};
ghost use Rattle.rx_units.specs.Stored.{units_of, values_of};
ghost use Rattle.rx_units.specs.Units.{offset_at, values};

use crate::{CodePoint, EscapeKind, Unit};
use std::marker::Model;

/// The units of a text from a place on, as they are stored. Contracts see them as a list of units.
#[derive(Drop)]
pub struct Ahead<'a, U: Unit> {
    items: &'a [U],
    place: usize,
}

impl<'a, U: Unit> Model for Ahead<'a, U> {
    ghost use Rattle.std.specs.Prelude.{List, ◌+◌, ◌<◌, ◌^◌, length};
    ghost use Rattle.rx_units.specs.declared.code_point.CodePoint.{CodePoint};
    ghost use Rattle.rx_units.specs.Stored.{units_of};

    ghost Value = { List CodePoint };

    ghost view = { λ a. units_of U.unit a.place a.items.now };

    ghost invariant = { λ a. a.place + length a.items.now < 2 ^ 63 };
}

impl<'a> Ahead<'a, CodePoint> {
    /// All of these decoded units.
    #[tactic(auto, using(crate::proofs::UnitLists::units_are))]
    #[inline(always)]
    pub fn of(units: &'a [CodePoint]) -> Ahead<'a, CodePoint>
        ensures { result ≡ units.now }
    {
        Ahead::new(units, 0)
    }
}

impl<'a, U: Unit> Ahead<'a, U> {
    /// The units that these items are, the first of them at `place`.
    #[inline(always)]
    pub fn new(items: &'a [U], place: usize) -> Ahead<'a, U>
        requires { place + length items.now < 2 ^ 63 }
        ensures { result ≡ units_of U.unit place items.now }
    {
        Ahead { items, place }
    }

    /// The items that the units are.
    #[inline(always)]
    pub fn items(&self) -> &'a [U]
        ensures values { values self.now ≡ values_of U.value result.now }
        ensures length { length self.now ≡ length result.now }
        ensures short { length result.now < 2 ^ 63 }
    {
        self.items
    }

    /// How many units there are.
    #[tactic(auto, using(crate::proofs::UnitLists::units_length))]
    #[inline(always)]
    pub fn len(&self) -> usize
        ensures value { result ≡ length self.now }
        ensures short { result < 2 ^ 63 }
    {
        self.items.len()
    }

    /// Whether there are none.
    #[inline(always)]
    pub fn is_empty(&self) -> bool
        ensures { result ≡ (length self.now == 0) }
    {
        self.len() == 0
    }

    /// The value of the first unit.
    #[inline(always)]
    pub fn first(&self) -> Option<u32>
        ensures { result ≡ front self.now }
    {
        match self.items {
            [first, ..] => Some(first.value()),
            [] => None,
        }
    }

    /// The value of the first unit, and the units after it.
    #[inline(always)]
    pub fn split_first(&self) -> Option<(u32, Ahead<'a, U>)>
        ensures values { MatchOption result (values self.now ≡ []) (λ it. values self.now ≡ it.0 ∷ values it.1) }
        ensures counted { MatchOption result (length self.now ≡ 0) (λ it. length self.now ≡ length it.1 + 1) }
    {
        match self.items {
            [first, ..] => Some((first.value(), self.from(1))),
            [] => None,
        }
    }

    /// The units after the first, where that is this character.
    #[inline(always)]
    pub fn after(&self, ch: char) -> Option<Ahead<'a, U>>
        ensures values { MatchOption result (begins (ch ∷ []) self.now ≡ false) (λ more. values self.now ≡ ch ∷ values more) }
        ensures counted { IfSome result (λ more. length self.now ≡ length more + 1) }
    {
        match self.items {
            [first, ..] if first.value() == ch as u32 => Some(self.from(1)),
            _ => None,
        }
    }

    /// How the first unit was written; `None` where there is none.
    #[inline(always)]
    pub fn escape_kind(&self) -> EscapeKind
        ensures { result ≡ front_kind self.now }
    {
        match self.items {
            [first, ..] => first.escape_kind(),
            [] => EscapeKind::None,
        }
    }

    /// Where the first n units end, in bytes.
    #[tactic(auto, using(crate::proofs::UnitLists::units_length))]
    #[inline(always)]
    pub fn end_of(&self, count: usize) -> u32
        requires some { 0 < count }
        requires within { count ≤ length self.now }
        ensures { (first : ℕ) → result ≡ offset_at first self.now count }
    {
        let items = self.items;
        let last = count - 1;
        items[last].end(self.place + last)
    }

    /// The units after the first n.
    #[tactic(auto, using(crate::proofs::UnitLists::units_length, crate::proofs::UnitLists::units_drop))]
    #[inline(always)]
    pub fn from(&self, count: usize) -> Ahead<'a, U>
        requires { count ≤ length self.now }
        ensures units { result ≡ drop count self.now }
        ensures values { values result ≡ drop count (values self.now) }
    {
        Ahead {
            items: &self.items[count..],
            place: self.place + count,
        }
    }

    /// The first n units.
    #[tactic(auto, using(crate::proofs::UnitLists::units_length, crate::proofs::UnitLists::units_take))]
    #[inline(always)]
    pub fn front(&self, count: usize) -> Ahead<'a, U>
        requires { count ≤ length self.now }
        ensures units { result ≡ take count self.now }
        ensures values { values result ≡ take count (values self.now) }
    {
        Ahead {
            items: &self.items[..count],
            place: self.place,
        }
    }
}
