//! Kinds of elements that stand one after another in a text, for contracts alone. Their law is `laws::sequence`.

ghost use Rattle.std.specs.Prelude.{◌≡◌, List, [], ◌++◌};

/// A kind of elements: what they are, what each spells, and where a list of them ends. The functions do nothing: each contract is a law.
// Why: docs/DECISIONS.md, 93.
pub trait ElementKind {
    /// The elements.
    ghost Element: { Type 0 };

    /// The units of a text.
    ghost TextUnit: { Type 0 };

    /// What surrounds the elements of one text.
    ghost Surroundings: { Type 0 };

    /// Where an element may stand, as far as the elements before it tell.
    ghost Place: { Type 0 };

    /// At a place the units w spell the element before all that follows them, rest: `spells e q t w rest`.
    ghost spells: { Surroundings → Place → Element → List TextUnit → List TextUnit → Type 0 };

    /// The place after an element, before what follows it.
    ghost following: { Surroundings → Place → Element → List TextUnit → Place };

    /// A list of elements ends at this place, before these units.
    ghost is_stop: { Surroundings → Place → List TextUnit → Type 0 };

    /// No element is spelled by no units.
    fn some_units()
        ensures { (e : Surroundings) (q : Place) (t : Element) (rest : List TextUnit) → spells e q t [] rest → ⊥ };

    /// Two elements that one text begins with at one place are one, and leave the same rest.
    fn one_front()
        ensures { (e : Surroundings) (q : Place) (t s : Element) (w more v rest : List TextUnit) → w ++ more ≡ v ++ rest → spells e q t w more → spells e q s v rest → (t ≡ s) × (more ≡ rest) };

    /// No element begins where the stop holds.
    fn none_at_stop()
        ensures { (e : Surroundings) (q : Place) (us : List TextUnit) → is_stop e q us → (t : Element) (w rest : List TextUnit) → us ≡ w ++ rest → spells e q t w rest → ⊥ };
}

/// The elements of a quoted text. A list of them ends before the closing quote.
pub struct QuotedElements;

impl ElementKind for QuotedElements {
    ghost use Rattle.std.specs.Prelude.{ℕ, ◌∷◌};
    ghost use Rattle.rx_units.specs.declared.quoted_text.element.Element.{Element};
    ghost use Rattle.rx_units.specs.declared.quoted_text.literal.Literal.{Literal};
    ghost use Rattle.rx_units.specs.Quoted.Elements.{SpellsElement, quote_of};

    ghost Element = { Element };

    ghost TextUnit = { ℕ };

    ghost Surroundings = { Literal };

    ghost Place = { Unit {0} };

    ghost spells = { λ l q. SpellsElement l };

    ghost following = { λ l q e rest. tt };

    ghost is_stop = { λ l q us. (more : List ℕ) × (us ≡ quote_of l ∷ more) };

    fn some_units() {}

    fn one_front() {}

    fn none_at_stop() {}
}
