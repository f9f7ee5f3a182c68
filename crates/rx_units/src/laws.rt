//! Laws of lists of elements and of quoted texts, for contracts alone. The functions do nothing: each contract is a law.

ghost use Rattle.std.specs.Prelude.{◌≡◌, ◌⊎◌, ◌↔◌, ℕ, ◌+◌, List, [], ◌∷◌, All};
ghost use Rattle.rx_units.specs.declared.code_point.CodePoint.{CodePoint};
ghost use Rattle.rx_units.specs.declared.quoted_text.element.Element.{Element};
ghost use Rattle.rx_units.specs.declared.quoted_text.literal.Literal.{Literal};
ghost use Rattle.rx_units.specs.declared.quoted_text.literal.Literal.TheVariants as literal;
ghost use Rattle.rx_units.specs.declared.options.Options.{Options};
ghost use Rattle.rx_units.specs.declared.string_literal_parser.StringFault.{StringFault};
ghost use Rattle.rx_units.specs.declared.string_literal_parser.StringLiteralKind.{StringLiteralKind};
ghost use Rattle.rx_units.specs.declared.template_literal_parser.TemplateFault.{TemplateFault};
ghost use Rattle.rx_units.specs.Quoted.Elements.{quote_of};
ghost use Rattle.rx_units.specs.Quoted.Faults.{IsStringFault, IsTemplateFault};
ghost use Rattle.rx_units.specs.Quoted.Texts.{IsAllowed, IsDecoded, after_elements, place_after_opening};
ghost use Rattle.rx_units.specs.Quoted.Values.{text_units};
ghost use Rattle.rx_units.specs.Sequences.{ElementRow, ElementsGoOn};

use crate::sequence::{ElementKind, QuotedElements};

/// Of one text at most one list of elements of a kind ends before a stop, and it is the longest: each list that the text begins with is a front part of it. Of two
/// lists that one text begins with one is a front part of the other, whatever they leave; they are one where they leave the same.
pub fn sequence<S: ElementKind>()
    ensures one { (e : S.Surroundings) (ts ss : List S.Element) (q : S.Place) (us : List S.TextUnit) (r : S.Place) (a : List S.TextUnit) (p : S.Place) (b : List S.TextUnit) →
        ElementRow (S.spells e) (S.following e) ts q us r a → S.is_stop e r a → ElementRow (S.spells e) (S.following e) ss q us p b → S.is_stop e p b → (ts ≡ ss) × (r ≡ p) × (a ≡ b) }
    ensures longest { (e : S.Surroundings) (ts ss : List S.Element) (q : S.Place) (us : List S.TextUnit) (r : S.Place) (a : List S.TextUnit) (p : S.Place) (b : List S.TextUnit) →
        ElementRow (S.spells e) (S.following e) ts q us r a → S.is_stop e r a → ElementRow (S.spells e) (S.following e) ss q us p b → ElementsGoOn (S.spells e) (S.following e) ss p b ts r a }
    ensures prefixes { (e : S.Surroundings) (ts ss : List S.Element) (q : S.Place) (us : List S.TextUnit) (r : S.Place) (a : List S.TextUnit) (p : S.Place) (b : List S.TextUnit) →
        ElementRow (S.spells e) (S.following e) ts q us r a → ElementRow (S.spells e) (S.following e) ss q us p b →
        ElementsGoOn (S.spells e) (S.following e) ts r a ss p b ⊎ ElementsGoOn (S.spells e) (S.following e) ss p b ts r a }
    ensures one_between { (e : S.Surroundings) (ts ss : List S.Element) (q : S.Place) (us : List S.TextUnit) (r p : S.Place) (rest : List S.TextUnit) →
        ElementRow (S.spells e) (S.following e) ts q us r rest → ElementRow (S.spells e) (S.following e) ss q us p rest → (ts ≡ ss) × (r ≡ p) }
{
    S::some_units();
    S::one_front();
    S::none_at_stop();
}

/// A text is decoded to some units exactly where it is the opening quote, a list of elements that ends before the closing quote, and that quote at the end; where
/// each element is allowed; and where the units are those that the elements give.
pub fn elements()
    ensures decoded { (l : Literal) (o : Options) (text : List ℕ) (us : List CodePoint) →
        IsDecoded l o text us ↔ ((inner : List ℕ) × (es : List Element) × (row : ElementRow (⟦<QuotedElements as ElementKind>⟧.spells l) (⟦<QuotedElements as ElementKind>⟧.following l) es tt inner tt (quote_of l ∷ [])) ×
        ⟦<QuotedElements as ElementKind>⟧.is_stop l tt (quote_of l ∷ []) × (text ≡ quote_of l ∷ inner) × All (IsAllowed o) es × (us ≡ text_units o (after_elements l o (place_after_opening o inner) es (quote_of l ∷ []) row).units)) }
{}

/// A text is decoded in one way.
pub fn one_decoding()
    ensures { (l : Literal) (o : Options) (text : List ℕ) (us vs : List CodePoint) → IsDecoded l o text us → IsDecoded l o text vs → us ≡ vs }
{}

/// At most one fault stands in a string.
pub fn one_string_fault()
    ensures { (o : Options) (text : List ℕ) (f g : StringFault) → IsStringFault o text f → IsStringFault o text g → f ≡ g }
{}

/// No string that is decoded has a fault.
pub fn no_string_fault()
    ensures { (k : StringLiteralKind) (o : Options) (text : List ℕ) (us : List CodePoint) (f : StringFault) → IsDecoded (literal.String k) o text us → IsStringFault o text f → ⊥ }
{}

/// At most one fault stands in a template.
pub fn one_template_fault()
    ensures { (o : Options) (text : List ℕ) (f g : TemplateFault) → IsTemplateFault o text f → IsTemplateFault o text g → f ≡ g }
{}

/// No template that is decoded has a fault.
pub fn no_template_fault()
    ensures { (o : Options) (text : List ℕ) (us : List CodePoint) (f : TemplateFault) → IsDecoded literal.Template o text us → IsTemplateFault o text f → ⊥ }
{}
