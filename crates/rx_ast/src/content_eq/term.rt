ghost use Rattle.std.specs.Prelude.{◌↔◌, ◌≡◌, IsTrue};

use crate::term::{
    Alternative, CapturingGroup, Disjunction, IgnoreGroup, LookAroundAssertion, Pattern,
    Quantifier, Term,
};
use rx_base::ContentEq;

/// They are the same but for spans.
impl ContentEq for Pattern {
    ghost use Rattle.std.specs.Prelude.{◌≡◌};
    ghost use Rattle.rx_base.specs.Equivalence.{same_content};
    ghost use Rattle.rx_ast.specs.Forget.{without_spans};

    ghost same = { λ a b. without_spans a ≡ without_spans b };

    fn content_eq(&self, other: &Pattern) -> bool {
        self.body.content_eq(&other.body)
    }

    ghost laws = { same_content without_spans };
}

impl ContentEq for Disjunction {
    ghost use Rattle.std.specs.Prelude.{◌≡◌};
    ghost use Rattle.rx_base.specs.Equivalence.{same_content};
    ghost use Rattle.rx_ast.specs.declared.term.Disjunction.{Disjunction};
    ghost use Rattle.rx_ast.specs.Forget.{forget_alternatives, same_kind};
    ghost use Rattle.rx_ast.specs.Tree.{mirror_disjunction};

    ghost same = { λ a b. forget_alternatives same_kind (mirror_disjunction a).1 ≡ forget_alternatives same_kind (mirror_disjunction b).1 };

    #[cycle(term)]
    fn content_eq(&self, other: &Disjunction) -> bool {
        if self.body.len() != other.body.len() {
            return false;
        }
        let others = other.body.as_slice();
        for (i, alternative) in self.body.as_slice().iter().enumerate() {
            if !alternative.content_eq(&others[i]) {
                return false;
            }
        }
        true
    }

    ghost laws = { same_content (λ (a : Disjunction). forget_alternatives same_kind (mirror_disjunction a).1) };
}

impl ContentEq for Alternative {
    ghost use Rattle.std.specs.Prelude.{◌≡◌};
    ghost use Rattle.rx_base.specs.Equivalence.{same_content};
    ghost use Rattle.rx_ast.specs.declared.term.Alternative.{Alternative};
    ghost use Rattle.rx_ast.specs.Forget.{forget_nodes, same_kind};
    ghost use Rattle.rx_ast.specs.Tree.{mirror_alternative};

    ghost same = { λ a b. forget_nodes same_kind (mirror_alternative a).1 ≡ forget_nodes same_kind (mirror_alternative b).1 };

    #[cycle(term)]
    fn content_eq(&self, other: &Alternative) -> bool {
        if self.body.len() != other.body.len() {
            return false;
        }
        let others = other.body.as_slice();
        for (i, term) in self.body.as_slice().iter().enumerate() {
            if !term.content_eq(&others[i]) {
                return false;
            }
        }
        true
    }

    ghost laws = { same_content (λ (a : Alternative). forget_nodes same_kind (mirror_alternative a).1) };
}

impl ContentEq for Term {
    ghost use Rattle.std.specs.Prelude.{◌≡◌};
    ghost use Rattle.rx_base.specs.Equivalence.{same_content};
    ghost use Rattle.rx_ast.specs.declared.term.Term.{Term};
    ghost use Rattle.rx_ast.specs.Forget.{forget_node, same_kind};
    ghost use Rattle.rx_ast.specs.Tree.{mirror_term};

    ghost same = { λ a b. forget_node same_kind (mirror_term a) ≡ forget_node same_kind (mirror_term b) };

    #[cycle(term)]
    fn content_eq(&self, other: &Term) -> bool {
        match self {
            Term::BoundaryAssertion(it) => match other {
                Term::BoundaryAssertion(that) => it.content_eq(that),
                _ => false,
            },
            Term::LookAroundAssertion(it) => match other {
                Term::LookAroundAssertion(that) => (**it).content_eq(&**that),
                _ => false,
            },
            Term::Quantifier(it) => match other {
                Term::Quantifier(that) => (**it).content_eq(&**that),
                _ => false,
            },
            Term::Character(it) => match other {
                Term::Character(that) => it.content_eq(that),
                _ => false,
            },
            Term::Dot(it) => match other {
                Term::Dot(that) => it.content_eq(that),
                _ => false,
            },
            Term::CharacterClassEscape(it) => match other {
                Term::CharacterClassEscape(that) => it.content_eq(that),
                _ => false,
            },
            Term::UnicodePropertyEscape(it) => match other {
                Term::UnicodePropertyEscape(that) => it.content_eq(that),
                _ => false,
            },
            Term::CharacterClass(it) => match other {
                Term::CharacterClass(that) => it.content_eq(that),
                _ => false,
            },
            Term::CapturingGroup(it) => match other {
                Term::CapturingGroup(that) => (**it).content_eq(&**that),
                _ => false,
            },
            Term::IgnoreGroup(it) => match other {
                Term::IgnoreGroup(that) => (**it).content_eq(&**that),
                _ => false,
            },
            Term::IndexedReference(it) => match other {
                Term::IndexedReference(that) => it.content_eq(that),
                _ => false,
            },
            Term::NamedReference(it) => match other {
                Term::NamedReference(that) => it.content_eq(that),
                _ => false,
            },
        }
    }

    ghost laws = { same_content (λ (a : Term). forget_node same_kind (mirror_term a)) };
}

impl ContentEq for LookAroundAssertion {
    ghost use Rattle.std.specs.Prelude.{◌≡◌};
    ghost use Rattle.rx_base.specs.Equivalence.{same_content};
    ghost use Rattle.rx_ast.specs.declared.term.LookAroundAssertion.{LookAroundAssertion};
    ghost use Rattle.rx_ast.specs.Forget.{forget_node, same_kind};
    ghost use Rattle.rx_ast.specs.Tree.{mirror_look};

    ghost same = { λ a b. forget_node same_kind (mirror_look a) ≡ forget_node same_kind (mirror_look b) };

    #[cycle(term)]
    fn content_eq(&self, other: &LookAroundAssertion) -> bool {
        self.kind.content_eq(&other.kind) && self.body.content_eq(&other.body)
    }

    ghost laws = { same_content (λ (a : LookAroundAssertion). forget_node same_kind (mirror_look a)) };
}

/// Whether two quantifiers are the same but for what they repeat.
fn have_same_head(some: &Quantifier, other: &Quantifier) -> bool
    ensures { IsTrue result ↔ ((some.now.min ≡ other.now.min) × (some.now.max ≡ other.now.max) × (some.now.greedy ≡ other.now.greedy)) }
{
    some.min == other.min && some.max == other.max && some.greedy == other.greedy
}

impl ContentEq for Quantifier {
    ghost use Rattle.std.specs.Prelude.{◌≡◌};
    ghost use Rattle.rx_base.specs.Equivalence.{same_content};
    ghost use Rattle.rx_ast.specs.declared.term.Quantifier.{Quantifier};
    ghost use Rattle.rx_ast.specs.Forget.{forget_node, same_kind};
    ghost use Rattle.rx_ast.specs.Tree.{mirror_quantifier};

    ghost same = { λ a b. forget_node same_kind (mirror_quantifier a) ≡ forget_node same_kind (mirror_quantifier b) };

    #[cycle(term)]
    fn content_eq(&self, other: &Quantifier) -> bool {
        have_same_head(self, other) && self.body.content_eq(&other.body)
    }

    ghost laws = { same_content (λ (a : Quantifier). forget_node same_kind (mirror_quantifier a)) };
}

impl ContentEq for CapturingGroup {
    ghost use Rattle.std.specs.Prelude.{◌≡◌};
    ghost use Rattle.rx_base.specs.Equivalence.{same_content};
    ghost use Rattle.rx_ast.specs.declared.term.CapturingGroup.{CapturingGroup};
    ghost use Rattle.rx_ast.specs.Forget.{forget_node, same_kind};
    ghost use Rattle.rx_ast.specs.Tree.{mirror_capturing};

    ghost same = { λ a b. forget_node same_kind (mirror_capturing a) ≡ forget_node same_kind (mirror_capturing b) };

    #[cycle(term)]
    fn content_eq(&self, other: &CapturingGroup) -> bool {
        self.name.content_eq(&other.name) && self.body.content_eq(&other.body)
    }

    ghost laws = { same_content (λ (a : CapturingGroup). forget_node same_kind (mirror_capturing a)) };
}

impl ContentEq for IgnoreGroup {
    ghost use Rattle.std.specs.Prelude.{◌≡◌};
    ghost use Rattle.rx_base.specs.Equivalence.{same_content};
    ghost use Rattle.rx_ast.specs.declared.term.IgnoreGroup.{IgnoreGroup};
    ghost use Rattle.rx_ast.specs.Forget.{forget_node, same_kind};
    ghost use Rattle.rx_ast.specs.Tree.{mirror_ignore};

    ghost same = { λ a b. forget_node same_kind (mirror_ignore a) ≡ forget_node same_kind (mirror_ignore b) };

    #[cycle(term)]
    fn content_eq(&self, other: &IgnoreGroup) -> bool {
        self.modifiers.content_eq(&other.modifiers) && self.body.content_eq(&other.body)
    }

    ghost laws = { same_content (λ (a : IgnoreGroup). forget_node same_kind (mirror_ignore a)) };
}
