ghost use Rattle.std.specs.Prelude.{◌≡◌, [], ◌∷◌, MatchOption};
ghost use Rattle.rx_ast.specs.ClassTree.{mirror_contents};
ghost use Rattle.rx_ast.specs.Kinds.{children, in_contents, in_term};
ghost use Rattle.rx_ast.specs.MirrorKinds.{mirror_kind};
ghost use Rattle.rx_ast.specs.Tree.{mirror_term};
ghost use Rattle.rx_visit.specs.Siblings.{in_order};

use rx_ast::{
    Alternative, Character, CharacterClassContents, CharacterClassRange, ClassString,
    RegExpAstKind, Term,
};

/// Nodes that stand one after the other in a node: all of them, or the last of them.
#[derive(Clone, Copy)]
pub enum Siblings<'a> {
    Nothing,
    Node(RegExpAstKind<'a>),
    Alternatives(&'a [Alternative]),
    Terms(&'a [Term]),
    Contents(&'a [CharacterClassContents]),
    Ends(&'a CharacterClassRange),
    Strings(&'a [ClassString]),
    Characters(&'a [Character]),
}

/// The nodes directly in a node.
pub fn children_of<'a>(node: RegExpAstKind<'a>) -> Siblings<'a>
    ensures { in_order result ≡ children (mirror_kind node.entry) }
{
    match node {
        RegExpAstKind::Pattern(it) => Siblings::Node(RegExpAstKind::Disjunction(&it.body)),
        RegExpAstKind::Disjunction(it) => Siblings::Alternatives(it.body.as_slice()),
        RegExpAstKind::Alternative(it) => Siblings::Terms(it.body.as_slice()),
        RegExpAstKind::Term(it) => Siblings::Node(node_of_term(it)),
        RegExpAstKind::LookAroundAssertion(it) => {
            Siblings::Node(RegExpAstKind::Disjunction(&it.body))
        }
        RegExpAstKind::Quantifier(it) => Siblings::Node(RegExpAstKind::Term(&it.body)),
        RegExpAstKind::CapturingGroup(it) => Siblings::Node(RegExpAstKind::Disjunction(&it.body)),
        RegExpAstKind::IgnoreGroup(it) => Siblings::Node(RegExpAstKind::Disjunction(&it.body)),
        RegExpAstKind::BoundaryAssertion(_) => Siblings::Nothing,
        RegExpAstKind::Character(_) => Siblings::Nothing,
        RegExpAstKind::Dot(_) => Siblings::Nothing,
        RegExpAstKind::CharacterClassEscape(_) => Siblings::Nothing,
        RegExpAstKind::UnicodePropertyEscape(_) => Siblings::Nothing,
        RegExpAstKind::CharacterClass(it) => Siblings::Contents(it.body.as_slice()),
        RegExpAstKind::CharacterClassContents(it) => Siblings::Node(node_of_contents(it)),
        RegExpAstKind::CharacterClassRange(it) => Siblings::Ends(it),
        RegExpAstKind::CharacterClassStringDisjunction(it) => {
            Siblings::Strings(it.body.as_slice())
        }
        RegExpAstKind::CharacterClassString(it) => Siblings::Characters(it.body.as_slice()),
        RegExpAstKind::IndexedReference(_) => Siblings::Nothing,
        RegExpAstKind::NamedReference(_) => Siblings::Nothing,
    }
}

/// The node that a term is.
#[tactic(auto, using(rx_ast::proofs::Equations::mirrors))]
fn node_of_term(term: &Term) -> RegExpAstKind<'_>
    ensures { mirror_kind result ≡ in_term (mirror_term term.now) }
{
    match term {
        Term::BoundaryAssertion(it) => RegExpAstKind::BoundaryAssertion(it),
        Term::LookAroundAssertion(it) => RegExpAstKind::LookAroundAssertion(it),
        Term::Quantifier(it) => RegExpAstKind::Quantifier(it),
        Term::Character(it) => RegExpAstKind::Character(it),
        Term::Dot(it) => RegExpAstKind::Dot(it),
        Term::CharacterClassEscape(it) => RegExpAstKind::CharacterClassEscape(it),
        Term::UnicodePropertyEscape(it) => RegExpAstKind::UnicodePropertyEscape(it),
        Term::CharacterClass(it) => RegExpAstKind::CharacterClass(it),
        Term::CapturingGroup(it) => RegExpAstKind::CapturingGroup(it),
        Term::IgnoreGroup(it) => RegExpAstKind::IgnoreGroup(it),
        Term::IndexedReference(it) => RegExpAstKind::IndexedReference(it),
        Term::NamedReference(it) => RegExpAstKind::NamedReference(it),
    }
}

/// The node that the contents of a class are.
#[tactic(auto, using(rx_ast::proofs::ClassEquations::class_mirrors))]
fn node_of_contents(contents: &CharacterClassContents) -> RegExpAstKind<'_>
    ensures { mirror_kind result ≡ in_contents (mirror_contents contents.now) }
{
    match contents {
        CharacterClassContents::CharacterClassRange(it) => RegExpAstKind::CharacterClassRange(it),
        CharacterClassContents::CharacterClassEscape(it) => {
            RegExpAstKind::CharacterClassEscape(it)
        }
        CharacterClassContents::UnicodePropertyEscape(it) => {
            RegExpAstKind::UnicodePropertyEscape(it)
        }
        CharacterClassContents::Character(it) => RegExpAstKind::Character(it),
        CharacterClassContents::NestedCharacterClass(it) => RegExpAstKind::CharacterClass(it),
        CharacterClassContents::ClassStringDisjunction(it) => {
            RegExpAstKind::CharacterClassStringDisjunction(it)
        }
    }
}

impl<'a> Siblings<'a> {
    /// The first node and those after it, or none where there is no node.
    pub fn split_first(self) -> Option<(RegExpAstKind<'a>, Siblings<'a>)>
        ensures { MatchOption result (in_order self.entry ≡ []) (λ cut. in_order self.entry ≡ mirror_kind cut.0 ∷ in_order cut.1) }
    {
        match self {
            Siblings::Node(node) => Some((node, Siblings::Nothing)),
            Siblings::Alternatives([first, rest @ ..]) => Some((
                RegExpAstKind::Alternative(first),
                Siblings::Alternatives(rest),
            )),
            Siblings::Terms([first, rest @ ..]) => {
                Some((RegExpAstKind::Term(first), Siblings::Terms(rest)))
            }
            Siblings::Contents([first, rest @ ..]) => Some((
                RegExpAstKind::CharacterClassContents(first),
                Siblings::Contents(rest),
            )),
            Siblings::Ends(range) => {
                let max = RegExpAstKind::Character(&range.max);
                Some((RegExpAstKind::Character(&range.min), Siblings::Node(max)))
            }
            Siblings::Strings([first, rest @ ..]) => Some((
                RegExpAstKind::CharacterClassString(first),
                Siblings::Strings(rest),
            )),
            Siblings::Characters([first, rest @ ..]) => {
                Some((RegExpAstKind::Character(first), Siblings::Characters(rest)))
            }
            _ => None,
        }
    }
}
