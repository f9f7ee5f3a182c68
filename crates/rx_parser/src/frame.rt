ghost use Rattle.std.specs.Prelude.{◌≡◌, IfOk};
ghost use Rattle.rx_ast.specs.Tree.{group, mirror_disjunction, mirror_term};
ghost use Rattle.rx_model.specs.Refusals.Causes.{unterminated};
ghost use Rattle.rx_model.specs.Trees.Token.{opener_of};
ghost use Rattle.rx_parser.specs.Frames.{opener_tree};

use crate::Level;
use rx_ast::{
    CapturingGroup, Disjunction, IgnoreGroup, LookAroundAssertion, LookAroundAssertionKind,
    Modifiers, Term,
};
use rx_base::{OutOfMemory, Span, Text, Unterminated};
use std::alloc::Global;

/// What an open group or look-around began with (Atom and Assertion of ECMA-262, 22.2.1).
#[derive(Drop)]
pub enum GroupKind {
    /// `(`, or `(?<`, a name and `>`.
    Capturing(Option<Text>),

    /// `(?:`, or `(?`, modifiers and `:`.
    Ignoring(Option<Modifiers>),

    /// `(?=`, `(?!`, `(?<=` or `(?<!`.
    LookAround(LookAroundAssertionKind),
}

impl GroupKind {
    /// What is said where it does not end.
    pub fn unterminated(&self) -> Unterminated
        ensures { result ≡ unterminated (opener_of (opener_tree self.now)) }
    {
        match self {
            GroupKind::Capturing(_) => Unterminated::CapturingGroup,
            GroupKind::Ignoring(_) => Unterminated::IgnoreGroup,
            GroupKind::LookAround(_) => Unterminated::LookAround,
        }
    }

    /// The term that began with this and has ended.
    #[tactic(auto, using(rx_ast::proofs::Equations::mirrors))]
    pub fn into_term(
        self,
        alloc: Global,
        span: Span,
        body: Disjunction,
    ) -> Result<Term, OutOfMemory>
        ensures { IfOk result (λ it. mirror_term it ≡ group span (opener_tree self) (mirror_disjunction body).0 (mirror_disjunction body).1) }
    {
        match self {
            GroupKind::Capturing(name) => {
                let it = CapturingGroup { span, name, body };
                Ok(Term::CapturingGroup(Box::new(alloc, it)?))
            }
            GroupKind::Ignoring(modifiers) => {
                let it = IgnoreGroup {
                    span,
                    modifiers,
                    body,
                };
                Ok(Term::IgnoreGroup(Box::new(alloc, it)?))
            }
            GroupKind::LookAround(kind) => {
                let it = LookAroundAssertion { span, kind, body };
                Ok(Term::LookAroundAssertion(Box::new(alloc, it)?))
            }
        }
    }
}

/// An open group or look-around: what it stands in, and where and how it opens. Offsets are in bytes.
// Why: docs/DECISIONS.md, 21.
#[derive(Drop)]
pub struct Frame {
    pub outer: Level,
    pub start: u32,
    pub group_kind: GroupKind,
}
