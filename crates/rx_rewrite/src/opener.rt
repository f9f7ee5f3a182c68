ghost use Rattle.std.specs.Prelude.{◌≡◌, IfOk};
ghost use Rattle.rx_ast.specs.Tree.{group, mirror_disjunction, mirror_term};
ghost use Rattle.rx_rewrite.specs.RewriterState.{opener_of};

use rx_ast::{
    CapturingGroup, Disjunction, IgnoreGroup, LookAroundAssertion, LookAroundAssertionKind,
    Modifiers, Term,
};
use rx_base::{OutOfMemory, Span, Text};
use std::alloc::Global;

/// What a group or a look-around begins with, when it is rewritten.
#[derive(Drop)]
pub enum Opener {
    Capturing(Option<Text>),
    Ignoring(Option<Modifiers>),
    LookAround(LookAroundAssertionKind),
}

impl Opener {
    /// The term that begins with this.
    #[tactic(auto, using(rx_ast::proofs::Equations::mirrors))]
    pub fn into_term(
        self,
        alloc: Global,
        span: Span,
        body: Disjunction,
    ) -> Result<Term, OutOfMemory>
        ensures { IfOk result (λ it. mirror_term it ≡ group span (opener_of self) (mirror_disjunction body).0 (mirror_disjunction body).1) }
    {
        match self {
            Opener::Capturing(name) => {
                let it = CapturingGroup { span, name, body };
                Ok(Term::CapturingGroup(Box::new(alloc, it)?))
            }
            Opener::Ignoring(modifiers) => {
                let it = IgnoreGroup {
                    span,
                    modifiers,
                    body,
                };
                Ok(Term::IgnoreGroup(Box::new(alloc, it)?))
            }
            Opener::LookAround(kind) => {
                let it = LookAroundAssertion { span, kind, body };
                Ok(Term::LookAroundAssertion(Box::new(alloc, it)?))
            }
        }
    }
}

/// An equal text, if there is one.
pub fn copy_text(alloc: Global, text: &Option<Text>) -> Result<Option<Text>, OutOfMemory>
    ensures { IfOk result (λ it. it ≡ text.now) }
{
    match text {
        None => Ok(None),
        Some(text) => Ok(Some(text.clone(alloc)?)),
    }
}
