ghost use Rattle.std.specs.Prelude.{◌≡◌};
ghost use Rattle.rx_ast.specs.MirrorKinds.{mirror_kind};
ghost use Rattle.rx_visit.specs.Patterns.{looks_behind};
ghost use Rattle.rx_linter_example.specs.Notes.{note_of};

use rx_ast::{LookAroundAssertionKind, RegExpAstKind};
use rx_base::Span;

/// What is told of.
#[derive(Clone, Copy, Debug, PartialEq, Eq)]
pub enum Noted {
    /// `(?<=..)` or `(?<!..)`
    Lookbehind,

    /// `(?<name>..)`
    NamedGroup,
}

/// A node that is told of, and its span in bytes of the text.
#[derive(Clone, Copy, Debug, PartialEq, Eq)]
pub struct Note {
    pub noted: Noted,
    pub span: Span,
}

/// What is told of a node, if anything.
pub fn note_of(node: RegExpAstKind<'_>) -> Option<Note>
    ensures { result ≡ note_of (mirror_kind node.entry) }
{
    match node {
        RegExpAstKind::LookAroundAssertion(it) if looks_behind(it.kind) => Some(Note {
            noted: Noted::Lookbehind,
            span: it.span,
        }),
        RegExpAstKind::CapturingGroup(it) if it.name.is_some() => Some(Note {
            noted: Noted::NamedGroup,
            span: it.span,
        }),
        _ => None,
    }
}

fn looks_behind(kind: LookAroundAssertionKind) -> bool
    ensures { result ≡ looks_behind kind }
{
    matches!(
        kind,
        LookAroundAssertionKind::Lookbehind | LookAroundAssertionKind::NegativeLookbehind
    )
}
