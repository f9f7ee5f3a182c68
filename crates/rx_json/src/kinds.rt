//! What the variants of kinds are called in trees.
ghost use Rattle.std.specs.Prelude.{◌≡◌};
ghost use Rattle.rx_json.specs.Nodes.{boundary_kind as boundary, character_kind as spelled, class_escape_kind as escape, contents_kind as contents, look_kind as look};

use rx_ast::{
    BoundaryAssertionKind, CharacterClassContentsKind, CharacterClassEscapeKind, CharacterKind,
    LookAroundAssertionKind,
};

pub fn boundary_kind(kind: BoundaryAssertionKind) -> &'static str
    ensures { result.now ≡ boundary kind }
{
    match kind {
        BoundaryAssertionKind::Start => "start",
        BoundaryAssertionKind::End => "end",
        BoundaryAssertionKind::Boundary => "boundary",
        BoundaryAssertionKind::NegativeBoundary => "negativeBoundary",
        BoundaryAssertionKind::StartBuffer => "startBuffer",
        BoundaryAssertionKind::EndBuffer => "endBuffer",
        BoundaryAssertionKind::EndBufferOptionalNewline => "endBufferOptionalNewline",
    }
}

pub fn look_kind(kind: LookAroundAssertionKind) -> &'static str
    ensures { result.now ≡ look kind }
{
    match kind {
        LookAroundAssertionKind::Lookahead => "lookahead",
        LookAroundAssertionKind::NegativeLookahead => "negativeLookahead",
        LookAroundAssertionKind::Lookbehind => "lookbehind",
        LookAroundAssertionKind::NegativeLookbehind => "negativeLookbehind",
    }
}

pub fn character_kind(kind: CharacterKind) -> &'static str
    ensures { result.now ≡ spelled kind }
{
    match kind {
        CharacterKind::ControlLetter => "controlLetter",
        CharacterKind::HexadecimalEscape => "hexadecimalEscape",
        CharacterKind::Identifier => "identifier",
        CharacterKind::Null => "null",
        CharacterKind::Octal1 => "octal1",
        CharacterKind::Octal2 => "octal2",
        CharacterKind::Octal3 => "octal3",
        CharacterKind::SingleEscape => "singleEscape",
        CharacterKind::Symbol => "symbol",
        CharacterKind::UnicodeEscape => "unicodeEscape",
    }
}

pub fn class_escape_kind(kind: CharacterClassEscapeKind) -> &'static str
    ensures { result.now ≡ escape kind }
{
    match kind {
        CharacterClassEscapeKind::D => "d",
        CharacterClassEscapeKind::NegativeD => "negativeD",
        CharacterClassEscapeKind::S => "s",
        CharacterClassEscapeKind::NegativeS => "negativeS",
        CharacterClassEscapeKind::W => "w",
        CharacterClassEscapeKind::NegativeW => "negativeW",
    }
}

pub fn contents_kind(kind: CharacterClassContentsKind) -> &'static str
    ensures { result.now ≡ contents kind }
{
    match kind {
        CharacterClassContentsKind::Union => "union",
        CharacterClassContentsKind::Intersection => "intersection",
        CharacterClassContentsKind::Subtraction => "subtraction",
    }
}
