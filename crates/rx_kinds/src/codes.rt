//! Numbers of kinds. Each kind has a number of its own, from 1 on, whatever it is a kind of.
ghost use Rattle.std.specs.Prelude.{◌≡◌};
ghost use Rattle.rx_kinds.specs.Codes.{boundary_code as boundary, character_code as spelled, class_escape_code as escape, contents_code as contents, look_code as look};

use rx_ast::{
    BoundaryAssertionKind, CharacterClassContentsKind, CharacterClassEscapeKind, CharacterKind,
    LookAroundAssertionKind,
};

pub fn boundary_code(kind: BoundaryAssertionKind) -> u8
    ensures { result ≡ boundary kind }
{
    match kind {
        BoundaryAssertionKind::Start => 1,
        BoundaryAssertionKind::End => 2,
        BoundaryAssertionKind::Boundary => 3,
        BoundaryAssertionKind::NegativeBoundary => 4,
        BoundaryAssertionKind::StartBuffer => 5,
        BoundaryAssertionKind::EndBuffer => 6,
        BoundaryAssertionKind::EndBufferOptionalNewline => 7,
    }
}

pub fn look_code(kind: LookAroundAssertionKind) -> u8
    ensures { result ≡ look kind }
{
    match kind {
        LookAroundAssertionKind::Lookahead => 8,
        LookAroundAssertionKind::NegativeLookahead => 9,
        LookAroundAssertionKind::Lookbehind => 10,
        LookAroundAssertionKind::NegativeLookbehind => 11,
    }
}

pub fn character_code(kind: CharacterKind) -> u8
    ensures { result ≡ spelled kind }
{
    match kind {
        CharacterKind::ControlLetter => 12,
        CharacterKind::HexadecimalEscape => 13,
        CharacterKind::Identifier => 14,
        CharacterKind::Null => 15,
        CharacterKind::Octal1 => 16,
        CharacterKind::Octal2 => 17,
        CharacterKind::Octal3 => 18,
        CharacterKind::SingleEscape => 19,
        CharacterKind::Symbol => 20,
        CharacterKind::UnicodeEscape => 21,
    }
}

pub fn class_escape_code(kind: CharacterClassEscapeKind) -> u8
    ensures { result ≡ escape kind }
{
    match kind {
        CharacterClassEscapeKind::D => 22,
        CharacterClassEscapeKind::NegativeD => 23,
        CharacterClassEscapeKind::S => 24,
        CharacterClassEscapeKind::NegativeS => 25,
        CharacterClassEscapeKind::W => 26,
        CharacterClassEscapeKind::NegativeW => 27,
    }
}

pub fn contents_code(kind: CharacterClassContentsKind) -> u8
    ensures { result ≡ contents kind }
{
    match kind {
        CharacterClassContentsKind::Union => 28,
        CharacterClassContentsKind::Intersection => 29,
        CharacterClassContentsKind::Subtraction => 30,
    }
}
