ghost use Rattle.std.specs.Prelude.{◌≡◌, ◌+◌, ◌-◌, ◌^◌, ◌<◌, ◌∷◌, ℕ, IfSome, false, drop, length, if◌then◌else◌};
ghost use Rattle.rx_base.specs.Rising.{Rises};
ghost use Rattle.rx_units.specs.Units.{values};
ghost use Rattle.rx_ast.specs.declared.leaf.CharacterKind.{CharacterKind};
ghost use Rattle.rx_class.specs.EscapeReading.Found.{class_escape_front, seen_escape};
ghost use Rattle.rx_class.specs.declared.escapes.found.EscapeFound.{EscapeFound};
ghost use Rattle.rx_model.specs.Characters.EscapeFronts.{any_escape_at};
ghost use Rattle.rx_model.specs.Inputs.Environment.{is_unicode};
ghost use Rattle.rx_model.specs.Properties.PropertyForms.{begins_property};
ghost use Rattle.rx_model.specs.Quantifiers.CountsReading.{counts_read, counts_read_at};
ghost use Rattle.rx_model.specs.Reading.FrontReading.{are_out_of_order, are_too_large, backslash_read, ends_here, escape_read, front_read, last_backslash, one_of_escapes, quantifier_read, syntax_read};
ghost use Rattle.rx_model.specs.Reading.Fronts.{is_raw_at};
ghost use Rattle.rx_model.specs.Reading.Rows.{is_legacy_syntax, stands_raw};
ghost use Rattle.rx_scan.specs.Environments.{seen_environment};
ghost use Rattle.rx_parser.specs.Found.{IsCommonLeaf, boundary_front, found_front, found_halt};
ghost use Rattle.rx_parser.specs.Pace.{LooksAtEscape, LooksAtSyntax, MayFind, looks, plain};

use crate::ahead::stands_at;
use crate::counts::{CountsFound, begins_with_counts, counts_at};
use crate::found::{Found, Halt, Leaf};
use crate::group::group_at;
use crate::reference::{indexed_reference, is_reference, named_reference};
use rx_ast::{BoundaryAssertionKind, CharacterClassEscapeKind};
use rx_base::Counter;
use rx_class::{EscapeFound, any_escape_at, class_escape_at, common_escape_at, unit_kind};
use rx_model::Mode;
use rx_scan::Environment;
use rx_tables::is_syntax_character;
use rx_units::{Ahead, Unit};

/// What the units begin with, outside classes (Term of ECMA-262, 22.2.1, and of B.1.2, or `)` or `|`).
// Why: docs/DECISIONS.md, 17.
#[tactic(auto, unfolding(rx_model::specs::Reading::FrontReading::front_read))]
pub fn front_at<U: Unit, C: Counter>(
    units: &Ahead<'_, U>,
    environment: Environment,
    steps: &mut C,
) -> Found
    requires few { environment.groups < 2 ^ 32 - 1 }
    ensures found { result ≡ found_front (front_read (seen_environment environment) units.now) }
    ensures steps { Rises (C.count steps.old) (C.count steps.new) 0 (looks (drop 1 units.now) result) }
{
    let Some((first, following)) = units.split_first() else {
        return Found::Halt(Halt::Stop { following: 0 });
    };
    if first == '\\' as u32 {
        return backslash_at(&following, environment, steps);
    }
    if first == '[' as u32 {
        return Found::Class;
    }
    if is_raw(first, &following, units, environment, steps) {
        return Found::Leaf {
            leaf: Leaf::Character {
                kind: unit_kind(units.escape_kind()),
                value: first,
            },
            length: 1,
        };
    }
    syntax_at(first, &following, units, environment, steps)
}

/// Whether the first unit stands for itself. With neither `u` nor `v` a brace does, where no quantifier begins there.
fn is_raw<U: Unit, C: Counter>(
    first: u32,
    following: &Ahead<'_, U>,
    units: &Ahead<'_, U>,
    environment: Environment,
    steps: &mut C,
) -> bool
    requires { values units.now ≡ first ∷ values following.now }
    ensures raw { result ≡ is_raw_at (seen_environment environment) first (values following.now) }
    ensures steps { Rises (C.count steps.old) (C.count steps.new) 0 (plain (drop 1 units.now) + 1) }
{
    stands_raw(first, environment.mode)
        && (environment.is_unicode() || !begins_with_counts(units, steps))
}

/// Whether a value may stand for itself (PatternCharacter of ECMA-262, 22.2.1, and ExtendedPatternCharacter of B.1.2).
fn stands_raw(value: u32, mode: Mode) -> bool
    ensures { result ≡ stands_raw mode value }
{
    match mode {
        Mode::Legacy => !is_legacy_syntax(value),
        Mode::Unicode | Mode::Sets => !is_syntax_character(value),
    }
}

/// Whether a value stands for itself in no mode.
fn is_legacy_syntax(value: u32) -> bool
    ensures { result ≡ is_legacy_syntax value }
{
    matches!(
        char::from_u32(value),
        Some('^' | '$' | '\\' | '.' | '*' | '+' | '?' | '(' | ')' | '[' | '|')
    )
}

/// The boundary that the unit after a backslash is (Assertion of ECMA-262, 22.2.1; regular expression buffer boundaries).
fn boundary_at<U: Unit>(
    following: &Ahead<'_, U>,
    environment: Environment,
) -> Option<BoundaryAssertionKind>
    ensures { result ≡ boundary_front (seen_environment environment) (values following.now) }
{
    match char::from_u32(following.first()?) {
        Some('b') => Some(BoundaryAssertionKind::Boundary),
        Some('B') => Some(BoundaryAssertionKind::NegativeBoundary),
        Some('A') if environment.has_buffers() => Some(BoundaryAssertionKind::StartBuffer),
        Some('z') if environment.has_buffers() => Some(BoundaryAssertionKind::EndBuffer),
        Some('Z') if environment.has_buffers() => {
            Some(BoundaryAssertionKind::EndBufferOptionalNewline)
        }
        _ => None,
    }
}

/// The leaf that the units begin with, of which the first is a backslash, and how many units it has, where it is a common escape: one that
/// `common_escape_at` finds, a class escape other than of a property, `\b` or `\B`. `None` does not mean that no leaf stands there.
///
/// It counts no step. The caller that takes the leaf counts one for each unit past the second.
#[inline(always)]
pub fn common_leaf_at<U: Unit>(units: &Ahead<'_, U>, unicode_mode: bool) -> Option<(Leaf, usize)>
    ensures { IfSome result (λ it. IsCommonLeaf unicode_mode units.now it.0 it.1) }
{
    // Why: docs/DECISIONS.md, 131.
    let _ = units.len();
    let (_, following) = units.split_first()?;
    if let Some(it) = common_escape_at(&following, unicode_mode) {
        let leaf = Leaf::Character {
            kind: it.kind,
            value: it.value,
        };
        return Some((leaf, it.length + 1));
    }
    let leaf = match char::from_u32(following.first()?) {
        Some('d') => Leaf::ClassEscape(CharacterClassEscapeKind::D),
        Some('D') => Leaf::ClassEscape(CharacterClassEscapeKind::NegativeD),
        Some('s') => Leaf::ClassEscape(CharacterClassEscapeKind::S),
        Some('S') => Leaf::ClassEscape(CharacterClassEscapeKind::NegativeS),
        Some('w') => Leaf::ClassEscape(CharacterClassEscapeKind::W),
        Some('W') => Leaf::ClassEscape(CharacterClassEscapeKind::NegativeW),
        Some('b') => Leaf::Boundary(BoundaryAssertionKind::Boundary),
        Some('B') => Leaf::Boundary(BoundaryAssertionKind::NegativeBoundary),
        _ => return None,
    };
    Some((leaf, 2))
}

/// What a backslash and the units after it begin with (AtomEscape and Assertion of ECMA-262, 22.2.1).
fn backslash_at<U: Unit, C: Counter>(
    following: &Ahead<'_, U>,
    environment: Environment,
    steps: &mut C,
) -> Found
    requires few { environment.groups < 2 ^ 32 - 1 }
    ensures found { result ≡ found_front (backslash_read (seen_environment environment) (values following.now)) }
    ensures steps { Rises (C.count steps.old) (C.count steps.new) 0 (looks following.now result) }
{
    let Some((first, more)) = following.split_first() else {
        return Found::Halt(after_last_backslash(environment.mode));
    };
    if is_reference(following, environment, steps) {
        return indexed_reference(following, environment.groups, steps);
    }
    if first == 'k' as u32 && environment.is_named() {
        return named_reference(&more, environment.is_unicode(), steps);
    }
    if begins_property(first) && environment.is_unicode() {
        return Found::Property;
    }
    escape_at(following, environment, steps)
}

/// Why no token begins with a backslash at the end of the text.
fn after_last_backslash(mode: Mode) -> Halt
    ensures { result ≡ found_halt (if is_unicode mode then ends_here 1 else last_backslash) }
{
    if mode.is_unicode() {
        Halt::Stop { following: 1 }
    } else {
        Halt::LastBackslash
    }
}

/// Whether a property escape begins with this value after its backslash.
fn begins_property(value: u32) -> bool
    ensures { result ≡ begins_property value }
{
    value == 'p' as u32 || value == 'P' as u32
}

/// What a backslash and the units after it, which are neither a reference nor a property, begin with: an assertion, a class escape, or the escape of a
/// character (AtomEscape of ECMA-262, 22.2.1 and B.1.2).
fn escape_at<U: Unit, C: Counter>(
    following: &Ahead<'_, U>,
    environment: Environment,
    steps: &mut C,
) -> Found
    ensures found { result ≡ found_front (one_of_escapes (boundary_front (seen_environment environment) (values following.now)) (class_escape_front (values following.now)) (any_escape_at false (seen_environment environment) (values following.now))) }
    ensures steps { LooksAtEscape (C.count steps.old) (C.count steps.new) following.now result }
{
    if let Some(kind) = boundary_at(following, environment) {
        return Found::Leaf {
            leaf: Leaf::Boundary(kind),
            length: 2,
        };
    }
    if let Some(kind) = class_escape_at(following) {
        return Found::Leaf {
            leaf: Leaf::ClassEscape(kind),
            length: 2,
        };
    }
    // Why: docs/DECISIONS.md, 131.
    let _ = following.len();
    character(any_escape_at(following, false, environment, steps))
}

/// What is found where a backslash stands and after it this escape of a character.
fn character(escape: EscapeFound) -> Found
    requires { (kind : CharacterKind) (value n : ℕ) → escape ≡ EscapeFound.Character kind value n → n + 1 < 2 ^ 64 }
    ensures { result ≡ found_front (escape_read (seen_escape escape)) }
{
    match escape {
        EscapeFound::Character {
            kind,
            value,
            length,
        } => Found::Leaf {
            leaf: Leaf::Character { kind, value },
            length: length + 1,
        },
        EscapeFound::Nothing => Found::Halt(Halt::Stop { following: 1 }),
        EscapeFound::TooMany { digits } => {
            Found::Halt(Halt::TooManyHexDigits { start: 3, digits })
        }
        EscapeFound::Invalid => Found::Halt(Halt::InvalidEscape {
            start: 1,
            length: 1,
        }),
    }
}

/// What the units begin with, whose first is neither a backslash nor `[` nor stands for itself (Atom, Assertion and Quantifier of ECMA-262, 22.2.1).
fn syntax_at<U: Unit, C: Counter>(
    first: u32,
    following: &Ahead<'_, U>,
    units: &Ahead<'_, U>,
    environment: Environment,
    steps: &mut C,
) -> Found
    requires { values units.now ≡ first ∷ values following.now }
    ensures found { result ≡ found_front (syntax_read (seen_environment environment) first (values following.now)) }
    ensures steps { LooksAtSyntax (C.count steps.old) (C.count steps.new) (length following.now) result }
{
    match char::from_u32(first) {
        Some('.') => Found::Leaf {
            leaf: Leaf::Dot,
            length: 1,
        },
        Some('(') => group_at(following, environment.is_unicode(), steps),
        Some(')') => Found::Close,
        Some('|') => Found::Bar,
        Some('^') => Found::Leaf {
            leaf: Leaf::Boundary(BoundaryAssertionKind::Start),
            length: 1,
        },
        Some('$') => Found::Leaf {
            leaf: Leaf::Boundary(BoundaryAssertionKind::End),
            length: 1,
        },
        _ => quantifier_at(units, steps),
    }
}

/// The quantifier that the units begin with (Quantifier of ECMA-262, 22.2.1).
fn quantifier_at<U: Unit, C: Counter>(units: &Ahead<'_, U>, steps: &mut C) -> Found
    ensures found { result ≡ found_front (quantifier_read (counts_read_at (values units.now)) (values units.now)) }
    ensures steps { LooksAtSyntax (C.count steps.old) (C.count steps.new) (length units.now - 1) result }
{
    match counts_at(units, steps) {
        CountsFound::Counts { min, max, length } => quantifier(units, min, max, length),
        CountsFound::Nothing => Found::Halt(Halt::Stop { following: 0 }),
        CountsFound::TooMany { start, digits } => {
            Found::Halt(Halt::TooManyDigits { start, digits })
        }
    }
}

/// The quantifier of these counts, in n units; or why they may not stand in braces.
fn quantifier<U: Unit>(units: &Ahead<'_, U>, min: u64, max: Option<u64>, length: usize) -> Found
    ensures found { result ≡ found_front (quantifier_read (counts_read min max length) (values units.now)) }
    ensures looks { MayFind length units.now result }
{
    if is_out_of_order(min, max) {
        return Found::Halt(Halt::OutOfOrder { length });
    }
    if is_too_large(min, max) {
        return Found::Halt(Halt::TooLarge { length });
    }
    // Why: docs/DECISIONS.md, 131.
    let _ = units.len();
    if stands_at(units, length, '?') {
        return Found::Quantifier {
            min,
            max,
            greedy: false,
            length: length + 1,
        };
    }
    Found::Quantifier {
        min,
        max,
        greedy: true,
        length,
    }
}

fn is_out_of_order(min: u64, max: Option<u64>) -> bool
    ensures { result ≡ are_out_of_order min max }
{
    max.is_some_and(|max| max < min)
}

/// The greatest number of a quantifier in braces.
const GREATEST_COUNT: u64 = (1 << 53) - 1;

fn is_too_large(min: u64, max: Option<u64>) -> bool
    ensures { result ≡ are_too_large min max }
{
    min > GREATEST_COUNT || max.is_some_and(|max| max > GREATEST_COUNT)
}
