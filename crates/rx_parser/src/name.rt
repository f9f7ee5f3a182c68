ghost use Rattle.std.specs.Prelude.{◌≡◌, IsTrue, true, false, ℕ, ◌+◌, ◌^◌, ◌<◌, ◌≤◌, List, length};
ghost use Rattle.rx_base.specs.Ascii as ascii;
ghost use Rattle.rx_base.specs.Rising.{Rises};
ghost use Rattle.rx_units.specs.Units.{values};
ghost use Rattle.rx_model.specs.Characters.Decoding.{decoding_of};
ghost use Rattle.rx_model.specs.FirstPass.Marks.{starts};
ghost use Rattle.rx_model.specs.Groups.NameFronts.{begins_pair, escape_halt, name_read_at, read_after_name};
ghost use Rattle.rx_parser.specs.HaltPlaces.{halt_end};
ghost use Rattle.rx_parser.specs.Names.{found_name, found_name_halt, name_end};
ghost use Rattle.rx_parser.specs.Pace.{halt_looks, name_looks};
ghost use Rattle.rx_parser.specs.declared.name.NameFound.{NameFound};

use crate::found::Halt;
use rx_base::{Counter, is_lead_surrogate, is_trail_surrogate};
use rx_scan::{UnicodeEscape, decode_counted, group_name_length_counted};
use rx_units::{Ahead, Unit};

/// What stands after `(?<` or `\k<`.
#[derive(Clone, Copy)]
pub enum NameFound {
    /// A name of n units, and `>`.
    Name { length: usize },
    /// Neither. The places of the halt count the three units before the name.
    Halt(Halt),
}

/// The name after `(?<` or `\k<` (GroupName of ECMA-262, 22.2.1), or why there is none.
pub fn name_at<U: Unit, C: Counter>(
    units: &Ahead<'_, U>,
    unicode_mode: bool,
    steps: &mut C,
) -> NameFound
    ensures read { result ≡ found_name (name_read_at unicode_mode (values units.now)) }
    ensures within { name_end result ≤ length units.now + 3 }
    ensures steps { Rises (C.count steps.old) (C.count steps.new) 0 (name_looks (length units.now) result) }
{
    // Why: docs/DECISIONS.md, 131.
    let _ = units.len();
    let length = group_name_length_counted(units, unicode_mode, steps);
    after_name(length, &units.from(length), unicode_mode, steps)
}

/// What stands after n units of a name.
fn after_name<U: Unit, C: Counter>(
    count: usize,
    units: &Ahead<'_, U>,
    unicode_mode: bool,
    steps: &mut C,
) -> NameFound
    requires { count + 6 + length units.now < 2 ^ 64 }
    ensures read { (name : List ℕ) → result ≡ found_name (read_after_name unicode_mode name count (values units.now)) }
    ensures within { name_end result ≤ count + length units.now + 3 }
    ensures ends { (n : ℕ) → result ≡ NameFound.Name n → (n ≡ count) × (starts ascii.backslash (values units.now) ≡ false) }
    ensures steps { Rises (C.count steps.old) (C.count steps.new) 0 (halt_looks (length units.now) result) }
{
    match units.split_first() {
        Some((end, _)) if count > 0 && end == '>' as u32 => NameFound::Name { length: count },
        Some((backslash, following)) if backslash == '\\' as u32 => {
            NameFound::Halt(escape_in_name(count, &following, unicode_mode, steps))
        }
        _ if !unicode_mode && begins_with_pair(units) => {
            NameFound::Halt(Halt::MisplacedPair { start: count + 3 })
        }
        _ => NameFound::Halt(Halt::UnterminatedName { length: count }),
    }
}

/// Whether a raw lead surrogate and a raw trail surrogate stand first.
fn begins_with_pair<U: Unit>(units: &Ahead<'_, U>) -> bool
    ensures pair { result ≡ begins_pair (values units.now) }
    ensures within { IsTrue result → 2 ≤ length units.now }
{
    match units.items() {
        [lead, trail, ..] => is_lead_surrogate(lead.value()) && is_trail_surrogate(trail.value()),
        _ => false,
    }
}

/// Why what stands after n units of a name and a backslash is none of the name's characters (RegExpUnicodeEscapeSequence of ECMA-262, 22.2.1).
fn escape_in_name<U: Unit, C: Counter>(
    count: usize,
    following: &Ahead<'_, U>,
    unicode_mode: bool,
    steps: &mut C,
) -> Halt
    requires { count + 6 + length following.now < 2 ^ 64 }
    ensures read { result ≡ found_name_halt (escape_halt unicode_mode count (values following.now) (decoding_of true (values following.now))) }
    ensures within { halt_end result ≤ count + 4 + length following.now }
    ensures steps { Rises (C.count steps.old) (C.count steps.new) 0 (length following.now + 4) }
{
    match decode_counted(following, true, steps) {
        UnicodeEscape::Value { length: escape, .. } => Halt::InvalidEscape {
            start: count + 3,
            length: escape + 1,
        },
        UnicodeEscape::Overflow { digits } => Halt::TooManyHexDigits {
            start: count + 6,
            digits,
        },
        UnicodeEscape::Invalid if unicode_mode && begins_with_u(following) => Halt::InvalidEscape {
            start: count + 4,
            length: 1,
        },
        UnicodeEscape::Invalid => Halt::InvalidEscape {
            start: count + 3,
            length: 1,
        },
    }
}

fn begins_with_u<U: Unit>(units: &Ahead<'_, U>) -> bool
    ensures { result ≡ starts ascii.u (values units.now) }
{
    units.first() == Some('u' as u32)
}
