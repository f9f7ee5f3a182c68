ghost use Rattle.std.specs.Prelude.{◌≡◌, ◌+◌, ◌*◌, ◌-◌, ◌^◌, ◌<◌, ◌≤◌, IsTrue, length, min, nat_le};
ghost use Rattle.rx_base.specs.Rising.{Rises};
ghost use Rattle.rx_units.specs.Units.{values};
ghost use Rattle.rx_model.specs.Groups.NameFronts.{name_read_at};
ghost use Rattle.rx_model.specs.Reading.FrontReading.{indexed_read, reference_read, with_name};
ghost use Rattle.rx_model.specs.Characters.LegacyEscapes.{begins_run, run_number};
ghost use Rattle.rx_model.specs.Reading.Fronts.{digits_after, is_reference};
ghost use Rattle.rx_model.specs.Trees.Token.{named};
ghost use Rattle.rx_scan.specs.Environments.{seen_environment};
ghost use Rattle.rx_parser.specs.Found.{found_front};
ghost use Rattle.rx_parser.specs.Pace.{LooksAtSyntax, digit_run};

use crate::ahead::number_at;
use crate::found::{Found, Halt, Leaf};
use crate::name::{NameFound, name_at};
use rx_base::Counter;
use rx_scan::Environment;
use rx_tables::is_decimal_digit;
use rx_units::{Ahead, Unit};

/// Whether a reference by number stands after a backslash (DecimalEscape of ECMA-262, 22.2.1): with neither `u` nor `v` one whose number is at most that
/// of the groups (B.1.2).
pub fn is_reference<U: Unit, C: Counter>(
    following: &Ahead<'_, U>,
    environment: Environment,
    steps: &mut C,
) -> bool
    requires few { environment.groups < 2 ^ 32 - 1 }
    ensures reference { result ≡ is_reference (seen_environment environment) (values following.now) }
    ensures steps { Rises (C.count steps.old) (C.count steps.new) 0 (min (2 * digit_run following.now) (digit_run following.now + 1)) }
{
    begins_with_first_digit(following)
        && (environment.is_unicode() || is_at_most(following, environment.groups, steps))
}

/// Whether a digit from 1 to 9 stands first.
#[tactic(auto, using(crate::proofs::Paces::run_begins))]
fn begins_with_first_digit<U: Unit>(units: &Ahead<'_, U>) -> bool
    ensures run { result ≡ begins_run (values units.now) }
    ensures some { IsTrue result → 1 ≤ digit_run units.now }
{
    units
        .first()
        .is_some_and(|unit| is_decimal_digit(unit) && unit != '0' as u32)
}

/// Whether the number of the digits that the units begin with is at most that of the groups.
#[tactic(auto, using(crate::proofs::NumberFound::least_number, crate::proofs::NumberFound::number_run))]
fn is_at_most<U: Unit, C: Counter>(units: &Ahead<'_, U>, groups: u32, steps: &mut C) -> bool
    requires few { groups < 2 ^ 32 - 1 }
    ensures most { result ≡ nat_le (run_number 0 (values units.now)) groups }
    ensures steps { Rises (C.count steps.old) (C.count steps.new) 0 (digit_run units.now + 1) }
{
    let (number, _) = number_at(units, steps);
    number <= groups
}

/// The reference after a backslash, whose number begins with a digit that is not 0 (DecimalEscape of ECMA-262, 22.2.1), in a pattern with n groups.
pub fn indexed_reference<U: Unit, C: Counter>(
    following: &Ahead<'_, U>,
    groups: u32,
    steps: &mut C,
) -> Found
    requires few { groups < 2 ^ 32 - 1 }
    ensures found { result ≡ found_front (indexed_read groups (digits_after 0 0 (values following.now))) }
    ensures steps { LooksAtSyntax (C.count steps.old) (C.count steps.new) (length following.now) result }
{
    // Why: docs/DECISIONS.md, 131.
    let _ = following.len();
    let (index, count) = number_at(following, steps);
    let length = count + 1;
    if index > groups {
        return Found::Halt(Halt::NoSuchGroup { length });
    }
    Found::Leaf {
        leaf: Leaf::IndexedReference(index),
        length,
    }
}

/// The reference by name after `\k` (AtomEscape of ECMA-262, 22.2.1).
pub fn named_reference<U: Unit, C: Counter>(
    following: &Ahead<'_, U>,
    unicode_mode: bool,
    steps: &mut C,
) -> Found
    ensures found { result ≡ found_front (reference_read unicode_mode (values following.now)) }
    ensures steps { LooksAtSyntax (C.count steps.old) (C.count steps.new) (length following.now) result }
{
    match following.after('<') {
        Some(name) => named_reference_in_brackets(&name, unicode_mode, steps),
        None => Found::Halt(Halt::NoGroupName),
    }
}

/// The reference by name after `\k<` (GroupName of ECMA-262, 22.2.1).
fn named_reference_in_brackets<U: Unit, C: Counter>(
    units: &Ahead<'_, U>,
    unicode_mode: bool,
    steps: &mut C,
) -> Found
    ensures found { result ≡ found_front (with_name named (name_read_at unicode_mode (values units.now))) }
    ensures steps { LooksAtSyntax (C.count steps.old) (C.count steps.new) (length units.now) result }
{
    // Why: docs/DECISIONS.md, 131.
    let _ = units.len();
    match name_at(units, unicode_mode, steps) {
        NameFound::Name { length } => Found::NamedReference { length: length + 4 },
        NameFound::Halt(halt) => Found::Halt(halt),
    }
}
