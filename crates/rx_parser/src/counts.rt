ghost use Rattle.std.specs.Prelude.{◌≡◌, ℕ, suc, ◌+◌, ◌^◌, ◌<◌, ◌≤◌, drop, length};
ghost use Rattle.rx_base.specs.Rising.{Rises};
ghost use Rattle.rx_units.specs.Units.{values};
ghost use Rattle.rx_model.specs.Quantifiers.CountsReading.{digits_read_at, read_after_comma, read_after_least, read_in_braces, counts_read_at};
ghost use Rattle.rx_model.specs.Reading.Fronts.{are_counts, counts_at, counts_after_comma, counts_in_braces, digits, digits_after};
ghost use Rattle.rx_parser.specs.CountsFound.{seen_digits, digits_counted, seen_counts};
ghost use Rattle.rx_parser.specs.Pace.{count_looks, plain};

use crate::ahead::{number_at, stands_at};
use rx_base::Counter;
use rx_tables::is_decimal_digit;
use rx_units::{Ahead, Unit};

/// Decimal digits, read as a number of 64 bits.
#[derive(Clone, Copy)]
enum DigitsFound {
    /// The number of all digits that stand next, and how many they are, which may be none.
    Digits { value: u64, count: usize },
    /// The digit after n digits makes the number pass 64 bits.
    TooMany { digits: usize },
}

/// What a quantifier's prefix (QuantifierPrefix, 22.2.1) was read as. Lengths are in units.
#[derive(Clone, Copy)]
pub enum CountsFound {
    Counts {
        min: u64,
        max: Option<u64>,
        length: usize,
    },
    Nothing,
    /// The digits of a number after `{`, from `start` on, pass 64 bits after n of them.
    TooMany {
        start: usize,
        digits: usize,
    },
}

/// The number of the digits that the units begin with (DecimalDigits of ECMA-262, 22.2.1), as far as it fits.
fn digits_at<U: Unit, C: Counter>(units: &Ahead<'_, U>, steps: &mut C) -> DigitsFound
    ensures read { seen_digits units.now result ≡ digits_read_at 0 0 (values units.now) }
    ensures within { digits_counted result ≤ length units.now }
    ensures steps { Rises (C.count steps.old) (C.count steps.new) (digits_counted result) (digits_counted result + 1) }
{
    let mut value = 0u64;
    let items = units.items();
    for (count, unit) in items.iter().enumerate() {
        steps.tick();
        if !is_decimal_digit(unit.value()) {
            return DigitsFound::Digits { value, count };
        }
        let digit = (unit.value() - '0' as u32) as u64;
        match value
            .checked_mul(10)
            .and_then(|tens| tens.checked_add(digit))
        {
            Some(next) => value = next,
            None => return DigitsFound::TooMany { digits: count },
        }
    }
    DigitsFound::Digits {
        value,
        count: units.len(),
    }
}

/// The counts after `{`, a number of n digits and `,`. The bounds on the steps count n + 2 more, for the number and the `,`.
fn after_comma<U: Unit, C: Counter>(
    min: u64,
    count: usize,
    units: &Ahead<'_, U>,
    steps: &mut C,
) -> CountsFound
    requires { count + 2 + length units.now < 2 ^ 64 }
    ensures read { seen_counts result ≡ read_after_comma min count (digits_read_at 0 0 (values units.now)) }
    ensures steps { Rises (C.count steps.old) (C.count steps.new + (count + 2)) (count + 2) (count_looks (length units.now + (count + 3)) result) }
{
    let (value, more) = match digits_at(units, steps) {
        DigitsFound::Digits { value, count } => (value, count),
        DigitsFound::TooMany { digits } => {
            return CountsFound::TooMany {
                start: count + 2,
                digits,
            };
        }
    };
    if !stands_at(units, more, '}') {
        return CountsFound::Nothing;
    }
    CountsFound::Counts {
        min,
        max: (more > 0).then_some(value),
        length: count + more + 3,
    }
}

/// The counts after `{` and a number of n digits. The bounds on the steps count n + 1 more, for the number.
fn after_least<U: Unit, C: Counter>(
    min: u64,
    count: usize,
    units: &Ahead<'_, U>,
    steps: &mut C,
) -> CountsFound
    requires { count + 1 + length units.now < 2 ^ 64 }
    ensures read { seen_counts result ≡ read_after_least min count (values units.now) }
    ensures steps { Rises (C.count steps.old) (C.count steps.new + (count + 1)) (count + 1) (count_looks (length units.now + (count + 1)) result) }
{
    if count == 0 {
        return CountsFound::Nothing;
    }
    match units.split_first() {
        Some((brace, _)) if brace == '}' as u32 => CountsFound::Counts {
            min,
            max: Some(min),
            length: count + 2,
        },
        Some((comma, more)) if comma == ',' as u32 => after_comma(min, count, &more, steps),
        _ => CountsFound::Nothing,
    }
}

/// The counts after `{`.
fn in_braces<U: Unit, C: Counter>(units: &Ahead<'_, U>, steps: &mut C) -> CountsFound
    requires { 1 + length units.now < 2 ^ 64 }
    ensures read { seen_counts result ≡ read_in_braces (digits_read_at 0 0 (values units.now)) }
    ensures steps { Rises (C.count steps.old) (C.count steps.new) 0 (count_looks (length units.now + 1) result) }
{
    match digits_at(units, steps) {
        DigitsFound::Digits { value, count } => {
            after_least(value, count, &units.from(count), steps)
        }
        DigitsFound::TooMany { digits } => CountsFound::TooMany { start: 1, digits },
    }
}

/// The quantifier's prefix that the units begin with (QuantifierPrefix of ECMA-262, 22.2.1).
#[tactic(auto, unfolding(rx_model::specs::Quantifiers::CountsReading::counts_read_at))]
pub fn counts_at<U: Unit, C: Counter>(units: &Ahead<'_, U>, steps: &mut C) -> CountsFound
    ensures read { seen_counts result ≡ counts_read_at (values units.now) }
    ensures steps { Rises (C.count steps.old) (C.count steps.new) 0 (count_looks (length units.now) result) }
{
    // Why: docs/DECISIONS.md, 131.
    let _ = units.len();
    let Some((first, following)) = units.split_first() else {
        return CountsFound::Nothing;
    };
    match char::from_u32(first) {
        Some('*') => counts(0, None),
        Some('+') => counts(1, None),
        Some('?') => counts(0, Some(1)),
        Some('{') => in_braces(&following, steps),
        _ => CountsFound::Nothing,
    }
}

/// Whether a quantifier's prefix stands first, whatever its numbers are (QuantifierPrefix of ECMA-262, 22.2.1).
#[tactic(auto, unfolding(rx_model::specs::Reading::Fronts::counts_at))]
pub fn begins_with_counts<U: Unit, C: Counter>(units: &Ahead<'_, U>, steps: &mut C) -> bool
    ensures counts { result ≡ are_counts (counts_at (values units.now)) }
    ensures steps { Rises (C.count steps.old) (C.count steps.new) 0 (plain (drop 1 units.now) + 1) }
{
    let Some((first, following)) = units.split_first() else {
        return false;
    };
    match char::from_u32(first) {
        Some('*' | '+' | '?') => true,
        Some('{') => are_braces(&following, steps),
        _ => false,
    }
}

/// Whether a quantifier in braces goes on after its `{`.
#[tactic(auto, using(crate::proofs::Paces::run_plain))]
fn are_braces<U: Unit, C: Counter>(units: &Ahead<'_, U>, steps: &mut C) -> bool
    ensures counts { result ≡ are_counts (counts_in_braces (digits_after 0 0 (values units.now))) }
    ensures steps { Rises (C.count steps.old) (C.count steps.new) 0 (plain units.now + 1) }
{
    let (_, count) = number_at(units, steps);
    count > 0 && end_braces(&units.from(count), steps)
}

/// Whether a quantifier in braces goes on after its first number.
#[tactic(auto, using(crate::proofs::Paces::comma_plain))]
fn end_braces<U: Unit, C: Counter>(units: &Ahead<'_, U>, steps: &mut C) -> bool
    ensures counts { (number more : ℕ) → result ≡ are_counts (counts_in_braces (digits number (suc more) (values units.now))) }
    ensures steps { Rises (C.count steps.old) (C.count steps.new) 0 (plain units.now) }
{
    match units.split_first() {
        Some((brace, _)) if brace == '}' as u32 => true,
        Some((comma, more)) if comma == ',' as u32 => end_after_comma(&more, steps),
        _ => false,
    }
}

/// Whether a quantifier in braces goes on after its comma.
#[tactic(auto, using(crate::proofs::Paces::run_under_plain))]
fn end_after_comma<U: Unit, C: Counter>(units: &Ahead<'_, U>, steps: &mut C) -> bool
    ensures counts { (number count : ℕ) → result ≡ are_counts (counts_after_comma number count (digits_after 0 0 (values units.now))) }
    ensures steps { Rises (C.count steps.old) (C.count steps.new) 0 (plain units.now + 1) }
{
    let (_, more) = number_at(units, steps);
    stands_at(units, more, '}')
}

/// The counts of a prefix of one unit.
fn counts(min: u64, max: Option<u64>) -> CountsFound
    ensures { result ≡ CountsFound.Counts min max 1 }
{
    CountsFound::Counts {
        min,
        max,
        length: 1,
    }
}
