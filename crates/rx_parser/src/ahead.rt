ghost use Rattle.std.specs.Prelude.{◌≡◌, ℕ, ◌+◌, ◌-◌, ◌^◌, ◌<◌, ◌≤◌, IsTrue, drop, length, min};
ghost use Rattle.rx_base.specs.Rising.{Rises};
ghost use Rattle.rx_units.specs.Units.{values};
ghost use Rattle.rx_model.specs.FirstPass.Marks.{starts};
ghost use Rattle.rx_model.specs.Reading.Fronts.{digits, digits_after};
ghost use Rattle.rx_parser.specs.Pace.{digit_run};

use rx_base::Counter;
use rx_tables::is_decimal_digit;
use rx_units::{Ahead, Unit};

/// Whether this character stands at this place.
pub fn stands_at<U: Unit>(units: &Ahead<'_, U>, place: usize, ch: char) -> bool
    ensures there { result ≡ starts ch (drop place (values units.now)) }
    ensures within { IsTrue result → place < length units.now }
{
    units
        .items()
        .get(place)
        .is_some_and(|unit| unit.value() == ch as u32)
}

/// The number that the first units spell in digits, or 4294967295 where it is greater, and how many digits they are.
#[tactic(auto, using(crate::proofs::Paces::run_ends))]
pub fn number_at<U: Unit, C: Counter>(units: &Ahead<'_, U>, steps: &mut C) -> (u32, usize)
    ensures number { (n : ℕ) × (result.0 ≡ min n (2 ^ 32 - 1)) × (digits_after 0 0 (values units.now) ≡ digits n result.1 (values (drop result.1 units.now))) }
    ensures within { result.1 ≤ length units.now }
    ensures run { result.1 ≡ digit_run units.now }
    ensures steps { Rises (C.count steps.old) (C.count steps.new) result.1 (result.1 + 1) }
{
    let mut number = 0u32;
    let items = units.items();
    for (count, unit) in items.iter().enumerate() {
        steps.tick();
        if !is_decimal_digit(unit.value()) {
            return (number, count);
        }
        let digit = unit.value() - '0' as u32;
        number = number.saturating_mul(10).saturating_add(digit);
    }
    (number, units.len())
}
