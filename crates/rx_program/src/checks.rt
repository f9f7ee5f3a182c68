ghost use Rattle.std.specs.Prelude.{◌≡◌, ◌==◌, ◌+◌, ◌*◌, ◌%◌, ◌^◌, ◌<◌, ◌≤◌, ℕ, length, bit_or, if◌then◌else◌};
ghost use Rattle.std.specs.Int.{bit_at};
ghost use Rattle.rx_program.specs.Checks.{item_holds as item_holds_it, row_holds as row_holds_it, target_after as target_after_it, target_holds as target_holds_it};

use crate::characters::escape_holds;
use rx_ast::CharacterClassEscapeKind;
use rx_base::List;

/// Which units an item of a class holds.
#[derive(Clone, Copy)]
pub enum ItemTest {
    Range { min: u32, max: u32 },
    Character(u32),
    Escape(CharacterClassEscapeKind),
}

/// What comes after a check: another check, or the answer.
#[derive(Clone, Copy)]
pub enum Target {
    Check(usize),
    Held,
    NotHeld,
}

/// A check of a unit by an item of a class. The checks that may come after it stand before it.
#[derive(Clone, Copy)]
pub struct Check {
    pub test: ItemTest,
    pub held: Target,
    pub not_held: Target,
}

/// A class as checks, and its answers for the values below 128, of which `low` has the first 64, a bit for each.
// Why: docs/DECISIONS.md, 80.
#[derive(Drop)]
pub struct ClassRow {
    pub low: u64,
    pub high: u64,
    pub checks: List<Check>,
    pub first: Target,
}

fn item_holds(test: ItemTest, c: u32) -> bool
    ensures { result ≡ item_holds_it test c }
{
    match test {
        ItemTest::Range { min, max } => min <= c && c <= max,
        ItemTest::Character(value) => c == value,
        ItemTest::Escape(kind) => escape_holds(kind, c),
    }
}

fn target_after(check: Check, c: u32) -> Target
    ensures { result ≡ target_after_it check c }
{
    if item_holds(check.test, c) {
        check.held
    } else {
        check.not_held
    }
}

/// Whether a unit is held, by the checks from a target on. Each check is asked at most once.
fn target_holds(checks: &[Check], first: Target, c: u32) -> bool
    ensures { result ≡ target_holds_it checks.now (length checks.now) first c }
{
    let mut below = checks.len();
    let mut target = first;
    loop {
        match target {
            Target::Held => return true,
            Target::NotHeld => return false,
            Target::Check(i) => {
                if i >= below {
                    return false;
                }
                target = target_after(checks[i], c);
                below = i;
            }
        }
    }
}

fn is_set(word: u64, bit: u32) -> bool
    requires { bit < 64 }
    ensures { result ≡ (bit_at word bit == 1) }
{
    (word >> bit) & 1 == 1
}

fn with_bit(word: u64, bit: u32, set: bool) -> u64
    requires { bit < 64 }
    ensures { result ≡ (if set then bit_or word (1 * 2 ^ bit % 2 ^ 64) else word) }
{
    if set { word | 1 << bit } else { word }
}

/// The answers for the 64 values from `start` on, a bit for each.
pub fn answers_from(checks: &[Check], first: Target, start: u32) -> u64
    requires { start ≤ 64 }
    ensures { (k : ℕ) → k < 64 → (bit_at result k == 1) ≡ target_holds_it checks.now (length checks.now) first (start + k) }
{
    let mut word = 0u64;
    for bit in 0..64 {
        let holds = target_holds(checks, first, start + bit);
        word = with_bit(word, bit, holds);
    }
    word
}

/// Whether a class holds a unit, by its row.
pub fn row_holds(row: &ClassRow, c: u32) -> bool
    ensures { result ≡ row_holds_it row.now c }
{
    if c < 64 {
        return is_set(row.low, c);
    }
    if c < 128 {
        return is_set(row.high, c - 64);
    }
    target_holds(row.checks.as_slice(), row.first, c)
}
