ghost use Rattle.std.specs.Prelude.{◌≡◌, ◌≤◌, IfOk, drop, length, map, reverse, take};
ghost use Rattle.rx_lint.specs.Rows.{AreNumbered, first_length, kind_of, rows_of};

use crate::numbers::Beginning;
use rx_base::{List, OutOfMemory};
use rx_kinds::count;
use rx_visit::children_of;
use std::alloc::Global;

/// The length of the last row, or 0 where there is none.
fn last_length(rows: &[&[u64]]) -> usize
    ensures { result ≡ first_length (reverse (map (λ row. row.now) rows.now)) }
{
    match rows.last() {
        Some(row) => row.len(),
        None => 0,
    }
}

fn numbers_from(numbers: &[u64], start: usize) -> &[u64]
    requires { start ≤ length numbers.now }
    ensures { result.now ≡ drop start numbers.now }
{
    &numbers[start..]
}

fn first_numbers(numbers: &[u64], len: usize) -> &[u64]
    requires { len ≤ length numbers.now }
    ensures { result.now ≡ take len numbers.now }
{
    &numbers[..len]
}

/// The numbers of each node with those of all nodes in it. The last node comes first, so that the first is taken out first.
pub(crate) fn rows_of<'a>(
    alloc: Global,
    mut beginnings: List<Beginning<'_>>,
    numbers: &'a [u64],
) -> Result<List<&'a [u64]>, OutOfMemory>
    requires { AreNumbered (map kind_of beginnings) beginnings numbers.now }
    ensures { IfOk result (λ rows. map (λ row. row.now) rows ≡ reverse (rows_of (map kind_of beginnings.entry))) }
{
    let mut rows = List::new(alloc);
    let mut tails: Vec<&'a [u64]> = Vec::new(alloc);
    while let Some(beginning) = beginnings.pop() {
        let tail = numbers_from(numbers, beginning.start);
        let children = count(children_of(beginning.node));
        let kept = tails.as_slice().len().saturating_sub(children);
        tails.truncate(kept);
        let after = last_length(tails.as_slice());
        rows.push(first_numbers(tail, tail.len().saturating_sub(after)))?;
        tails.push(tail)?;
    }
    Ok(rows)
}
