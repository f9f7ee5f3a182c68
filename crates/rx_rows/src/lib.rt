//! For tests: rows of what a call is asked and what it answers, as a text, which costs the prover nothing.
#![tactic(auto)]

mod notation;

ghost use Rattle.std.specs.Prelude.{◌≡◌, ◌≤◌, IfOk, length};

pub use notation::text_of;
use rx_base::{Diagnostic, List, OutOfMemory};
use std::alloc::Global;
use std::test::Fail;

/// A call that is tested.
pub trait Call {
    /// The answer to a text, as a text.
    fn answer(&self, alloc: Global, asked: &str) -> Result<String, Fail>;
}

/// Compares what the call answers in each row, a line: what is asked, ` => ` and the answer. At least one row is there.
pub fn agree<C: Call>(alloc: Global, call: &C, rows: &str) -> Result<(), Fail> {
    if rows.is_empty() {
        return Err(Fail::new("no rows"));
    }
    for row in rows.lines() {
        agrees(alloc, call, row)?;
    }
    Ok(())
}

fn agrees<C: Call>(alloc: Global, call: &C, row: &str) -> Result<(), Fail> {
    let (asked, wanted) = row.split_once(" => ").ok_or("a row with no answer")?;
    let answer = call.answer(alloc, asked)?;
    if answer.as_str() == wanted {
        return Ok(());
    }
    Err(Fail::new(format_args!("{row}, but the answer is {answer}")))
}

/// What is made for each sign of a text, one after the other.
pub fn each_sign<T: Drop, F: Fn(char) -> Result<T, OutOfMemory>>(
    alloc: Global,
    signs: &str,
    make: F,
) -> Result<List<T>, OutOfMemory>
    requires { F.IsAlwaysCallable make }
{
    let mut made = List::new(alloc);
    for sign in signs.chars() {
        made.push(make(sign)?)?;
    }
    Ok(made)
}

/// The text, where it is short.
pub fn short(text: &str) -> Result<&str, Fail>
    ensures { IfOk result (λ it. length it.now ≤ 1000) }
{
    if text.len() > 1000 {
        return Err(Fail::new("a long text"));
    }
    Ok(text)
}

/// The name of a refusal and its first span.
pub fn refusal(alloc: Global, cause: &Diagnostic) -> Result<String, Fail> {
    let name = cause.name();
    let span = cause.first_span();
    Ok(format!(in alloc; "{name} {}..{}", span.start, span.end)?)
}
