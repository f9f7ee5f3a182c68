//! Makes each call of a table, and says whether it answers what its row says, or out of memory.
//!
//! The table is text, read from standard input, by lines:
//!
//! - `CALL` TAB `GIVEN` TAB `TEXT` TAB `ANSWER` is a row: the name of a call, what it is given beside a text, the text, and how its answer is shown.
//! - `# REMARK` and an empty line say nothing.
//!
//! A parenthesis is written right before each call, and one right after it. All that the call needs is made before, and its answer is shown after: so what
//! asks for memory between the two is the call alone. `bench/refused_calls.py` refuses it there.
#![tactic(auto)]

mod call;
mod changes;
mod decoders;
mod outcome;
mod patterns;
mod row;
mod shown;

use outcome::Outcome;
use row::Row;
use std::io;
use std::process::ExitCode;
use std::test::Fail;

fn main(rt: HostRuntime) -> Result<ExitCode, Fail> {
    let table = io::read_to_string(rt.alloc(), rt.stdin())?;
    let mut wrong = false;
    for line in table.lines() {
        if !line.is_empty() && !line.starts_with("# ") {
            let row = Row::of(line).ok_or("a line that is no row")?;
            let outcome = call::outcome(&rt, rt.alloc(), &row)?;
            wrong |= !tell(&rt, &row, &outcome)?;
        }
    }
    Ok(ExitCode::from(u8::from(wrong)))
}

/// Tells what a call came to, and answers whether that is what its row says, or out of memory.
fn tell(rt: &impl Print, row: &Row<'_>, outcome: &Outcome) -> io::Result<bool> {
    match outcome {
        Outcome::OutOfMemory => println!(rt; " out of memory")?,
        Outcome::Answer(answer) if answer.as_str() == row.answer => {
            println!(rt; " as its row says")?;
        }
        Outcome::Answer(answer) => {
            let Row {
                call,
                given,
                text,
                ..
            } = *row;
            println!(rt; " otherwise: {call} {given} {text}: {answer}")?;
            return Ok(false);
        }
    }
    Ok(true)
}
