//! Calls that change a value. Where one is refused memory, the value is as it was.
use crate::outcome::{Outcome, begin, end};
use crate::row::Row;
use crate::shown::{groups, units};
use rx_base::{List, OutOfMemory, Text};
use rx_rows::short;
use rx_scan::{State, StateFault};
use rx_units::{EscapeKind, Reader, handle_code_point, parse_regexp_literal};
use std::alloc::Global;
use std::test::Fail;

/// What a call came to that changes a value, which was shown so before it, and is shown so after it.
fn change_outcome(
    alloc: Global,
    answer: Result<(), OutOfMemory>,
    before: &str,
    after: &str,
) -> Result<Outcome, Fail> {
    match answer {
        Ok(()) => Ok(Outcome::Answer(String::from_str(alloc, after)?)),
        Err(OutOfMemory) if before == after => Ok(Outcome::OutOfMemory),
        Err(OutOfMemory) => Err(Fail::new(format_args!("out of memory, and left is {after}"))),
    }
}

/// The first character of the text is added to what is given.
pub fn push(rt: &impl Print, alloc: Global, row: &Row<'_>) -> Result<Outcome, Fail> {
    let character = row.text.chars().next().ok_or("no character")?;
    let mut text = Text::from_str(alloc, row.given)?;
    begin(rt);
    let answer = text.push(character);
    end(rt);
    change_outcome(alloc, answer, row.given, text.as_str())
}

/// The text is added to what is given.
pub fn push_str(rt: &impl Print, alloc: Global, row: &Row<'_>) -> Result<Outcome, Fail> {
    let mut text = Text::from_str(alloc, row.given)?;
    begin(rt);
    let answer = text.push_str(row.text);
    end(rt);
    change_outcome(alloc, answer, row.given, text.as_str())
}

/// The first byte of the text is added to the bytes of what is given.
pub fn push_byte(rt: &impl Print, alloc: Global, row: &Row<'_>) -> Result<Outcome, Fail> {
    let byte = row.text.bytes().next().ok_or("no byte")?;
    let mut list = List::with_capacity(alloc, row.given.len())?;
    list.extend_from_slice(row.given.as_bytes())?;
    begin(rt);
    let answer = list.push(byte);
    end(rt);
    let after = str::from_utf8(list.as_slice()).ok().ok_or("no text")?;
    change_outcome(alloc, answer, row.given, after)
}

/// The first character of the text is added, 10 bytes on and in two units where it is past FFFF, to the units of what is given.
pub fn push_code_point(rt: &impl Print, alloc: Global, row: &Row<'_>) -> Result<Outcome, Fail> {
    let character = row.text.chars().next().ok_or("no character")?;
    let code_point = ((0, 4), character as u32, EscapeKind::None);
    let mut body = parse_regexp_literal(alloc, short(row.given)?, 0, false)?;
    let before = units(alloc, body.as_slice())?;
    begin(rt);
    let answer = handle_code_point(&mut body, code_point, 10, false);
    end(rt);
    let after = units(alloc, body.as_slice())?;
    change_outcome(alloc, answer, &before, &after)
}

/// The state of the text that is given becomes that of the text, each read under `u`.
pub fn count_groups(rt: &impl Print, alloc: Global, row: &Row<'_>) -> Result<Outcome, Fail> {
    let mut state = State::new(alloc, true, false, true);
    let mut reader = Reader::initialize(alloc, short(row.given)?, true, false)?;
    state.initialize_with_parsing(&mut reader)?;
    let before = groups(alloc, &state)?;
    reader = Reader::initialize(alloc, short(row.text)?, true, false)?;
    begin(rt);
    let answer = state.initialize_with_parsing(&mut reader);
    end(rt);
    let after = groups(alloc, &state)?;
    match answer {
        Ok(()) => change_outcome(alloc, Ok(()), &before, &after),
        Err(StateFault::OutOfMemory) => change_outcome(alloc, Err(OutOfMemory), &before, &after),
        Err(fault) => Ok(Outcome::Answer(format!(in alloc; "{fault:?} and {after}")?)),
    }
}
