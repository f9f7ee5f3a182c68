//! How a search that a row asks for is made and told.
use crate::made::made;
use rx_ast::Pattern;
use rx_match::{Found, MatchFault, MatchFlags, Slot, match_at, search, units_of};
use rx_rows::{Call, text_of};
use rx_tools::{Form, Options, read_pattern};
use std::alloc::{AllocError, Global};
use std::test::Fail;

/// A search for a pattern that is read, at each place from a start on.
pub const SEARCH: SearchCall = SearchCall {
    tree: Tree::Read,
    range: Range::All,
};

/// A match of a pattern that is read, at the start alone.
pub const MATCH_AT: SearchCall = SearchCall {
    tree: Tree::Read,
    range: Range::First,
};

/// A search for a pattern that is made by hand.
pub const SEARCH_MADE: SearchCall = SearchCall {
    tree: Tree::Made,
    range: Range::All,
};

/// A match of a pattern that is made by hand, at the start alone.
pub const MATCH_MADE_AT: SearchCall = SearchCall {
    tree: Tree::Made,
    range: Range::First,
};

/// Whether a pattern is read or made by hand.
#[derive(Clone, Copy)]
enum Tree {
    Read,
    Made,
}

/// From how many places it is tried to match.
#[derive(Clone, Copy)]
enum Range {
    All,
    First,
}

/// Asked are the flags, the pattern, the budget and the text, with ` ~ ` between; and where the search starts, if not at 0.
#[derive(Clone, Copy)]
pub struct SearchCall {
    tree: Tree,
    range: Range,
}

impl Call for SearchCall {
    fn answer(&self, alloc: Global, asked: &str) -> Result<String, Fail> {
        Ok(answer(alloc, *self, asked).ok_or(asked)?)
    }
}

/// The answer in words, or none where there is no such pattern or no memory.
fn answer(alloc: Global, call: SearchCall, asked: &str) -> Option<String> {
    let row = text_of(alloc, asked).ok()??;
    let pattern = match call.tree {
        Tree::Read => read(alloc, part(&row, 1), part(&row, 0))?,
        Tree::Made => made(alloc, part(&row, 1))?,
    };
    answer_for(alloc, &row, &pattern, call.range)
}

/// A part of a row, empty where the row has no such part.
pub fn part(row: &str, at: usize) -> &str {
    row.split(" ~ ").nth(at).unwrap_or("")
}

/// A number of a row, 0 where the row has none there.
fn number(row: &str, at: usize) -> usize {
    part(row, at).parse::<usize>().unwrap_or(0)
}

/// A pattern that is read, with no very long text.
pub fn read(alloc: Global, pattern: &str, flags: &str) -> Option<Pattern> {
    if pattern.len().max(flags.len()) > 1_000_000 {
        return None;
    }
    let options = Options::default();
    match read_pattern(alloc, Form::Literal, pattern, Some(flags), options) {
        Ok((pattern, _)) => Some(pattern),
        Err(_) => None,
    }
}

fn answer_for(alloc: Global, row: &str, pattern: &Pattern, range: Range) -> Option<String> {
    let flags = match_flags(part(row, 0));
    let units = units_of(alloc, part(row, 3), flags.unicode_mode).ok()?;
    let units = units.as_slice();
    let start = number(row, 4);
    if start > units.len() {
        return None;
    }
    let budget = number(row, 2) as u64;
    let answer = match range {
        Range::All => search(alloc, pattern, flags, units, start, budget),
        Range::First => match_at(alloc, pattern, flags, units, start, budget),
    };
    told(alloc, &answer).ok()
}

fn match_flags(flags: &str) -> MatchFlags {
    MatchFlags {
        ignore_case: flags.contains('i'),
        multiline: flags.contains('m'),
        dot_all: flags.contains('s'),
        unicode_mode: flags.contains('u') | flags.contains('v'),
    }
}

fn told(alloc: Global, answer: &Result<Option<Found>, MatchFault>) -> Result<String, AllocError> {
    match answer {
        Ok(Some(found)) => found_told(alloc, found),
        Ok(None) => String::from_str(alloc, "none"),
        Err(MatchFault::Spent) => String::from_str(alloc, "spent"),
        Err(MatchFault::IgnoreCase) => String::from_str(alloc, "flag"),
        Err(MatchFault::Unsupported { span }) => {
            format!(in alloc; "unsupported {}..{}", span.start, span.end)
        }
        Err(MatchFault::OutOfMemory) => Err(AllocError),
    }
}

/// Where a match stands, and each of its groups.
fn found_told(alloc: Global, found: &Found) -> Result<String, AllocError> {
    let mut told = format!(in alloc; "{}..{}", found.start, found.end)?;
    for slot in found.groups.as_slice() {
        let text = slot_told(alloc, *slot)?;
        told.push_str(&text)?;
    }
    Ok(told)
}

fn slot_told(alloc: Global, slot: Slot) -> Result<String, AllocError> {
    match slot {
        Slot::Unset => String::from_str(alloc, " -"),
        Slot::Set { start, end } => format!(in alloc; " {start}..{end}"),
    }
}
