//! The rows of each table are searched for.
use crate::searches::{MATCH_AT, MATCH_MADE_AT, SEARCH, SEARCH_MADE, part};
use crate::{classes, groups, leaves, made, modifiers, notes, refusals, starts};
use rx_match::units_of;
use rx_rows::{Call, agree, text_of};
use std::alloc::{AllocError, Global};
use std::test::Fail;

const SEARCHES: [&str; 22] = [
    leaves::CHARACTERS_AND_DOTS,
    leaves::CLASS_ESCAPES,
    leaves::CLASSES,
    leaves::ENDS_OF_LINES,
    leaves::ENDS_OF_WORDS,
    leaves::ASTRAL_UNITS,
    groups::GROUPS_AND_REFERENCES,
    groups::REPETITIONS,
    groups::BOUNDED_REPETITIONS,
    groups::LOOKAHEADS,
    groups::LOOKBEHINDS,
    groups::CAPTURES_IN_LOOKBEHINDS,
    groups::CHOICES,
    modifiers::MODIFIERS,
    modifiers::NAMES,
    modifiers::ENDS_OF_THE_BUFFER,
    classes::CLASSES_IN_CLASSES,
    classes::BOUNDS,
    notes::BUDGETS,
    notes::NOTES,
    refusals::REFUSALS,
    starts::STARTS,
];

#[test]
fn searches(rt: HostRuntime) -> Result<(), Fail> {
    for rows in SEARCHES {
        agree(rt.alloc(), &SEARCH, rows)?;
    }
    Ok(())
}

#[test]
fn a_match_from_one_place_looks_at_no_other(rt: HostRuntime) -> Result<(), Fail> {
    agree(rt.alloc(), &MATCH_AT, starts::FROM_ONE_PLACE)
}

#[test]
fn trees_that_no_text_spells(rt: HostRuntime) -> Result<(), Fail> {
    agree(rt.alloc(), &SEARCH_MADE, made::TREES)?;
    agree(rt.alloc(), &MATCH_MADE_AT, made::CLASSES)
}

/// A class of no items in so many negative classes, with the answer to a match with `a`.
fn nested(alloc: Global, depth: usize, answer: &str) -> Result<String, AllocError> {
    let front = "[^".repeat(alloc, depth)?;
    let back = "]".repeat(alloc, depth)?;
    format!(in alloc; "v ~ {front}[]{back} ~ 1 ~ a => {answer}")
}

#[test]
fn a_deep_class_needs_no_deep_stack(rt: HostRuntime) -> Result<(), Fail> {
    let even = nested(rt.alloc(), 100_000, "none")?;
    agree(rt.alloc(), &MATCH_AT, &even)?;
    let odd = nested(rt.alloc(), 100_001, "0..1")?;
    agree(rt.alloc(), &MATCH_AT, &odd)
}

/// Asked are the flags and a text, with ` ~ ` between.
#[derive(Clone, Copy)]
struct UnitsCall;

impl Call for UnitsCall {
    fn answer(&self, alloc: Global, asked: &str) -> Result<String, Fail> {
        Ok(units_told(alloc, asked).ok_or(asked)?)
    }
}

fn units_told(alloc: Global, asked: &str) -> Option<String> {
    let row = text_of(alloc, asked).ok()??;
    let units = units_of(alloc, part(&row, 1), part(&row, 0).contains('u')).ok()?;
    format!(in alloc; "{:?}", units.as_slice()).ok()
}

#[test]
fn a_character_past_ffff_is_one_unit_or_two(rt: HostRuntime) -> Result<(), Fail> {
    let rows = "u ~ b => [98]
 ~ b => [98]
u ~  => []
 ~  => []
u ~ «1F600»a => [128512, 97]
 ~ «1F600»a => [55357, 56832, 97]
u ~ «FFFF»«10000»«10FFFF» => [65535, 65536, 1114111]
 ~ «FFFF»«10000»«10FFFF» => [65535, 55296, 56320, 56319, 57343]";
    agree(rt.alloc(), &UnitsCall, rows)
}
