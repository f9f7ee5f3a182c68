//! Patterns that are deep or long.
use crate::rewritten::RewriteCall;
use rx_rows::agree;
use std::alloc::{AllocError, Global};
use std::test::Fail;

/// A pattern by what stands so many times in front, in the middle, and so many times at the back.
fn nested(alloc: Global, depth: usize, parts: [&str; 3]) -> Result<String, AllocError> {
    let [front, middle, back] = parts;
    let front = front.repeat(alloc, depth)?;
    let back = back.repeat(alloc, depth)?;
    format!(in alloc; "{front}{middle}{back}")
}

/// A row of a deep pattern, with what it is rewritten to.
fn row(
    alloc: Global,
    flags: &str,
    depth: usize,
    pattern: [&str; 3],
    wanted: [&str; 3],
) -> Result<String, AllocError> {
    let pattern = nested(alloc, depth, pattern)?;
    let wanted = nested(alloc, depth, wanted)?;
    format!(in alloc; "{flags} ~ {pattern} => {wanted}")
}

#[test]
fn deep_patterns_need_no_deep_stack(rt: HostRuntime) -> Result<(), Fail> {
    for (flags, depth, pattern, wanted) in [
        ("s", 20_000, ["(?:", ".", ")"], ["(?:", "[^]", ")"]),
        (
            "",
            10_000,
            ["(?-s:(?s:", ".", ")*)"],
            ["(?:(?:", "[^]", ")*)"],
        ),
        ("v", 20_000, ["[a", "b", "]"], ["[a", "b", "]"]),
    ] {
        let row = row(rt.alloc(), flags, depth, pattern, wanted)?;
        agree(rt.alloc(), &RewriteCall, &row)?;
    }
    Ok(())
}

/// A group with a reference to it, by name or by number.
fn group(alloc: Global, number: u32, by_name: bool) -> Result<String, AllocError> {
    if by_name {
        format!(in alloc; "(?<n{number}>x)\\k<n{number}>")
    } else {
        format!(in alloc; "(x)\\{number}")
    }
}

/// Groups with a reference to each.
fn groups(alloc: Global, by_name: bool) -> Result<String, AllocError> {
    let mut text = String::new(alloc);
    for number in 1..10_000 {
        text.push_str(&group(alloc, number, by_name)?)?;
    }
    Ok(text)
}

#[test]
fn many_names_take_no_long_time(rt: HostRuntime) -> Result<(), Fail> {
    let alloc = rt.alloc();
    let (names, numbers) = (groups(alloc, true)?, groups(alloc, false)?);
    agree(
        alloc,
        &RewriteCall,
        &format!(in alloc; " ~ {names} => {numbers}")?,
    )
}
