//! Trees of a depth for which the stack is too small.
use crate::trees::{NOWHERE, alone, class_alone, dot, quantified, union};
use rx_ast::{CapturingGroup, CharacterClassContents, Pattern, Term};
use rx_base::{List, OutOfMemory};
use rx_tools::{Mode, canonical_text, display_text};
use std::alloc::Global;
use std::test::Fail;

const DEPTH: usize = 500_000;

/// Compares the length of the canonical spelling of a tree, and that of the text that `Display` writes of it, with this one.
fn has_length(alloc: Global, pattern: &Pattern, mode: Mode, length: usize) -> Result<(), Fail> {
    let spelled = canonical_text(alloc, pattern, mode)?.as_str().len();
    let displayed = display_text(alloc, pattern)?.as_str().len();
    if spelled == length && displayed == length {
        return Ok(());
    }
    Err(Fail::new("another length"))
}

fn deep_groups(alloc: Global) -> Result<Pattern, OutOfMemory> {
    let mut body = alone(alloc, dot())?.body;
    for _ in 0..DEPTH {
        let group = CapturingGroup {
            span: NOWHERE,
            name: None,
            body,
        };
        body = alone(alloc, Term::CapturingGroup(Box::new(alloc, group)?))?.body;
    }
    Ok(Pattern {
        span: NOWHERE,
        body,
    })
}

#[test]
fn deep_groups_need_no_deep_stack(rt: HostRuntime) -> Result<(), Fail> {
    let pattern = deep_groups(rt.alloc())?;
    has_length(rt.alloc(), &pattern, Mode::Unicode, 1_000_001)
}

fn deep_quantifiers(alloc: Global) -> Result<Pattern, OutOfMemory> {
    let mut term = dot();
    for _ in 0..DEPTH {
        term = quantified(alloc, 0, None, true, term)?;
    }
    alone(alloc, term)
}

#[test]
fn deep_quantifiers_need_no_deep_stack(rt: HostRuntime) -> Result<(), Fail> {
    let pattern = deep_quantifiers(rt.alloc())?;
    has_length(rt.alloc(), &pattern, Mode::Unicode, 500_001)
}

fn deep_classes(alloc: Global) -> Result<Pattern, OutOfMemory> {
    let mut class = union(List::new(alloc));
    for _ in 1..DEPTH {
        let mut body = List::new(alloc);
        body.push(CharacterClassContents::NestedCharacterClass(Box::new(alloc, class)?))?;
        class = union(body);
    }
    class_alone(alloc, class)
}

#[test]
fn deep_classes_need_no_deep_stack(rt: HostRuntime) -> Result<(), Fail> {
    let pattern = deep_classes(rt.alloc())?;
    has_length(rt.alloc(), &pattern, Mode::Sets, 1_000_000)
}
