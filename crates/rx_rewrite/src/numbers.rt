ghost use Rattle.std.specs.Prelude.{◌≡◌, ◌<◌, ◌+◌, ◌^◌, [], ◌∷◌, ℕ, List, Some, OnOk, length, map};
ghost use Rattle.std.specs.Str.{IsUtf8, chars};
ghost use Rattle.rx_ast.specs.declared.term.CapturingGroup.{out-CapturingGroup};
ghost use Rattle.rx_ast.specs.MirrorKinds.{mirror_kind};
ghost use Rattle.rx_rewrite.specs.Answers.{named_group};
ghost use Rattle.rx_rewrite.specs.NamedGroups.{IsNumbering, Numbers, Tells, group_name, group_names, Inserts, group_of_name, number_at};

use crate::fault::RewriteFault;
use rx_ast::{CapturingGroup, RegExpAstKind};
use rx_base::{OutOfMemory, Span, Text};
use std::alloc::Global;
use std::collections::BTreeMap;

/// A group that has a name: its number from 1, and its span.
#[derive(Clone, Copy)]
pub struct NumberedGroup {
    pub number: u32,
    pub span: Span,
}

/// How many groups open in a tree; and the groups that have a name, by their names, no two of which are equal.
#[derive(Drop)]
pub struct GroupNumbers {
    pub count: u32,
    pub groups: BTreeMap<String, NumberedGroup>,
}

impl GroupNumbers {
    /// No groups.
    pub fn new(alloc: Global) -> GroupNumbers
        ensures { Tells [] [] result }
    {
        GroupNumbers {
            count: 0,
            groups: BTreeMap::new(alloc),
        }
    }

    /// The groups among the nodes of a tree in order, of which there are fewer than 2^32.
    pub fn of(alloc: Global, nodes: &[RegExpAstKind<'_>]) -> Result<GroupNumbers, RewriteFault>
        requires { length (group_names (map mirror_kind nodes.now)) < 2 ^ 32 }
        ensures { IsNumbering (map mirror_kind nodes.now) result }
    {
        let mut numbers = GroupNumbers::new(alloc);
        for node in nodes {
            numbers.look_at(alloc, *node)?;
        }
        Ok(numbers)
    }

    /// Numbers the group that opens next, if the node is one.
    fn look_at(&mut self, alloc: Global, node: RegExpAstKind<'_>) -> Result<(), RewriteFault>
        requires { self.old.count + length (group_name (mirror_kind node)) < 2 ^ 32 }
        ensures { Numbers self.old (group_name (mirror_kind node.entry)) (named_group (mirror_kind node.entry)) self.new result }
    {
        match node {
            RegExpAstKind::CapturingGroup(group) => self.add(alloc, group),
            _ => Ok(()),
        }
    }

    fn add(&mut self, alloc: Global, group: &CapturingGroup) -> Result<(), RewriteFault>
        requires { self.old.count + 1 < 2 ^ 32 }
        ensures { Numbers self.old ((out-CapturingGroup group.now).name ∷ []) (group_of_name (out-CapturingGroup group.now).name (out-CapturingGroup group.now).span) self.new result }
    {
        match &group.name {
            None => {
                self.count += 1;
                Ok(())
            }
            Some(name) => self.add_named(alloc, name, group.span),
        }
    }

    // Why: docs/DECISIONS.md, 89.
    fn add_named(&mut self, alloc: Global, name: &Text, span: Span) -> Result<(), RewriteFault>
        requires { self.old.count + 1 < 2 ^ 32 }
        ensures { Numbers self.old (Some name.now ∷ []) ((name.now, span) ∷ []) self.new result }
    {
        let text = name.as_str();
        if let Some(first) = self.groups.get(text) {
            return Err(RewriteFault::NameUsedTwice {
                first: first.span,
                second: span,
            });
        }
        self.insert(alloc, text, span)?;
        Ok(())
    }

    /// Numbers a group whose name did not stand before.
    fn insert(&mut self, alloc: Global, name: &str, span: Span) -> Result<(), OutOfMemory>
        requires { self.old.count + 1 < 2 ^ 32 }
        ensures { OnOk result (Inserts self.old name.now span self.new) }
    {
        self.count += 1;
        let number = self.count;
        let name = String::from_str(alloc, name)?;
        self.groups.insert(name, NumberedGroup { number, span })?;
        Ok(())
    }

    /// The number of the group of a name, or 0 where there is none.
    pub fn number_of(&self, name: &Text) -> u32
        ensures { (bytes : List ℕ) × IsUtf8 bytes × (chars bytes ≡ name.now) × (result ≡ number_at self.now.groups bytes) }
    {
        match self.groups.get(name.as_str()) {
            Some(group) => group.number,
            None => 0,
        }
    }
}
