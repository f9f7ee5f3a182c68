ghost use Rattle.std.specs.Prelude.{◌≡◌, ◌++◌, IfOk, map, reverse};
ghost use Rattle.std.specs.Result.{OnOk};
ghost use Rattle.rx_ast.specs.Kinds.{order, pattern as pattern_kind};
ghost use Rattle.rx_ast.specs.MirrorKinds.{mirror_kind};
ghost use Rattle.rx_ast.specs.Tree.{Whole, mirror};
ghost use Rattle.rx_lint.specs.Findings.{findings};
ghost use Rattle.rx_lint.specs.NodeFindings.{finding_if, findings_by};
ghost use Rattle.rx_lint.specs.Names.{AreReferred};
ghost use Rattle.rx_lint.specs.Numbers.{numbers};

use crate::earlier::{Earlier, Mark};
use crate::finding::{Finding, Rule};
use crate::names::referred_names;
use crate::numbers::{Numbered, numbers_of};
use crate::rows::rows_of;
use crate::rules::{
    is_empty_class, is_empty_of_many, is_once, is_repeated_alternative, is_repeated_item, is_unused,
};
use rx_ast::{Pattern, RegExpAstKind};
use rx_base::{GetSpan, List, OutOfMemory, Span};
use rx_visit::{Siblings, children_of, nodes_in_order};
use std::alloc::Global;
use std::collections::BTreeSet;

/// Lists a finding where its rule holds.
fn list_if(
    findings: &mut List<Finding>,
    holds: bool,
    rule: Rule,
    span: Span,
) -> Result<(), OutOfMemory>
    ensures { OnOk result (findings.new ≡ findings.old ++ finding_if holds rule span) }
{
    if holds {
        findings.push(Finding { rule, span })?;
    }
    Ok(())
}

/// Lists the findings at a node, of which the nodes before it in its parent say what the mark is.
fn list_found(
    findings: &mut List<Finding>,
    node: RegExpAstKind<'_>,
    mark: Mark,
    names: &BTreeSet<&str>,
) -> Result<(), OutOfMemory>
    ensures { OnOk result ((p : Whole) → AreReferred names.now p → findings.new ≡ findings.old ++ findings_by p mark (mirror_kind node.entry)) }
{
    let span = node.span();
    list_if(findings, is_empty_class(node), Rule::EmptyClass, span)?;
    list_if(
        findings,
        is_repeated_item(node, mark),
        Rule::RepeatedMember,
        span,
    )?;
    list_if(
        findings,
        is_empty_of_many(node, mark),
        Rule::EmptyAlternative,
        span,
    )?;
    list_if(
        findings,
        is_repeated_alternative(node, mark),
        Rule::RepeatedAlternative,
        span,
    )?;
    list_if(findings, is_unused(node, names), Rule::UnusedName, span)?;
    list_if(findings, is_once(node), Rule::UselessQuantifier, span)?;
    Ok(())
}

/// Nodes that are still to be visited, and those that stand before them in the same node.
#[derive(Drop)]
struct Step<'a, 'b> {
    siblings: Siblings<'a>,
    earlier: Earlier<'b>,
}

/// The findings, where the rows are the numbers of each node with those of all nodes in it, those of the first node last. What is left to be visited waits
/// on the heap.
fn list_findings(
    alloc: Global,
    pattern: &Pattern,
    mut rows: List<&[u64]>,
    names: &BTreeSet<&str>,
) -> Result<List<Finding>, OutOfMemory>
    requires names { AreReferred names.now (mirror pattern.now) }
    requires rows { map (λ row. row.now) rows ≡ reverse (map numbers (order (pattern_kind (mirror pattern.now)))) }
    ensures { IfOk result (λ it. it ≡ findings (mirror pattern.now)) }
{
    let mut findings = List::new(alloc);
    let mut left = List::new(alloc);
    let root = RegExpAstKind::Pattern(pattern);
    left.push(Step {
        siblings: Siblings::Node(root),
        earlier: Earlier::Unasked,
    })?;
    while let Some(step) = left.pop() {
        let Some((node, siblings)) = step.siblings.split_first() else {
            continue;
        };
        let within = children_of(node);
        let row = rows.pop().unwrap();
        let mut earlier = step.earlier;
        let mark = earlier.add(node, row)?;
        list_found(&mut findings, node, mark, names)?;
        left.push(Step { siblings, earlier })?;
        let earlier = Earlier::new(alloc, node);
        left.push(Step {
            siblings: within,
            earlier,
        })?;
    }
    Ok(findings)
}

/// All findings in a pattern, in the order of its nodes, each before those in it; at one node in the order of `Rule`. A deep pattern needs no deep stack.
pub fn lint(alloc: Global, pattern: &Pattern) -> Result<List<Finding>, OutOfMemory>
    ensures { IfOk result (λ it. it ≡ findings (mirror pattern.now)) }
{
    let nodes = nodes_in_order(alloc, pattern)?;
    let names = referred_names(alloc, nodes.as_slice())?;
    let Numbered {
        numbers,
        beginnings,
    } = numbers_of(alloc, nodes.as_slice())?;
    let rows = rows_of(alloc, beginnings, numbers.as_slice())?;
    list_findings(alloc, pattern, rows, &names)
}
