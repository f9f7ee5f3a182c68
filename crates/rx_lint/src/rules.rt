ghost use Rattle.std.specs.Prelude.{◌≡◌, ◌&&◌, Some};
ghost use Rattle.rx_ast.specs.MirrorKinds.{mirror_kind};
ghost use Rattle.rx_ast.specs.Tree.{Whole};
ghost use Rattle.rx_lint.specs.Earlier.{is_repeated_item, is_repeated_alternative};
ghost use Rattle.rx_lint.specs.Names.{AreReferred};
ghost use Rattle.rx_lint.specs.Rules.{is_empty_class, is_union, has_two_or_more, is_empty_alternative, is_unused, is_once};

use crate::earlier::Mark;
use rx_ast::{CharacterClassContentsKind, RegExpAstKind};
use std::collections::BTreeSet;

/// Whether a node is a class that is not negative and has no items.
pub(crate) fn is_empty_class(node: RegExpAstKind<'_>) -> bool
    ensures { result ≡ is_empty_class (mirror_kind node.entry) }
{
    match node {
        RegExpAstKind::CharacterClass(it) => match it.body.get(0) {
            Some(_) => false,
            None => !it.negative,
        },
        _ => false,
    }
}

/// Whether a node is a class that matches what any of its items does.
pub(crate) fn is_union(node: RegExpAstKind<'_>) -> bool
    ensures { result ≡ is_union (Some (mirror_kind node.entry)) }
{
    match node {
        RegExpAstKind::CharacterClass(it) => match it.kind {
            CharacterClassContentsKind::Union => true,
            CharacterClassContentsKind::Intersection => false,
            CharacterClassContentsKind::Subtraction => false,
        },
        _ => false,
    }
}

/// Whether a node is an item of a class that an earlier one makes useless.
pub(crate) fn is_repeated_item(node: RegExpAstKind<'_>, mark: Mark) -> bool
    ensures { result ≡ is_repeated_item mark (mirror_kind node.entry) }
{
    match node {
        RegExpAstKind::CharacterClassContents(_) => mark.is_repeated,
        _ => false,
    }
}

/// Whether a node is a disjunction of two or more alternatives.
pub(crate) fn has_two_or_more(node: RegExpAstKind<'_>) -> bool
    ensures { result ≡ has_two_or_more (Some (mirror_kind node.entry)) }
{
    match node {
        RegExpAstKind::Disjunction(it) => match it.body.get(1) {
            Some(_) => true,
            None => false,
        },
        _ => false,
    }
}

/// Whether a node is an alternative without terms.
fn is_empty_alternative(node: RegExpAstKind<'_>) -> bool
    ensures { result ≡ is_empty_alternative (mirror_kind node.entry) }
{
    match node {
        RegExpAstKind::Alternative(it) => match it.body.get(0) {
            Some(_) => false,
            None => true,
        },
        _ => false,
    }
}

/// Whether a node is an alternative without terms beside others.
pub(crate) fn is_empty_of_many(node: RegExpAstKind<'_>, mark: Mark) -> bool
    ensures { result ≡ (is_empty_alternative (mirror_kind node.entry) && mark.is_one_of_many) }
{
    is_empty_alternative(node) && mark.is_one_of_many
}

/// Whether a node is an alternative that an earlier one is equal to.
pub(crate) fn is_repeated_alternative(node: RegExpAstKind<'_>, mark: Mark) -> bool
    ensures { result ≡ is_repeated_alternative mark (mirror_kind node.entry) }
{
    match node {
        RegExpAstKind::Alternative(_) => mark.is_repeated,
        _ => false,
    }
}

/// Whether a node is a group with a name that no named reference has.
pub(crate) fn is_unused(node: RegExpAstKind<'_>, names: &BTreeSet<&str>) -> bool
    ensures { (p : Whole) → AreReferred names.now p → result ≡ is_unused p (mirror_kind node.entry) }
{
    match node {
        RegExpAstKind::CapturingGroup(it) => match &it.name {
            Some(name) => !names.contains(name.as_str()),
            None => false,
        },
        _ => false,
    }
}

/// Whether a node is a quantifier that repeats once.
pub(crate) fn is_once(node: RegExpAstKind<'_>) -> bool
    ensures { result ≡ is_once (mirror_kind node.entry) }
{
    match node {
        RegExpAstKind::Quantifier(it) => match it.max {
            Some(max) => it.min == 1 && max == 1,
            None => false,
        },
        _ => false,
    }
}
