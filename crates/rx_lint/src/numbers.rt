ghost use Rattle.std.specs.Prelude.{◌≡◌, ◌++◌, ◌∷◌, [], length, map, IfOk};
ghost use Rattle.std.specs.Result.{OnOk};
ghost use Rattle.std.specs.Str.{chars};
ghost use Rattle.rx_ast.specs.ClassTree.{mirror_class};
ghost use Rattle.rx_ast.specs.Kinds.{property_escape, class as class_kind};
ghost use Rattle.rx_ast.specs.MirrorKinds.{mirror_kind, quantifier_kind};
ghost use Rattle.rx_lint.specs.Rows.{AreNumbered};
ghost use Rattle.rx_lint.specs.Numbers.{bit, max_numbers, name_numbers, optional_name_numbers, modifiers_numbers, own_numbers, node_numbers};

use rx_ast::{CharacterClass, Modifiers, Quantifier, RegExpAstKind, UnicodePropertyEscape};
use rx_base::{List, OutOfMemory, Text};
use rx_kinds::{boundary_code, class_escape_code, contents_code, count, look_code};
use rx_visit::children_of;
use std::alloc::Global;

fn bit(value: bool) -> u64
    ensures { result ≡ bit value }
{
    if value { 1 } else { 0 }
}

fn push_max(numbers: &mut List<u64>, max: Option<u64>) -> Result<(), OutOfMemory>
    ensures { OnOk result (numbers.new ≡ numbers.old ++ max_numbers max) }
{
    match max {
        None => numbers.push(0),
        Some(max) => {
            numbers.push(1)?;
            numbers.push(max)
        }
    }
}

fn push_name(numbers: &mut List<u64>, name: &str) -> Result<(), OutOfMemory>
    ensures { OnOk result (numbers.new ≡ numbers.old ++ name_numbers (chars name.now)) }
{
    for c in name.chars() {
        numbers.push(1)?;
        numbers.push(c as u64)?;
    }
    numbers.push(0)?;
    Ok(())
}

fn push_optional_name(numbers: &mut List<u64>, name: &Option<Text>) -> Result<(), OutOfMemory>
    ensures { OnOk result (numbers.new ≡ numbers.old ++ optional_name_numbers name.now) }
{
    match name {
        None => numbers.push(0),
        Some(name) => {
            numbers.push(1)?;
            push_name(numbers, name.as_str())
        }
    }
}

fn push_modifiers(numbers: &mut List<u64>, modifiers: &Option<Modifiers>) -> Result<(), OutOfMemory>
    ensures { OnOk result (numbers.new ≡ numbers.old ++ modifiers_numbers modifiers.now) }
{
    match modifiers {
        None => numbers.push(0),
        Some(modifiers) => {
            numbers.push(1)?;
            numbers.push(u64::from(modifiers.enabling.bits() % 8))?;
            numbers.push(u64::from(modifiers.disabling.bits() % 8))
        }
    }
}

fn push_quantifier(numbers: &mut List<u64>, quantifier: &Quantifier) -> Result<(), OutOfMemory>
    ensures { OnOk result (numbers.new ≡ numbers.old ++ own_numbers (quantifier_kind quantifier.now)) }
{
    numbers.push(5)?;
    numbers.push(quantifier.min)?;
    numbers.push(bit(quantifier.greedy))?;
    push_max(numbers, quantifier.max)
}

fn push_property(
    numbers: &mut List<u64>,
    property: &UnicodePropertyEscape,
) -> Result<(), OutOfMemory>
    ensures { OnOk result (numbers.new ≡ numbers.old ++ own_numbers (property_escape property.now)) }
{
    numbers.push(12)?;
    numbers.push(bit(property.negative))?;
    numbers.push(bit(property.strings))?;
    push_name(numbers, property.name.as_str())?;
    push_optional_name(numbers, &property.value)
}

#[tactic(auto, using(rx_ast::proofs::ClassEquations::class_mirrors))]
fn push_class(numbers: &mut List<u64>, class: &CharacterClass) -> Result<(), OutOfMemory>
    ensures { OnOk result (numbers.new ≡ numbers.old ++ own_numbers (class_kind (mirror_class class.now))) }
{
    numbers.push(13)?;
    numbers.push(bit(class.negative))?;
    numbers.push(bit(class.strings))?;
    numbers.push(u64::from(contents_code(class.kind)))
}

/// Two numbers.
fn push_both(numbers: &mut List<u64>, first: u64, second: u64) -> Result<(), OutOfMemory>
    ensures { OnOk result (numbers.new ≡ numbers.old ++ first ∷ second ∷ []) }
{
    numbers.push(first)?;
    numbers.push(second)
}

/// A number, and that of a kind.
fn push_kind(numbers: &mut List<u64>, first: u64, kind: u8) -> Result<(), OutOfMemory>
    ensures { OnOk result (numbers.new ≡ numbers.old ++ first ∷ kind ∷ []) }
{
    push_both(numbers, first, u64::from(kind))
}

/// What is compared of a node itself.
fn push_own(numbers: &mut List<u64>, node: RegExpAstKind<'_>) -> Result<(), OutOfMemory>
    ensures { OnOk result (numbers.new ≡ numbers.old ++ own_numbers (mirror_kind node.entry)) }
{
    match node {
        RegExpAstKind::Pattern(_) => numbers.push(0),
        RegExpAstKind::Disjunction(_) => numbers.push(1),
        RegExpAstKind::Alternative(_) => numbers.push(2),
        RegExpAstKind::Term(_) => numbers.push(3),
        RegExpAstKind::LookAroundAssertion(it) => push_kind(numbers, 4, look_code(it.kind)),
        RegExpAstKind::Quantifier(it) => push_quantifier(numbers, it),
        RegExpAstKind::CapturingGroup(it) => {
            numbers.push(6)?;
            push_optional_name(numbers, &it.name)
        }
        RegExpAstKind::IgnoreGroup(it) => {
            numbers.push(7)?;
            push_modifiers(numbers, &it.modifiers)
        }
        RegExpAstKind::BoundaryAssertion(it) => push_kind(numbers, 8, boundary_code(it.kind)),
        RegExpAstKind::Character(it) => push_both(numbers, 9, u64::from(it.value)),
        RegExpAstKind::Dot(_) => numbers.push(10),
        RegExpAstKind::CharacterClassEscape(it) => push_kind(
            numbers,
            11,
            class_escape_code(it.kind),
        ),
        RegExpAstKind::UnicodePropertyEscape(it) => push_property(numbers, it),
        RegExpAstKind::CharacterClass(it) => push_class(numbers, it),
        RegExpAstKind::CharacterClassContents(_) => numbers.push(14),
        RegExpAstKind::CharacterClassRange(_) => numbers.push(15),
        RegExpAstKind::CharacterClassStringDisjunction(it) => {
            push_both(numbers, 16, bit(it.strings))
        }
        RegExpAstKind::CharacterClassString(it) => push_both(numbers, 17, bit(it.strings)),
        RegExpAstKind::IndexedReference(it) => push_both(numbers, 18, u64::from(it.index)),
        RegExpAstKind::NamedReference(it) => {
            numbers.push(19)?;
            push_name(numbers, it.name.as_str())
        }
    }
}

/// A node, and where its numbers begin.
#[derive(Clone, Copy)]
pub(crate) struct Beginning<'a> {
    pub node: RegExpAstKind<'a>,
    pub start: usize,
}

/// The numbers of nodes that stand in order, and where those of each begin.
#[derive(Drop)]
pub(crate) struct Numbered<'a> {
    pub numbers: List<u64>,
    pub beginnings: List<Beginning<'a>>,
}

/// Adds the numbers of one node.
fn push_node(numbers: &mut List<u64>, node: RegExpAstKind<'_>) -> Result<(), OutOfMemory>
    ensures { OnOk result (numbers.new ≡ numbers.old ++ node_numbers (mirror_kind node.entry)) }
{
    numbers.push(count(children_of(node)) as u64)?;
    push_own(numbers, node)
}

/// The numbers of nodes that stand in order.
pub(crate) fn numbers_of<'a>(
    alloc: Global,
    nodes: &[RegExpAstKind<'a>],
) -> Result<Numbered<'a>, OutOfMemory>
    ensures { IfOk result (λ it. AreNumbered (map mirror_kind nodes.now) it.beginnings it.numbers) }
{
    let mut numbers = List::new(alloc);
    let mut beginnings = List::new(alloc);
    for node in nodes {
        beginnings.push(Beginning {
            node: *node,
            start: numbers.len(),
        })?;
        push_node(&mut numbers, *node)?;
    }
    Ok(Numbered {
        numbers,
        beginnings,
    })
}
