ghost use Rattle.std.specs.Prelude.{◌≡◌, ◌+◌, ◌*◌, ◌<◌, ◌^◌, IfOk, OnOk, map};
ghost use Rattle.rx_ast.specs.Size.{alternatives_size, node_size, nodes_size};
ghost use Rattle.rx_ast.specs.Tree.{alternatives as alternatives_of, mirror_alternative, mirror_term, nodes};
ghost use Rattle.rx_model.specs.Trees.Names.{alternatives_groups, groups, node_groups, nodes_groups};
ghost use Rattle.rx_example.specs.Parts.{part_groups, part_size, waiting_groups, waiting_size};

use rx_ast::{Alternative, Pattern, Term};
use rx_base::{List, OutOfMemory};
use std::alloc::Global;

/// A part of a tree that is still to be counted.
#[derive(Clone, Copy)]
enum Part<'a> {
    Alternatives(&'a [Alternative]),
    Terms(&'a [Term]),

    /// The body of a quantifier.
    Body(&'a Term),
}

/// How many groups of a tree capture. A loop over a list on the heap, so that a deep tree needs no deep stack.
pub fn capturing_groups(alloc: Global, pattern: &Pattern) -> Result<u64, OutOfMemory>
    requires { groups pattern.now < 2 ^ 64 }
    ensures { IfOk result (λ count. count ≡ groups pattern.now) }
{
    let mut count = 0;
    let mut waiting = List::new(alloc);
    waiting.push(Part::Alternatives(pattern.body.body.as_slice()))?;
    while let Some(part) = waiting.pop() {
        count += open(&mut waiting, part)?;
    }
    Ok(count)
}

/// Leaves what a part holds to later turns, and says how many groups were counted at once.
fn open<'a>(waiting: &mut List<Part<'a>>, part: Part<'a>) -> Result<u64, OutOfMemory>
    ensures groups { IfOk result (λ own. own + waiting_groups waiting.new ≡ waiting_groups waiting.old + part_groups part.entry) }
    ensures size { OnOk result (waiting_size waiting.new < waiting_size waiting.old + part_size part.entry) }
{
    match part {
        Part::Alternatives(alternatives) => {
            open_alternatives(waiting, alternatives)?;
            Ok(0)
        }
        Part::Terms(terms) => open_terms(waiting, terms),
        Part::Body(term) => open_term(waiting, term),
    }
}

/// The same of alternatives, which are no groups.
fn open_alternatives<'a>(
    waiting: &mut List<Part<'a>>,
    alternatives: &'a [Alternative],
) -> Result<(), OutOfMemory>
    ensures groups { OnOk result (waiting_groups waiting.new ≡ waiting_groups waiting.old + alternatives_groups (alternatives_of (map mirror_alternative alternatives.now))) }
    ensures size { OnOk result (waiting_size waiting.new < waiting_size waiting.old + (1 + 2 * alternatives_size (alternatives_of (map mirror_alternative alternatives.now)))) }
{
    if let Some((first, rest)) = alternatives.split_first() {
        waiting.push(Part::Alternatives(rest))?;
        waiting.push(Part::Terms(first.body.as_slice()))?;
    }
    Ok(())
}

/// The same of terms.
fn open_terms<'a>(waiting: &mut List<Part<'a>>, terms: &'a [Term]) -> Result<u64, OutOfMemory>
    ensures groups { IfOk result (λ own. own + waiting_groups waiting.new ≡ waiting_groups waiting.old + nodes_groups (nodes (map mirror_term terms.now))) }
    ensures size { OnOk result (waiting_size waiting.new < waiting_size waiting.old + (1 + 2 * nodes_size (nodes (map mirror_term terms.now)))) }
{
    let Some((first, rest)) = terms.split_first() else {
        return Ok(0);
    };
    waiting.push(Part::Terms(rest))?;
    let own = open_term(waiting, first)?;
    Ok(own)
}

/// The same of a term.
#[tactic(auto, using(crate::proofs::Parts::parts))]
fn open_term<'a>(waiting: &mut List<Part<'a>>, term: &'a Term) -> Result<u64, OutOfMemory>
    ensures groups { IfOk result (λ own. own + waiting_groups waiting.new ≡ waiting_groups waiting.old + node_groups (mirror_term term.now)) }
    ensures size { OnOk result (waiting_size waiting.new < waiting_size waiting.old + 2 * node_size (mirror_term term.now)) }
{
    match term {
        Term::Quantifier(it) => {
            waiting.push(Part::Body(&it.body))?;
            Ok(0)
        }
        Term::LookAroundAssertion(it) => {
            waiting.push(Part::Alternatives(it.body.body.as_slice()))?;
            Ok(0)
        }
        Term::IgnoreGroup(it) => {
            waiting.push(Part::Alternatives(it.body.body.as_slice()))?;
            Ok(0)
        }
        Term::CapturingGroup(it) => {
            waiting.push(Part::Alternatives(it.body.body.as_slice()))?;
            Ok(1)
        }
        Term::BoundaryAssertion(_) => Ok(0),
        Term::Character(_) => Ok(0),
        Term::Dot(_) => Ok(0),
        Term::CharacterClassEscape(_) => Ok(0),
        Term::UnicodePropertyEscape(_) => Ok(0),
        Term::CharacterClass(_) => Ok(0),
        Term::IndexedReference(_) => Ok(0),
        Term::NamedReference(_) => Ok(0),
    }
}
