ghost use Rattle.std.specs.Prelude.{◌≡◌, ◌+◌, ◌^◌, ◌≤◌, ◌++◌, [], ◌∷◌, IfOk, MatchResult, OnErr, OnOk, encode_utf8_all, length};
ghost use Rattle.std.specs.String.{string_bytes};
ghost use Rattle.rx_ast.specs.Kinds.{character};
ghost use Rattle.rx_ast.specs.MirrorKinds.{mirror_kind};
ghost use Rattle.rx_records.specs.Made.{AddsNode, with_end};
ghost use Rattle.rx_records.specs.Ranges.{bytes_at};
ghost use Rattle.rx_records.specs.Records.{with_links};

use crate::node::{Node, Range};
use crate::own::character_record;
use rx_ast::{Character, RegExpAstKind};
use rx_base::{OutOfMemory, Text};
use std::alloc::Global;

/// The records that were made so far.
#[derive(Drop)]
pub struct Records {
    pub nodes: Vec<Node>,

    /// The indices of the capturing groups.
    pub groups: Vec<u32>,

    /// Names and values, one after the other.
    pub texts: String,
}

/// What the record of a node says of the nodes in it: how many stand directly in it, and where the nodes after all of them begin.
#[derive(Clone, Copy)]
pub(crate) struct Links {
    pub children: u32,
    pub next: u32,
}

impl Records {
    /// Nothing yet, with memory for so many nodes at once.
    pub fn with_room(alloc: Global, nodes: usize) -> Result<Records, OutOfMemory>
        ensures nodes { IfOk result (λ made. made.nodes.items ≡ []) }
        ensures groups { IfOk result (λ made. made.groups.items ≡ []) }
        ensures texts { IfOk result (λ made. string_bytes made.texts ≡ []) }
    {
        Ok(Records {
            nodes: Vec::with_capacity(alloc, nodes)?,
            groups: Vec::new(alloc),
            texts: String::new(alloc),
        })
    }

    /// Adds a record, with where it leads.
    #[inline(always)]
    pub(crate) fn push(&mut self, node: Node, links: Links) -> Result<(), OutOfMemory>
        ensures nodes { OnOk result (self.new.nodes.items ≡ self.old.nodes.items ++ with_links links.children links.next node ∷ []) }
        ensures groups { self.new.groups.items ≡ self.old.groups.items }
        ensures texts { string_bytes self.new.texts ≡ string_bytes self.old.texts }
    {
        let Links { children, next } = links;
        self.nodes.push(Node {
            children,
            next,
            ..node
        })?;
        Ok(())
    }

    /// Adds a node in which none stands.
    #[inline(always)]
    pub(crate) fn add_leaf(&mut self, node: RegExpAstKind<'_>) -> Result<(), OutOfMemory>
        ensures { OnOk result (AddsNode self.old self.new (mirror_kind node.entry) 0 (length self.old.nodes.items + 1)) }
    {
        let next = one_more(self.nodes.len())?;
        self.add(node, Links { children: 0, next })
    }

    /// Adds a character.
    #[inline(always)]
    pub(crate) fn add_character(&mut self, it: &Character) -> Result<(), OutOfMemory>
        ensures { OnOk result (AddsNode self.old self.new (character it.now) 0 (length self.old.nodes.items + 1)) }
    {
        let next = one_more(self.nodes.len())?;
        self.push(character_record(it), Links { children: 0, next })
    }

    /// Ends the node at an index: all that stand in it were added. An error comes where there are more records than fit.
    pub(crate) fn end(&mut self, at: u32) -> Result<(), OutOfMemory>
        ensures nodes { OnOk result (self.new.nodes.items ≡ with_end at (length self.old.nodes.items) self.old.nodes.items) }
        ensures too_many { OnErr result (2 ^ 32 ≤ length self.old.nodes.items) }
        ensures groups { self.new.groups.items ≡ self.old.groups.items }
        ensures texts { string_bytes self.new.texts ≡ string_bytes self.old.texts }
    {
        let next = as_u32(self.nodes.len())?;
        set_next(self.nodes.as_mut_slice(), at as usize, next);
        Ok(())
    }

    /// Adds the bytes of a text, and answers where they stand.
    #[tactic(auto, using(crate::proofs::Texts::text_bytes))]
    pub fn add_text(&mut self, text: &Text) -> Result<Range, OutOfMemory>
        ensures range { IfOk result (λ range. range ≡ bytes_at (length (string_bytes self.old.texts)) (encode_utf8_all text.now)) }
        ensures texts { OnOk result (string_bytes self.new.texts ≡ string_bytes self.old.texts ++ encode_utf8_all text.now) }
        ensures nodes { self.new.nodes.items ≡ self.old.nodes.items }
        ensures groups { self.new.groups.items ≡ self.old.groups.items }
    {
        let start = as_u32(self.texts.as_str().len())?;
        self.texts.push_str(text.as_str())?;
        let end = as_u32(self.texts.as_str().len())?;
        Ok(Range { start, end })
    }
}

/// Sets where the nodes after a node begin, if there is a node at the index.
fn set_next(nodes: &mut [Node], at: usize, next: u32)
    ensures { nodes.new ≡ with_end at next nodes.old }
{
    if at < nodes.len() {
        nodes[at].next = next;
    }
}

/// How many there are, or an error where that does not fit.
pub(crate) fn as_u32(count: usize) -> Result<u32, OutOfMemory>
    ensures { MatchResult result (λ n. n ≡ count) (λ _. 2 ^ 32 ≤ count) }
{
    u32::try_from(count).map_err(|_| OutOfMemory)
}

/// One more than there are, or an error where that does not fit.
pub(crate) fn one_more(count: usize) -> Result<u32, OutOfMemory>
    ensures { MatchResult result (λ n. n ≡ count + 1) (λ _. 2 ^ 32 ≤ count + 1) }
{
    as_u32(count)?.checked_add(1).ok_or(OutOfMemory)
}
