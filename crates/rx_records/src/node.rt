use rx_base::Span;
use std::mem::size_of;

/// A part of a text, from the place `start` to before the place `end`.
#[repr(C)]
#[derive(Clone, Copy, Debug, Default, PartialEq, Eq)]
pub struct Range {
    pub start: u32,
    pub end: u32,
}

/// The record of a node of a tree. What a node of its type does not have is 0, false or empty.
#[repr(C)]
#[derive(Clone, Copy, Debug, Default, PartialEq, Eq)]
pub struct Node {
    /// Of which type it is: one of the constants from `PATTERN` to `NAMED_REFERENCE`.
    pub node_type: u8,

    /// Which of its type it is. Each kind has a number of its own.
    pub kind: u8,

    /// The modifiers that a group enables, by their bits.
    pub enabling: u8,

    /// The modifiers that it disables.
    pub disabling: u8,
    pub negative: bool,
    pub strings: bool,
    pub greedy: bool,

    /// Whether there is a greatest number, `max`.
    pub has_max: bool,
    pub has_name: bool,
    pub has_property_value: bool,
    pub has_modifiers: bool,

    /// Always false.
    pub spare: bool,

    /// Of a character its value, of a reference the number of its group, of a capturing group its own number.
    pub number: u32,
    pub span: Range,

    /// How many nodes stand directly in it. The first of them has the next record.
    pub children: u32,

    /// The index of the node after it and all that stand in it.
    pub next: u32,

    /// Where the modifiers of a group stand.
    pub modifiers: Range,

    /// Its name, among the texts.
    pub name: Range,

    /// The value of a property, among the texts.
    pub property_value: Range,

    /// How often a quantifier's body must match at least.
    pub min: u64,

    /// How often it may match at most.
    pub max: u64,
}

const _: () = prove!(size_of::<Node>() == 72);

impl Range {
    ghost use Rattle.std.specs.Prelude.{◌≡◌};
    ghost use Rattle.rx_records.specs.Ranges.{range_of};

    pub fn of(span: Span) -> Range
        ensures { result ≡ range_of span }
    {
        Range {
            start: span.start,
            end: span.end,
        }
    }
}

impl Node {
    ghost use Rattle.std.specs.Prelude.{◌≡◌};
    ghost use Rattle.rx_records.specs.Nodes.{of_kind, plain, with_strings};

    /// A node of which nothing is told but its type and its span.
    pub fn plain(node_type: u8, span: Span) -> Node
        ensures { result ≡ plain node_type span }
    {
        Node {
            node_type,
            span: Range::of(span),
            ..Node::default()
        }
    }

    pub fn of_kind(self, kind: u8) -> Node
        ensures { result ≡ of_kind kind self }
    {
        Node { kind, ..self }
    }

    pub fn with_strings(self, strings: bool) -> Node
        ensures { result ≡ with_strings strings self }
    {
        Node { strings, ..self }
    }
}
