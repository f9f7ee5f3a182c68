//! Places in UTF-16.
ghost use Rattle.std.specs.Prelude.{◌≡◌, map};
ghost use Rattle.std.specs.Str.{chars};
ghost use Rattle.rx_places.specs.Places.{in_utf16};
ghost use Rattle.rx_c.specs.Placed.{moved_range, optional_in_units, moved_node, range_in_units};
ghost use Rattle.rx_records.specs.Ranges.{range_of};

use rx_base::Span;
use rx_places::Places;
use rx_records::{Node, Range};

/// Counts the places of the nodes in UTF-16 code units.
pub fn move_to_utf16(nodes: &mut [Node], places: &Places<'_>)
    ensures { nodes.new ≡ map (moved_node (in_utf16 (chars places.now.text.now) places.now.offset)) nodes.old }
{
    for node in nodes.iter_mut() {
        let before = *node;
        *node = node_in_utf16(before, places);
    }
}

fn node_in_utf16(node: Node, places: &Places<'_>) -> Node
    ensures { result ≡ moved_node (in_utf16 (chars places.now.text.now) places.now.offset) node }
{
    let span = range_in_utf16(node.span, places);
    if !node.has_modifiers {
        return Node { span, ..node };
    }
    let modifiers = range_in_utf16(node.modifiers, places);
    Node {
        span,
        modifiers,
        ..node
    }
}

fn range_in_utf16(range: Range, places: &Places<'_>) -> Range
    ensures { result ≡ moved_range (in_utf16 (chars places.now.text.now) places.now.offset) range }
{
    Range {
        start: places.in_utf16(range.start),
        end: places.in_utf16(range.end),
    }
}

/// Where a span lies, in bytes or in UTF-16 code units.
pub fn range_in_units(utf16: bool, span: Span, places: &Places<'_>) -> Range
    ensures { result ≡ range_in_units utf16 (chars places.now.text.now) places.now.offset (range_of span) }
{
    let range = Range::of(span);
    if utf16 {
        range_in_utf16(range, places)
    } else {
        range
    }
}

/// The same of a span that may be absent, and then no range.
pub fn optional_in_units(utf16: bool, span: Option<Span>, places: &Places<'_>) -> Range
    ensures { result ≡ optional_in_units utf16 (chars places.now.text.now) places.now.offset span }
{
    match span {
        Some(span) => range_in_units(utf16, span, places),
        None => Range::default(),
    }
}
