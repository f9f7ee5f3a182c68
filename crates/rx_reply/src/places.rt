ghost use Rattle.std.specs.Prelude.{◌≡◌, ◌++◌, OnOk};
ghost use Rattle.std.specs.Fmt.{decimal};
ghost use Rattle.rx_reply.specs.Places.{range_text, span_text};

use crate::decimal::add_decimal;
use rx_base::{List, OutOfMemory, Span};

/// Adds two places, with two points between.
pub fn add_range(bytes: &mut List<u8>, start: usize, end: usize) -> Result<(), OutOfMemory>
    ensures { OnOk result (bytes.new ≡ bytes.old ++ range_text start end) }
{
    add_place(bytes, start)?;
    bytes.extend_from_slice(b"..")?;
    add_place(bytes, end)
}

/// Adds a place. Most of those in short patterns are one digit.
#[tactic(auto, using(std::proofs::lemmas::Fmt::decimal_digit))]
fn add_place(bytes: &mut List<u8>, place: usize) -> Result<(), OutOfMemory>
    ensures { OnOk result (bytes.new ≡ bytes.old ++ decimal place) }
{
    if place < 10 {
        return bytes.push(b'0' + place as u8);
    }
    add_decimal(bytes, place)
}

/// Adds the ends of a span. After an error a part of them may stand at the end.
pub fn add_span(bytes: &mut List<u8>, span: Span) -> Result<(), OutOfMemory>
    ensures { OnOk result (bytes.new ≡ bytes.old ++ span_text span) }
{
    add_range(bytes, span.start as usize, span.end as usize)
}
