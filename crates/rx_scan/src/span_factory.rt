ghost use Rattle.std.specs.Prelude.{◌≡◌, ◌+◌, ◌<◌, ◌^◌};

use rx_base::Span;
use std::marker::Model;

/// Makes spans with an offset added to both ends, in bytes. Contracts see it as that offset.
#[derive(Clone, Copy, Debug)]
pub struct SpanFactory {
    span_offset: u32,
}

impl Model for SpanFactory {
    ghost use Rattle.std.specs.Prelude.{ℕ};

    ghost Value = { ℕ };

    ghost view = { λ spans. spans.span_offset };

    ghost inverse = { λ offset. record { span_offset = offset } };
}

impl SpanFactory {
    /// Makes spans with this offset, in bytes.
    pub fn new(span_offset: u32) -> SpanFactory
        ensures { result ≡ span_offset }
    {
        SpanFactory { span_offset }
    }

    /// The span from `start` to `end`, with the offset added to both.
    #[inline]
    pub fn create(&self, start: u32, end: u32) -> Span
        requires start { start + self.now < 2 ^ 32 }
        requires end { end + self.now < 2 ^ 32 }
        ensures { result ≡ record { start = start + self.now; end = end + self.now } }
    {
        Span::new(start + self.span_offset, end + self.span_offset)
    }
}
