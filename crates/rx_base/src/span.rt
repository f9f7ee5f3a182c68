ghost use Rattle.std.specs.Prelude.{◌≡◌, ◌+◌, ◌<◌, ◌^◌, min, max};

/// A part of a text, from the byte at `start` to before the byte at `end`.
#[derive(Clone, Copy, Debug, Default, PartialEq, Eq)]
pub struct Span {
    pub start: u32,
    pub end: u32,
}

impl Span {
    #[inline]
    pub fn new(start: u32, end: u32) -> Span
        ensures { result ≡ record { start = start; end = end } }
    {
        Span { start, end }
    }

    /// Covers nothing.
    pub fn empty(at: u32) -> Span
        ensures { result ≡ record { start = at; end = at } }
    {
        Span { start: at, end: at }
    }

    /// Covers `size` bytes.
    pub fn sized(start: u32, size: u32) -> Span
        requires { start + size < 2 ^ 32 }
        ensures { result ≡ record { start = start; end = start + size } }
    {
        Span {
            start,
            end: start + size,
        }
    }

    /// From the smaller start to the larger end.
    pub fn merge(self, other: Span) -> Span
        ensures { result ≡ record { start = min self.start other.start; end = max self.end other.end } }
    {
        Span {
            start: self.start.min(other.start),
            end: self.end.max(other.end),
        }
    }
}

/// What stands somewhere in a text.
pub trait GetSpan {
    ghost use Rattle.rx_base.specs.declared.span.Span.{Span};

    ghost place: { Self → Span };

    /// Where it stands, in bytes.
    fn span(&self) -> Span
        ensures { result ≡ place self.now };
}
