ghost use Rattle.std.specs.Prelude.{◌≡◌};
ghost use Rattle.rx_paint.specs.Runs.{is_same, kind_number};

use rx_base::Span;

/// What a part of a pattern is painted as.
#[derive(Clone, Copy, Debug, PartialEq, Eq)]
pub enum Kind {
    /// A character that stands for itself: `a`.
    Char,

    /// A character that is written as an escape: `\n`, `\x41`, `\.`.
    Escape,

    /// `.`.
    Dot,

    /// A class escape or a property escape: `\d`, `\p{L}`.
    Set,

    /// What a class has besides its characters and sets: `[`, `^`, `-`, `&&`, `]`, and of `\q{a|b}` all but the characters.
    Class,

    /// A boundary: `^`, `$`, `\b`.
    Assert,

    /// The ends of a group or a lookaround: `(`, `(?:`, `(?<name>`, `(?<=`, `)`.
    Group,

    /// The modifiers of a group: the `i-m` of `(?i-m:a)`.
    Modifier,

    /// A quantifier: `*`, `+?`, `{1,2}`.
    Quantifier,

    /// A reference to a group: `\1`, `\k<name>`.
    Reference,

    /// The `|` between alternatives.
    Bar,

    /// What no other node owns. A pattern that is read has none of it.
    Other,
}

/// A longest run of neighbouring offsets with one owner, the deepest node whose span holds them.
#[derive(Clone, Copy, Debug, PartialEq, Eq)]
pub struct Token {
    /// Where it stands, in bytes of the source. It is not empty.
    pub span: Span,

    /// What its owner is painted as.
    pub kind: Kind,
}

impl Token {
    /// Whether two have one span and one kind.
    pub(crate) fn is_same(&self, other: &Token) -> bool
        ensures { result ≡ is_same self.now other.now }
    {
        self.span.start == other.span.start
            && self.span.end == other.span.end
            && number(self.kind) == number(other.kind)
    }
}

fn number(kind: Kind) -> u8
    ensures { result ≡ kind_number kind }
{
    match kind {
        Kind::Char => 0,
        Kind::Escape => 1,
        Kind::Dot => 2,
        Kind::Set => 3,
        Kind::Class => 4,
        Kind::Assert => 5,
        Kind::Group => 6,
        Kind::Modifier => 7,
        Kind::Quantifier => 8,
        Kind::Reference => 9,
        Kind::Bar => 10,
        Kind::Other => 11,
    }
}
