ghost use Rattle.std.specs.Prelude.{⊤, ◌≡◌, ◌≢◌, ◌≤◌, ◌-◌, ◌%◌, ◌↔◌, [], ◌∷◌, codes, IsTrue, IsSome, IfSome};
ghost use Rattle.std.specs.Int.RustNames.{bit_and, bit_or, bit_xor};

use bitflags::{Flag, Flags};
use std::ops::{BitAnd, BitOr, BitXor, Not, Sub};

/// The modifiers before the `-` of a group, or those after it, such as the `i` or the `s` of `(?i-s:a)`: RegularExpressionModifiers of ECMA-262, 22.2.1.
/// A set of eight bits, three of which have a meaning.
#[derive(Clone, Copy, Debug, PartialEq, Eq, PartialOrd, Ord, Hash)]
pub struct Modifier(u8);

impl Modifier {
    /// `i`: upper and lower case match each other.
    pub const I: Modifier = Modifier(1);

    /// `m`: `^` and `$` match at the ends of lines too.
    pub const M: Modifier = Modifier(2);

    /// `s`: `.` matches line terminators too.
    pub const S: Modifier = Modifier(4);

    const FLAGS: &'static [Flag<Modifier>] = &[
        Flag {
            name: "I",
            value: Modifier::I,
        },
        Flag {
            name: "M",
            value: Modifier::M,
        },
        Flag {
            name: "S",
            value: Modifier::S,
        },
    ];

    /// No bit.
    pub fn empty() -> Modifier
        ensures { result.0 ≡ 0 }
    {
        Flags::empty()
    }

    /// The three bits that have a meaning.
    pub fn all() -> Modifier
        ensures { result.0 ≡ 7 }
    {
        Modifier(7)
    }

    /// All eight bits.
    pub fn bits(&self) -> u8
        ensures { result ≡ self.now.0 }
    {
        Flags::bits(self)
    }

    /// Keeps all eight bits.
    pub fn from_bits_retain(bits: u8) -> Modifier
        ensures { result.0 ≡ bits }
    {
        Flags::from_bits_retain(bits)
    }

    /// Keeps the three bits that have a meaning.
    pub fn from_bits_truncate(bits: u8) -> Modifier
        ensures { result.0 ≡ bits % 8 }
    {
        Modifier(bits % 8)
    }

    /// None where a bit is set that has no meaning.
    pub fn from_bits(bits: u8) -> Option<Modifier>
        ensures known { IsSome result ↔ (bits ≤ 7) }
        ensures value { IfSome result (λ it. it.0 ≡ bits) }
    {
        if bits <= 7 {
            Some(Modifier(bits))
        } else {
            None
        }
    }

    /// Whether none of the eight bits is set.
    pub fn is_empty(&self) -> bool
        ensures { IsTrue result ↔ (self.now.0 ≡ 0) }
    {
        Flags::is_empty(self)
    }

    /// Whether the three bits that have a meaning are set.
    pub fn is_all(&self) -> bool
        ensures { IsTrue result ↔ (self.now.0 % 8 ≡ 7) }
    {
        self.0 % 8 == 7
    }

    /// Whether each bit of the other is set.
    pub fn contains(&self, other: Modifier) -> bool
        ensures { IsTrue result ↔ (bit_and self.now.0 other.0 ≡ other.0) }
    {
        Flags::contains(self, other)
    }

    /// Whether a bit of the other is set.
    pub fn intersects(&self, other: Modifier) -> bool
        ensures { IsTrue result ↔ (bit_and self.now.0 other.0 ≢ 0) }
    {
        Flags::intersects(self, other)
    }

    /// Sets the bits of the other.
    pub fn insert(&mut self, other: Modifier)
        ensures { self.new.0 ≡ bit_or self.old.0 other.0 }
    {
        Flags::insert(self, other);
    }

    /// Clears the bits of the other.
    pub fn remove(&mut self, other: Modifier)
        ensures { self.new.0 ≡ bit_and self.old.0 (255 - other.0) }
    {
        Flags::remove(self, other);
    }

    /// Flips the bits of the other.
    pub fn toggle(&mut self, other: Modifier)
        ensures { self.new.0 ≡ bit_xor self.old.0 other.0 }
    {
        Flags::toggle(self, other);
    }

    /// The bits that are set in either.
    pub fn union(self, other: Modifier) -> Modifier
        ensures { result.0 ≡ bit_or self.0 other.0 }
    {
        Flags::union(self, other)
    }

    /// The bits that are set in both.
    pub fn intersection(self, other: Modifier) -> Modifier
        ensures { result.0 ≡ bit_and self.0 other.0 }
    {
        Flags::intersection(self, other)
    }

    /// The bits that are set here and not in the other.
    pub fn difference(self, other: Modifier) -> Modifier
        ensures { result.0 ≡ bit_and self.0 (255 - other.0) }
    {
        Flags::difference(self, other)
    }

    /// The bits that are set in one and not in the other.
    pub fn symmetric_difference(self, other: Modifier) -> Modifier
        ensures { result.0 ≡ bit_xor self.0 other.0 }
    {
        Flags::symmetric_difference(self, other)
    }

    /// Of the three bits that have a meaning, those that are not set.
    pub fn complement(self) -> Modifier
        ensures { result.0 ≡ (255 - self.0) % 8 }
    {
        Modifier::from_bits_truncate(!self.0)
    }
}

impl Flags for Modifier {
    type Bits = u8;

    ghost exact = { ⊤ };

    ghost table = { (codes "I", 1) ∷ (codes "M", 2) ∷ (codes "S", 4) ∷ [] };

    ghost set_of = { λ it. it.0 };

    fn flags<'a>() -> &'a [Flag<Modifier>] {
        Modifier::FLAGS
    }

    fn bits(&self) -> u8 {
        self.0
    }

    fn from_bits_retain(bits: u8) -> Modifier {
        Modifier(bits)
    }
}

impl BitOr for Modifier {
    ghost use Rattle.std.specs.Prelude.{◌≡◌};
    ghost use Rattle.std.specs.Int.RustNames.{bit_or};

    type Output = Modifier;

    ghost bitor_gives = { λ a b it. it.0 ≡ bit_or a.0 b.0 };

    fn bitor(self, other: Modifier) -> Modifier {
        self.union(other)
    }
}

impl BitAnd for Modifier {
    ghost use Rattle.std.specs.Prelude.{◌≡◌};
    ghost use Rattle.std.specs.Int.RustNames.{bit_and};

    type Output = Modifier;

    ghost bitand_gives = { λ a b it. it.0 ≡ bit_and a.0 b.0 };

    fn bitand(self, other: Modifier) -> Modifier {
        self.intersection(other)
    }
}

impl Sub for Modifier {
    ghost use Rattle.std.specs.Prelude.{◌≡◌, ◌-◌};
    ghost use Rattle.std.specs.Int.RustNames.{bit_and};

    type Output = Modifier;

    ghost sub_gives = { λ a b it. it.0 ≡ bit_and a.0 (255 - b.0) };

    fn sub(self, other: Modifier) -> Modifier {
        self.difference(other)
    }
}

impl BitXor for Modifier {
    ghost use Rattle.std.specs.Prelude.{◌≡◌};
    ghost use Rattle.std.specs.Int.RustNames.{bit_xor};

    type Output = Modifier;

    ghost bitxor_gives = { λ a b it. it.0 ≡ bit_xor a.0 b.0 };

    fn bitxor(self, other: Modifier) -> Modifier {
        self.symmetric_difference(other)
    }
}

impl Not for Modifier {
    ghost use Rattle.std.specs.Prelude.{◌≡◌, ◌-◌, ◌%◌};

    type Output = Modifier;

    ghost not_gives = { λ a it. it.0 ≡ (255 - a.0) % 8 };

    fn not(self) -> Modifier {
        self.complement()
    }
}
