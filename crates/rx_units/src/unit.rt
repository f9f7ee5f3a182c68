use crate::{CodePoint, EscapeKind};

/// How a unit is stored: decoded, with its span, or as a byte of ASCII text, whose span its place gives.
pub trait Unit: Copy {
    ghost use Rattle.std.specs.Prelude.{◌≡◌, ◌+◌, ◌<◌, ◌^◌, ℕ};
    ghost use Rattle.rx_units.specs.declared.code_point.CodePoint.{CodePoint};

    /// The unit that an item stands for at a place of its list.
    ghost unit: { ℕ → Self → CodePoint };

    /// The value of an item, which is that of its unit at each place.
    ghost value: { Self → ℕ };

    /// The value of the unit: a code point, or a UTF-16 code unit.
    fn value(self) -> u32
        ensures { result ≡ value self };

    /// How the unit was written.
    fn escape_kind(self) -> EscapeKind
        ensures { (place : ℕ) → result ≡ (unit place self).escape_kind };

    /// Where the unit ends, in bytes, if the item stands at this place of its list.
    fn end(self, place: usize) -> u32
        requires { place + 1 < 2 ^ 64 }
        ensures { result ≡ (unit place self).span.end };

    ghost value_is: { (place : ℕ) (item : Self) → (unit place item).value ≡ value item };
}

impl Unit for CodePoint {
    ghost use Rattle.std.specs.Prelude.{refl};

    ghost unit = { λ _ u. u };

    ghost value = { λ u. u.value };

    ghost value_is = { λ _ _. refl };

    #[inline(always)]
    fn value(self) -> u32 {
        self.value
    }

    #[inline(always)]
    fn escape_kind(self) -> EscapeKind {
        self.escape_kind
    }

    #[inline(always)]
    fn end(self, _place: usize) -> u32 {
        self.span.end
    }
}

impl Unit for u8 {
    ghost use Rattle.std.specs.Prelude.{◌+◌, ◌%◌, ◌^◌, refl};
    ghost use Rattle.rx_units.specs.declared.code_point.EscapeKind.TheVariants as kind;
    ghost use Rattle.rx_units.specs.Units.{unit};

    ghost unit = { λ place b. unit place ((place + 1) % 2 ^ 32) b kind.None };

    ghost value = { λ b. b };

    ghost value_is = { λ _ _. refl };

    #[inline(always)]
    fn value(self) -> u32 {
        self as u32
    }

    #[inline(always)]
    fn escape_kind(self) -> EscapeKind {
        EscapeKind::None
    }

    #[inline(always)]
    fn end(self, place: usize) -> u32 {
        // A text has fewer than 2^32 bytes, so the remainder changes nothing. It stands for a bound that no contract here gives.
        ((place + 1) % (1 << 32)) as u32
    }
}
