use crate::{Ahead, CodePoint, Unit};
use rx_base::List;

/// What a reader reads its units from: a list of them, or the bytes of ASCII text.
pub trait UnitSource: Drop {
    ghost use Rattle.std.specs.Prelude.{◌≡◌, ◌<◌, ◌^◌, List, length};
    ghost use Rattle.rx_units.specs.declared.code_point.CodePoint.{CodePoint};

    /// How a unit is stored.
    type Unit: Unit;

    /// The units.
    ghost units: { Self → List CodePoint };

    /// All the units, from place 0 on.
    fn all(&self) -> Ahead<'_, Self::Unit>
        ensures units { result ≡ units self.now }
        ensures short { length result < 2 ^ 63 };
}

impl UnitSource for List<CodePoint> {
    type Unit = CodePoint;

    ghost units = { λ units. units };

    #[inline(always)]
    fn all(&self) -> Ahead<'_, CodePoint> {
        Ahead::of(self.as_slice())
    }
}

impl<'b> UnitSource for &'b [u8] {
    type Unit = u8;

    ghost use Rattle.rx_units.specs.Bytes.{byte_units};

    ghost units = { λ bytes. byte_units 0 bytes.now };

    #[tactic(auto, using(crate::proofs::UnitLists::bytes_are, crate::proofs::UnitLists::units_length))]
    #[inline(always)]
    fn all(&self) -> Ahead<'_, u8> {
        Ahead::new(self, 0)
    }
}
