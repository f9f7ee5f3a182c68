ghost use Rattle.std.specs.Prelude.{◌≡◌, ◌++◌, IfOk, OnOk};
ghost use Rattle.std.specs.Str.{chars};
ghost use Rattle.rx_trace.specs.Units.{character_values};
ghost use Rattle.rx_units.specs.Units.{literal_units, values};

use rx_base::{List, OutOfMemory};
use std::alloc::Global;

/// The units that a pattern is matched on: the characters of a text, or without `unicode_mode` its UTF-16 code units (ECMA-262, 22.2.7.2).
pub fn units_of(alloc: Global, text: &str, unicode_mode: bool) -> Result<List<u32>, OutOfMemory>
    ensures { IfOk result (λ units. units ≡ values (literal_units unicode_mode 0 (chars text.now))) }
{
    let mut units = List::new(alloc);
    for c in text.chars() {
        push_units(&mut units, c, unicode_mode)?;
    }
    Ok(units)
}

/// Adds the units of a character.
fn push_units(units: &mut List<u32>, c: char, unicode_mode: bool) -> Result<(), OutOfMemory>
    ensures { OnOk result (units.new ≡ units.old ++ character_values unicode_mode c) }
{
    let value = c as u32;
    if unicode_mode || value < 0x10000 {
        return units.push(value);
    }
    let past = value - 0x10000;
    units.push(0xd800 + past / 0x400)?;
    units.push(0xdc00 + past % 0x400)
}
