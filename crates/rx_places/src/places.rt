ghost use Rattle.std.specs.Prelude.{◌≡◌, ◌∷◌, ◌++◌, ◌+◌, ◌<◌, ◌≤◌, ◌^◌, IfOk, OnOk, length, replicate};
ghost use Rattle.std.specs.Str.{chars};
ghost use Rattle.rx_places.specs.Places.{IsTable, all_bytes, all_units, in_utf16, later_units, len_utf16, units_before};

use rx_base::{List, OutOfMemory};
use std::alloc::Global;

/// Where the bytes of a text stand in UTF-16, so much being added to each place.
#[derive(Drop)]
pub struct Places<'a> {
    pub text: &'a str,
    pub offset: u32,

    /// How many code units stand before each byte and before the end; nothing where each character is one byte.
    units: List<u32>,

    /// How many more bytes than code units the text has.
    surplus: u32,
    ghost fits: { offset + all_bytes (chars text.now) < 2 ^ 32 },
    ghost told: { IsTable (chars text.now) units surplus },
}

impl<'a> Places<'a> {
    /// Goes over the text once.
    pub fn new(alloc: Global, text: &'a str, offset: u32) -> Result<Places<'a>, OutOfMemory>
        requires { offset + length text.now < 2 ^ 32 }
        ensures text { IfOk result (λ places. places.text.now ≡ text.now) }
        ensures offset { IfOk result (λ places. places.offset ≡ offset) }
    {
        if text.is_ascii() {
            return Ok(Places {
                text,
                offset,
                units: List::new(alloc),
                surplus: 0,
            });
        }
        let (units, all) = units_before_bytes(alloc, text)?;
        Ok(Places {
            text,
            offset,
            units,
            surplus: text.len() as u32 - all,
        })
    }

    /// The place in UTF-16 of a place in bytes. What stands past the end of the text counts as one unit a byte, and so does what stands in for an empty text.
    #[tactic(auto, using(crate::proofs::Tables::utf16_fits))]
    pub fn in_utf16(&self, place: u32) -> u32
        ensures { result ≡ in_utf16 (chars self.now.text.now) self.now.offset place }
    {
        let at = place.saturating_sub(self.offset);
        self.offset + self.units_before(at)
    }

    fn units_before(&self, at: u32) -> u32
        ensures { result ≡ units_before (chars self.now.text.now) at }
    {
        match self.units.get(at as usize) {
            Some(units) => *units,
            None => at - self.surplus,
        }
    }
}

/// How many code units stand before each byte of a text, and before its end; and how many there are.
fn units_before_bytes(alloc: Global, text: &str) -> Result<(List<u32>, u32), OutOfMemory>
    requires { length text.now < 2 ^ 32 }
    ensures table { IfOk result (λ found. found.0 ≡ 0 ∷ later_units 0 (chars text.now)) }
    ensures all { IfOk result (λ found. found.1 ≡ all_units (chars text.now)) }
{
    let mut table = List::with_capacity(alloc, text.len() + 1)?;
    table.push(0)?;
    let mut units: u32 = 0;
    for c in text.chars() {
        units += units_of(c);
        push_often(&mut table, c.len_utf8(), units)?;
    }
    Ok((table, units))
}

/// How many code units a character has.
fn units_of(c: char) -> u32
    ensures { result ≡ len_utf16 c }
{
    if (c as u32) < 0x10000 { 1 } else { 2 }
}

/// Adds a number so many times.
fn push_often(table: &mut List<u32>, count: usize, number: u32) -> Result<(), OutOfMemory>
    ensures { OnOk result (table.new ≡ table.old ++ replicate count number) }
{
    for _ in 0..count {
        table.push(number)?;
    }
    Ok(())
}
