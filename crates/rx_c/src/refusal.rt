ghost use Rattle.rx_c.specs.Told.{HoldsNoRefusal};

use rx_records::Range;
use std::mem::size_of;

/// Why a pattern was not read. Texts are UTF-8.
#[repr(C)]
#[derive(Clone, Copy)]
pub struct Refusal<'a> {
    /// What the refusal is called, with NUL after it.
    pub name: &'a [u8],

    /// Which kind of its name it is, where there are several, with NUL after it.
    pub kind: &'a [u8],

    /// Its message, with NUL after it.
    pub message: &'a [u8],

    /// What to write instead, where that can be said, with NUL after it.
    pub help: &'a [u8],

    /// Where the texts stand that it holds, in the texts of the reading: a flag, the names of groups, or the name of a property.
    pub values: &'a [Range],

    /// In which text its spans lie: 0 for the pattern, 1 for the flags.
    pub field: u32,

    /// How many spans it has, 1 or 2; 0 where nothing was refused.
    pub span_count: u32,

    /// How many groups there are, where one past them was asked for.
    pub max: u32,

    /// Always 0.
    pub spare: u32,
    pub first: Range,
    pub second: Range,
}

const _: () = prove!(size_of::<Refusal<'static>>() == 112);

impl<'a> Refusal<'a> {
    /// Nothing was refused.
    pub fn none() -> Refusal<'a>
        ensures { HoldsNoRefusal result }
    {
        Refusal {
            name: &[],
            kind: &[],
            message: &[],
            help: &[],
            values: &[],
            field: 0,
            span_count: 0,
            max: 0,
            spare: 0,
            first: Range::default(),
            second: Range::default(),
        }
    }
}
