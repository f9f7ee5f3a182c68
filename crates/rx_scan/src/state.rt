ghost use Rattle.std.specs.Prelude.{◌≡◌, ◌+◌, ◌-◌, ◌^◌, ◌≤◌, ◌||◌, [], false, length, min, OnOk};
ghost use Rattle.rx_units.specs.Units.{offset_at};
ghost use Rattle.rx_model.specs.Inputs.Environment.{has_some, is_unicode};
ghost use Rattle.rx_scan.specs.StateFaults.{CountsGroups, mode_of_state};

use crate::first_pass::{FirstPass, PassFault};
use crate::{Environment, Names};
use rx_base::{Counter, Steps};
use rx_model::Mode;
use rx_units::{Ahead, Reader, Unit, UnitSource};
use std::alloc::Global;
use std::marker::Brand;
use std::sync::ledger::{Blank, Ledger};

/// What a pattern is read under.
#[derive(Debug, Drop)]
pub struct State {
    /// Whether the pattern is read by code points: with flag `u` or `v` (ECMA-262, 22.2.3.4).
    pub unicode_mode: bool,
    /// Whether classes are read as sets: with flag `v` (ECMA-262, 22.2.3.4).
    pub unicode_sets_mode: bool,
    /// Whether two groups may have one name where they never both take part (ECMA-262, 22.2.1.1); else no two may.
    pub duplicate_names: bool,
    /// Whether `\k` is always a reference (the parameter NamedCaptureGroups of ECMA-262, 22.2.1): in unicode mode, or where some
    /// group has a name.
    pub named_capture_groups: bool,
    /// How many groups capture (CountLeftCapturingParensWithin of ECMA-262, 22.2.1.2). It stays at its greatest value, 4294967295.
    pub num_of_capturing_groups: u32,
    /// The names of the groups (GroupSpecifier of ECMA-262, 22.2.1).
    pub capturing_group_names: Names,
}

/// Why the groups of a pattern were not counted.
#[derive(Clone, Copy, Debug, PartialEq, Eq)]
pub enum StateFault {
    /// There was not enough memory.
    OutOfMemory,
    /// Two names clash: no two groups may have one, or where two may, both might take part (ECMA-262, 22.2.1.1). Each pair is the
    /// offsets, in bytes, before and after a name, between its `<` and its `>`.
    Duplicated {
        first: (u32, u32),
        second: (u32, u32),
    },
}

impl State {
    /// The state before the pattern is read: no groups are counted. Takes no memory; the allocator is for the names that the
    /// pattern holds.
    pub fn new(
        alloc: Global,
        unicode_mode: bool,
        unicode_sets_mode: bool,
        duplicate_names: bool,
    ) -> State
        ensures unicode_mode { result.unicode_mode ≡ unicode_mode }
        ensures unicode_sets_mode { result.unicode_sets_mode ≡ unicode_sets_mode }
        ensures duplicate_names { result.duplicate_names ≡ duplicate_names }
        ensures named { result.named_capture_groups ≡ false }
        ensures groups { result.num_of_capturing_groups ≡ 0 }
        ensures names { result.capturing_group_names ≡ [] }
    {
        State {
            unicode_mode,
            unicode_sets_mode,
            duplicate_names,
            named_capture_groups: false,
            num_of_capturing_groups: 0,
            capturing_group_names: Names::new(alloc),
        }
    }

    /// The mode that the pattern is read in.
    pub fn mode(&self) -> Mode
        ensures { result ≡ mode_of_state self.now }
    {
        Mode::of(self.unicode_mode, self.unicode_sets_mode)
    }

    /// Goes over the whole pattern once, and counts its groups (CountLeftCapturingParensWithin of ECMA-262, 22.2.1.2) and lists their
    /// names, or refuses the first two equal names that clash (22.2.1.1). The reader stays at place 0. After an error
    /// the state is as it was.
    pub fn initialize_with_parsing<S: UnitSource>(
        &mut self,
        reader: &mut Reader<'_, S>,
    ) -> Result<(), StateFault>
        requires start { reader.old.place ≡ 0 }
        ensures reader { reader.new ≡ reader.old }
        ensures counted { CountsGroups self.old self.new reader.old result }
    {
        self.initialize_alone::<S, Brand>(reader, Blank::new(1))
    }

    /// The same, with a counter of its own.
    // Why: docs/DECISIONS.md, 98.
    fn initialize_alone<S: UnitSource, L: Ledger>(
        &mut self,
        reader: &mut Reader<'_, S>,
        blank: Blank,
    ) -> Result<(), StateFault>
        requires start { reader.old.place ≡ 0 }
        requires name { blank.name ≡ L.name }
        requires parts { blank.parts ≡ L.parts }
        requires one { blank.parts ≡ 1 }
        ensures reader { reader.new ≡ reader.old }
        ensures counted { CountsGroups self.old self.new reader.old result }
    {
        self.initialize_with_parsing_counted(reader, &mut Steps::<L>::new(blank))
    }

    /// Goes over the pattern as `initialize_with_parsing` does. Counts each unit that it goes over.
    pub fn initialize_with_parsing_counted<S: UnitSource, C: Counter>(
        &mut self,
        reader: &mut Reader<'_, S>,
        steps: &mut C,
    ) -> Result<(), StateFault>
        requires start { reader.old.place ≡ 0 }
        ensures reader { reader.new ≡ reader.old }
        ensures counted { CountsGroups self.old self.new reader.old result }
        ensures all { OnOk result (C.count steps.new ≡ C.count steps.old + length reader.old.units) }
        ensures most { C.count steps.new ≤ C.count steps.old + length reader.old.units }
    {
        let alloc = self.capturing_group_names.allocator();
        let units = reader.ahead();
        let start = reader.offset();
        match FirstPass::over(alloc, &units, self.mode(), self.duplicate_names, steps) {
            Ok(pass) => {
                self.keep(pass);
                Ok(())
            }
            Err(PassFault::OutOfMemory) => Err(StateFault::OutOfMemory),
            Err(PassFault::Duplicated { first, second }) => Err(StateFault::Duplicated {
                first: offsets_at(&units, start, first),
                second: offsets_at(&units, start, second),
            }),
        }
    }

    /// Takes over what a first pass has found.
    #[inline(always)]
    fn keep(&mut self, pass: FirstPass)
        ensures { self.new ≡ record self.old { named_capture_groups = is_unicode (mode_of_state self.old) || has_some pass.names; num_of_capturing_groups = min pass.count (2 ^ 32 - 1); capturing_group_names = pass.names } }
    {
        self.num_of_capturing_groups = u32::try_from(pass.count).unwrap_or(u32::MAX);
        self.capturing_group_names = pass.names;
        self.named_capture_groups = Environment::of(self, false).is_named();
    }
}

/// The offsets at two places of the units, where `start` is the offset before the first unit.
fn offsets_at<U: Unit>(units: &Ahead<'_, U>, start: u32, places: (usize, usize)) -> (u32, u32)
    ensures { result ≡ (offset_at start units.now places.0, offset_at start units.now places.1) }
{
    let (first, second) = places;
    (
        offset_at(units, start, first),
        offset_at(units, start, second),
    )
}

fn offset_at<U: Unit>(units: &Ahead<'_, U>, start: u32, place: usize) -> u32
    ensures { result ≡ offset_at start units.now place }
{
    let place = place.min(units.len());
    if place == 0 {
        start
    } else {
        units.end_of(place)
    }
}
