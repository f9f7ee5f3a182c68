ghost use Rattle.std.specs.Prelude.{◌≡◌, Bool, ◌+◌, ◌-◌, ◌<◌, ◌≤◌, ◌^◌, ℕ, List, None, Some, IfOk, IfErr, OnOk, length, map, option_map};
ghost use Rattle.std.specs.Str.{chars};
ghost use Rattle.rx_base.specs.Texts.{are_same};
ghost use Rattle.rx_units.specs.Units.{values};
ghost use Rattle.rx_model.specs.FirstPass.GroupStates.{Nests};
ghost use Rattle.rx_model.specs.FirstPass.Marks.{name_length};
ghost use Rattle.rx_model.specs.declared.mode.Mode.{Mode as ModeValue};
ghost use Rattle.rx_model.specs.Refusals.Reached.{HasNoClash, text_groups, text_names};
ghost use Rattle.rx_scan.specs.MarkReading.{seen_mark, seen_capturing};
ghost use Rattle.rx_scan.specs.OpenGroups.{group_states_of, hides, states_that_part};
ghost use Rattle.rx_scan.specs.Walked.{IsAt};
ghost use Rattle.rx_scan.specs.declared.first_pass.FirstPass.{FirstPass as PassValue};
ghost use Rattle.rx_scan.specs.FirstPass.{Captures, ClashesWith, IsPassFault, IsStart, KnowsLast, LastTells, Refuses, Steps, entries, entry_of, first_clash, parts_of, span_of, with_name};

use crate::Names;
use crate::group_name::spelled_name;
use crate::last_openings::LastOpenings;
use crate::mark::{Mark, is_plain, read_mark};
use crate::open_groups::OpenGroups;
use rx_base::{Counter, List, OutOfMemory, Text};
use rx_model::Mode;
use rx_units::{Ahead, Unit};
use std::alloc::Global;

/// A named opening: its index among the marks, its name, and the places before and after the units of the name.
#[derive(Drop)]
pub struct Opening {
    pub mark: usize,
    pub start: usize,
    pub end: usize,
    pub name: Text,
}

/// Why a first pass stopped.
#[derive(Clone, Copy)]
pub enum PassFault {
    OutOfMemory,
    /// The places before and after the units of two equal names.
    Duplicated {
        first: (usize, usize),
        second: (usize, usize),
    },
}

impl From<OutOfMemory> for PassFault {
    ghost use Rattle.std.specs.Prelude.{◌≡◌};
    ghost use Rattle.rx_scan.specs.declared.first_pass.PassFault.TheVariants as fault;

    ghost from_gives = { λ _ e. e ≡ fault.OutOfMemory };

    fn from(_: OutOfMemory) -> PassFault {
        PassFault::OutOfMemory
    }
}

/// What a first pass has found so far.
#[derive(Drop)]
pub struct FirstPass {
    pub mode: Mode,
    /// Whether two groups may have one name where a bar parts them.
    pub duplicate_names: bool,
    /// How many groups capture.
    pub count: usize,
    pub names: Names,
    pub openings: List<Opening>,
    pub last_openings: LastOpenings,
    pub groups: OpenGroups,
}

impl FirstPass {
    /// Counts the groups of a text and lists their names (CountLeftCapturingParensWithin of ECMA-262, 22.2.1.2), or finds the first two equal
    /// names that clash (22.2.1.1): any two, or where two groups may have one name, two that no bar parts. Counts each unit that it goes over.
    // Why: docs/DECISIONS.md, 61.
    pub fn over<U: Unit, C: Counter>(
        alloc: Global,
        units: &Ahead<'_, U>,
        mode: Mode,
        duplicate_names: bool,
        steps: &mut C,
    ) -> Result<FirstPass, PassFault>
        ensures mode { IfOk result (λ pass. pass.mode ≡ mode) }
        ensures count { IfOk result (λ pass. pass.count ≡ text_groups mode units.now) }
        ensures names { IfOk result (λ pass. pass.names ≡ text_names mode units.now) }
        ensures clean { IfOk result (λ pass. HasNoClash mode duplicate_names units.now) }
        ensures fault { IfErr result (IsPassFault mode duplicate_names (values units.now)) }
        ensures all { OnOk result (C.count steps.new ≡ C.count steps.old + length units.now) }
        ensures most { C.count steps.new ≤ C.count steps.old + length units.now }
    {
        // Why: docs/DECISIONS.md, 131.
        let _ = units.len();
        let mut pass = FirstPass::new(alloc, mode, duplicate_names);
        // How many units before the place begin no mark. Each of the others begins one.
        let mut inner = 0usize;
        let mut place = plain_end(units, 0, steps);
        while let Some((unit, following)) = units.from(place).split_first() {
            steps.tick();
            let (mark, more) = read_mark(unit, &following, mode, steps);
            pass.step(alloc, mark, place, place - inner)?;
            inner += more;
            place = plain_end(units, place + (more + 1), steps);
        }
        Ok(pass)
    }

    fn new(alloc: Global, mode: Mode, duplicate_names: bool) -> FirstPass
        ensures { IsStart mode duplicate_names result }
    {
        FirstPass {
            mode,
            duplicate_names,
            count: 0,
            names: Names::new(alloc),
            openings: List::new(alloc),
            last_openings: LastOpenings::new(alloc),
            groups: OpenGroups::new(alloc),
        }
    }

    /// Goes over the mark with this index, which begins at this place.
    fn step<U: Unit>(
        &mut self,
        alloc: Global,
        mark: Mark<'_, U>,
        place: usize,
        index: usize,
    ) -> Result<(), PassFault>
        requires few { self.old.count + 1 < 2 ^ 64 }
        requires room { place + 3 + name_length (seen_mark mark) < 2 ^ 64 }
        requires after { index + 1 < 2 ^ 64 }
        requires tells { (name : List ℕ) → LastTells (parts_of self.old) name (entries self.old) }
        requires nests { Nests (group_states_of self.old.groups) }
        requires knows { KnowsLast (entries self.old) self.old.last_openings }
        ensures ok { OnOk result (Steps self.old self.new (seen_mark mark.entry) place index) }
        ensures err { IfErr result (Refuses self.old (seen_mark mark.entry) place) }
    {
        match mark {
            Mark::Other => {}
            Mark::Bar => self.groups.bar(index),
            Mark::Closer => self.groups.close(),
            Mark::Quiet => self.groups.open(index + 1)?,
            Mark::Capturing(units) => self.capture(alloc, units, place, index)?,
        }
        Ok(())
    }

    /// A group opens that captures.
    fn capture<U: Unit>(
        &mut self,
        alloc: Global,
        units: Option<Ahead<'_, U>>,
        place: usize,
        index: usize,
    ) -> Result<(), PassFault>
        requires few { self.old.count + 1 < 2 ^ 64 }
        requires room { place + 3 + name_length (seen_capturing units) < 2 ^ 64 }
        requires after { index + 1 < 2 ^ 64 }
        requires tells { (name : List ℕ) → LastTells (parts_of self.old) name (entries self.old) }
        requires nests { Nests (group_states_of self.old.groups) }
        requires knows { KnowsLast (entries self.old) self.old.last_openings }
        ensures ok { OnOk result (Steps self.old self.new (seen_capturing units.entry) place index) }
        ensures err { IfErr result (Refuses self.old (seen_capturing units.entry) place) }
    {
        let Some(units) = units else {
            return self.capture_unnamed(index);
        };
        let start = place + 3;
        let end = start + units.len();
        match spelled_name(alloc, &units, self.mode.is_unicode())? {
            None => self.capture_unnamed(index),
            Some(name) => {
                let opening = Opening {
                    mark: index,
                    start,
                    end,
                    name,
                };
                self.capture_named(alloc, opening)
            }
        }
    }

    fn capture_unnamed(&mut self, index: usize) -> Result<(), PassFault>
        requires few { self.old.count + 1 < 2 ^ 64 }
        requires after { index + 1 < 2 ^ 64 }
        requires knows { KnowsLast (entries self.old) self.old.last_openings }
        ensures ok { OnOk result ((from to : ℕ) → Captures self.old self.new None from to index) }
        ensures err { IfErr result (λ fault. fault ≡ PassFault.OutOfMemory) }
    {
        self.groups.open(index + 1)?;
        self.count += 1;
        Ok(())
    }

    fn capture_named(&mut self, alloc: Global, opening: Opening) -> Result<(), PassFault>
        requires few { self.old.count + 1 < 2 ^ 64 }
        requires after { opening.mark + 1 < 2 ^ 64 }
        requires tells { LastTells (parts_of self.old) opening.name (entries self.old) }
        requires nests { Nests (group_states_of self.old.groups) }
        requires knows { KnowsLast (entries self.old) self.old.last_openings }
        ensures ok { OnOk result (Captures self.old self.new (Some opening.name) opening.start opening.end opening.mark) }
        ensures err { IfErr result (ClashesWith self.old opening.name opening.start opening.end) }
    {
        if let Some(first) = self.clash(opening.name.as_str()) {
            return Err(PassFault::Duplicated {
                first,
                second: (opening.start, opening.end),
            });
        }
        let index = opening.mark;
        self.add_name(alloc, opening.name.as_str())?;
        self.last_openings.set(alloc, opening.name.as_str(), index)?;
        self.openings.push(opening)?;
        self.groups.open(index + 1)?;
        self.count += 1;
        Ok(())
    }

    fn add_name(&mut self, alloc: Global, name: &str) -> Result<(), OutOfMemory>
        ensures { OnOk result (self.new ≡ record self.old { names = with_name self.old.names (chars name.now) }) }
    {
        if !self.names.contains(name) {
            self.names.push(Text::from_str(alloc, name)?)?;
        }
        Ok(())
    }

    /// Where the name of the first opening stands with which a new one of this name clashes, where none clashed before. All openings
    /// are looked at only where some clash.
    fn clash(&self, name: &str) -> Option<(usize, usize)>
        requires tells { LastTells (parts_of self.now) (chars name.now) (entries self.now) }
        requires nests { Nests (group_states_of self.now.groups) }
        requires knows { KnowsLast (entries self.now) self.now.last_openings }
        ensures { result ≡ option_map span_of (first_clash (parts_of self.now) (chars name.now) (entries self.now)) }
    {
        match self.last_openings.get(name) {
            None => None,
            Some(last) => {
                if is_parted(&self.groups, self.duplicate_names, last) {
                    None
                } else {
                    first_clash(
                        self.openings.as_slice(),
                        &self.groups,
                        self.duplicate_names,
                        name,
                    )
                }
            }
        }
    }
}

/// The first place from this one on where no plain unit stands, or the end. Counts each unit before it.
#[inline(always)]
fn plain_end<U: Unit, C: Counter>(units: &Ahead<'_, U>, place: usize, steps: &mut C) -> usize
    requires { place ≤ length units.now }
    ensures from { place ≤ result }
    ensures within { result ≤ length units.now }
    ensures passed { (mode : ModeValue) (duplicate_names : Bool) (inner : ℕ) (pass : PassValue) → inner ≤ place → IsAt mode duplicate_names (values units.now) place (place - inner) pass
        → IsAt mode duplicate_names (values units.now) result (result - inner) pass }
    ensures steps { C.count steps.new ≡ C.count steps.old + (result - place) }
{
    let items = units.items();
    let mut end = place;
    while end < items.len() && is_plain(items[end].value()) {
        steps.tick();
        end += 1;
    }
    end
}

/// Whether the mark with this index is in an alternative that has ended, of a group that is open, where two groups may have one name.
fn is_parted(groups: &OpenGroups, duplicate_names: bool, mark: usize) -> bool
    requires { Nests (group_states_of groups.now) }
    ensures { result ≡ hides mark (states_that_part duplicate_names (group_states_of groups.now)) }
{
    duplicate_names && groups.hides(mark)
}

/// Where the name of the first opening of this name stands that no bar parts.
fn first_clash(
    openings: &[Opening],
    groups: &OpenGroups,
    duplicate_names: bool,
    name: &str,
) -> Option<(usize, usize)>
    requires { Nests (group_states_of groups.now) }
    ensures { result ≡ option_map span_of (first_clash (states_that_part duplicate_names (group_states_of groups.now)) (chars name.now) (map entry_of openings.now)) }
{
    for opening in openings {
        if is_named(opening, name) && !is_parted(groups, duplicate_names, opening.mark) {
            return Some((opening.start, opening.end));
        }
    }
    None
}

fn is_named(opening: &Opening, name: &str) -> bool
    ensures { result ≡ are_same opening.now.name (chars name.now) }
{
    opening.name.as_str() == name
}
