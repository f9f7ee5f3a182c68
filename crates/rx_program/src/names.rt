ghost use Rattle.std.specs.Prelude.{◌≡◌, ◌++◌, ◌∷◌, ℕ, List as Sequence, [], IfOk, OnOk, if◌then◌else◌, get_or, length};
ghost use Rattle.std.specs.Str.{IsUtf8, bytes_eq, chars};
ghost use Rattle.rx_trace.specs.declared.answer.Slot.TheVariants.{Unset};
ghost use Rattle.rx_trace.specs.Groups.{is_named, is_set as set_in};
ghost use Rattle.rx_program.specs.Named.{AreNumbered, numbers_at, numbers_named, slot_among as slot_in};

use rx_base::{List, OutOfMemory, Text};
use rx_trace::Slot;
use std::alloc::Global;
use std::collections::BTreeMap;
use std::marker::Model;

/// The names of the groups of a tree in order of opening, which contracts see as the list of them. The numbers of the groups of each name stand in a map, so
/// that a name is looked up once, and a reference by name looks at the groups of that name alone.
#[derive(Drop)]
pub struct GroupNames {
    names: List<Option<Text>>,
    numbers: BTreeMap<String, Vec<usize>>,
}

impl Model for GroupNames {
    ghost use Rattle.rx_trace.specs.Groups.{Names};
    ghost use Rattle.rx_program.specs.Named.{AreNumbered};

    ghost Value = { Names };

    ghost view = { λ groups. groups.names };

    ghost invariant = { λ groups. AreNumbered groups.names groups.numbers };
}

impl GroupNames {
    pub fn new(alloc: Global, names: List<Option<Text>>) -> Result<GroupNames, OutOfMemory>
        ensures { IfOk result (λ groups. groups ≡ names) }
    {
        let numbers = numbers_by_name(alloc, names.as_slice())?;
        Ok(GroupNames { names, numbers })
    }

    /// How many groups there are.
    pub fn len(&self) -> usize
        ensures { result ≡ length self.now }
    {
        self.names.len()
    }

    /// The numbers of the groups of a name, from 0, in order of opening.
    pub fn numbers_of(&self, name: &Text) -> &[usize]
        ensures { result.now ≡ numbers_named name.now self.now 0 }
    {
        match self.numbers.get(name.as_str()) {
            Some(numbers) => numbers.as_slice(),
            None => &[],
        }
    }
}

/// The numbers of the groups of each name, where groups of these names open in order.
fn numbers_by_name(
    alloc: Global,
    names: &[Option<Text>],
) -> Result<BTreeMap<String, Vec<usize>>, OutOfMemory>
    ensures { IfOk result (λ numbers. AreNumbered names.now numbers) }
{
    let mut numbers = BTreeMap::new(alloc);
    for (number, name) in names.iter().enumerate() {
        add_group(alloc, &mut numbers, name, number)?;
    }
    Ok(numbers)
}

/// Notes the number of a group under its name, if it has one.
fn add_group(
    alloc: Global,
    numbers: &mut BTreeMap<String, Vec<usize>>,
    name: &Option<Text>,
    number: usize,
) -> Result<(), OutOfMemory>
    ensures { OnOk result ((bytes : Sequence ℕ) → IsUtf8 bytes
        → numbers_at numbers.new bytes ≡ numbers_at numbers.old bytes ++ (if is_named (chars bytes) name.now then number ∷ [] else [])) }
{
    match name {
        None => Ok(()),
        Some(name) => add_number(alloc, numbers, name.as_str(), number),
    }
}

fn add_number(
    alloc: Global,
    numbers: &mut BTreeMap<String, Vec<usize>>,
    name: &str,
    number: usize,
) -> Result<(), OutOfMemory>
    ensures { OnOk result ((bytes : Sequence ℕ)
        → numbers_at numbers.new bytes ≡ numbers_at numbers.old bytes ++ (if bytes_eq name.now bytes then number ∷ [] else [])) }
{
    let key = String::from_str(alloc, name)?;
    numbers.entry(key)?.or_default().push(number)?;
    Ok(())
}

/// The slot of the first of these groups that is set, or unset where none is. Groups count from 0.
pub fn slot_among(numbers: &[usize], slots: &[Slot]) -> Slot
    ensures { result ≡ slot_in numbers.now slots.now }
{
    for number in numbers {
        let slot = slot_at(slots, *number);
        let is_set = is_set(slot);
        if is_set {
            return slot;
        }
    }
    Slot::Unset
}

fn slot_at(slots: &[Slot], number: usize) -> Slot
    ensures { result ≡ get_or slots.now number Unset }
{
    if number < slots.len() {
        slots[number]
    } else {
        Slot::Unset
    }
}

fn is_set(slot: Slot) -> bool
    ensures { result ≡ set_in slot }
{
    match slot {
        Slot::Unset => false,
        Slot::Set { .. } => true,
    }
}
