ghost use Rattle.std.specs.Prelude.{true, ◌≡◌, ◌<◌, ◌+◌, OnOk, set};
ghost use Rattle.rx_trace.specs.Groups.{unset_slots as unset_all};
ghost use Rattle.rx_match.specs.SavedSlots.{IsRestored, Saves};
ghost use Rattle.rx_match.specs.Sound.{AreEntries, IsSaved, own_row, restores_slot, row_in};

use crate::cut::kept_frames;
use crate::entry::Backtrack;
use rx_base::{List, OutOfMemory};
use rx_trace::Slot;

/// Sets a slot, so that it is restored where this fails. `saved` notes for each slot how many entries there were when it was last saved.
pub fn set_slot(
    entries: &mut List<Backtrack>,
    slots: &mut Vec<Slot>,
    saved: &mut Vec<usize>,
    slot: usize,
    new: Slot,
) -> Result<(), OutOfMemory>
    requires { AreEntries entries.old }
    ensures slots { OnOk result (slots.new.items ≡ set slots.old.items slot new) }
    ensures restored { OnOk result (IsRestored entries.old slots.old.items entries.new slots.new.items) }
{
    if slot < slots.len() {
        let old = slots[slot];
        save_slot(entries, saved, slot, old)?;
        slots[slot] = new;
    }
    Ok(())
}

/// Saves what a slot was, unless an entry after the last choice restores it anyway.
// Why: docs/DECISIONS.md, 81.
fn save_slot(
    entries: &mut List<Backtrack>,
    saved: &mut Vec<usize>,
    slot: usize,
    old: Slot,
) -> Result<(), OutOfMemory>
    ensures { OnOk result (Saves entries.old slot old entries.new) }
{
    if is_saved(entries, saved.as_slice(), slot) {
        return Ok(());
    }
    let frames = kept_frames(entries);
    let row = last_row(entries).saturating_add(1);
    entries.push(Backtrack::RestoreSlot {
        slot,
        old,
        frames,
        row,
    })?;
    note(saved, slot, entries.len());
    Ok(())
}

/// Whether an entry after the last choice restores a slot: the note in `saved` only tells where to look.
fn is_saved(entries: &List<Backtrack>, saved: &[usize], slot: usize) -> bool
    ensures { result ≡ true → IsSaved entries.now slot }
{
    match saved.get(slot) {
        None => false,
        Some(count) => restores(entries, *count, slot),
    }
}

/// Whether the last of so many entries is one after the last choice that restores a slot.
fn restores(entries: &List<Backtrack>, count: usize, slot: usize) -> bool
    ensures { result ≡ true → IsSaved entries.now slot }
{
    let len = entries.len();
    let row = last_row(entries);
    if count == 0 || count > len || len - count >= row {
        return false;
    }
    match entries.get(count - 1) {
        None => false,
        Some(entry) => is_of_slot(entry, slot),
    }
}

fn is_of_slot(entry: &Backtrack, slot: usize) -> bool
    ensures { result ≡ restores_slot slot entry.now }
{
    match *entry {
        Backtrack::RestoreSlot { slot: own, .. } => own == slot,
        Backtrack::Choice { .. } => false,
        Backtrack::Turn { .. } => false,
        Backtrack::LookAround { .. } => false,
    }
}

/// How many entries that restore slots stand in a row at the end, by what the last of them says.
fn last_row(entries: &List<Backtrack>) -> usize
    ensures { result ≡ row_in entries.now }
{
    match entries.as_slice().split_last() {
        None => 0,
        Some((last, _)) => row_of(last),
    }
}

fn row_of(entry: &Backtrack) -> usize
    ensures { result ≡ own_row entry.now }
{
    match *entry {
        Backtrack::RestoreSlot { row, .. } => row,
        Backtrack::Choice { .. } => 0,
        Backtrack::Turn { .. } => 0,
        Backtrack::LookAround { .. } => 0,
    }
}

fn note(saved: &mut Vec<usize>, slot: usize, count: usize) {
    if slot < saved.len() {
        saved[slot] = count;
    }
}

/// Sets a slot back.
pub fn restore_slot(slots: &mut Vec<Slot>, slot: usize, old: Slot)
    ensures { slots.new.items ≡ set slots.old.items slot old }
{
    if slot < slots.len() {
        slots[slot] = old;
    }
}

/// Unsets slots from one on, so that they are restored where this fails.
pub fn unset_slots(
    entries: &mut List<Backtrack>,
    slots: &mut Vec<Slot>,
    saved: &mut Vec<usize>,
    from: usize,
    count: usize,
) -> Result<(), OutOfMemory>
    requires { AreEntries entries.old }
    ensures slots { OnOk result (slots.new.items ≡ unset_all from count slots.old.items) }
    ensures restored { OnOk result (IsRestored entries.old slots.old.items entries.new slots.new.items) }
{
    for k in 0..count {
        unset_slot(entries, slots, saved, from, k)?;
    }
    Ok(())
}

fn unset_slot(
    entries: &mut List<Backtrack>,
    slots: &mut Vec<Slot>,
    saved: &mut Vec<usize>,
    from: usize,
    k: usize,
) -> Result<(), OutOfMemory>
    requires { AreEntries entries.old }
    ensures slots { OnOk result (slots.new.items ≡ set slots.old.items (from + k) Slot.Unset) }
    ensures restored { OnOk result (IsRestored entries.old slots.old.items entries.new slots.new.items) }
{
    match from.checked_add(k) {
        None => Ok(()),
        Some(slot) => {
            let unset = is_unset(slots.as_slice(), slot);
            if unset {
                return Ok(());
            }
            set_slot(entries, slots, saved, slot, Slot::Unset)
        }
    }
}

/// Whether unsetting a slot would change nothing.
fn is_unset(slots: &[Slot], slot: usize) -> bool
    ensures { result ≡ true → set slots.now slot Slot.Unset ≡ slots.now }
{
    match slots.get(slot) {
        None => true,
        Some(it) => *it == Slot::Unset,
    }
}
