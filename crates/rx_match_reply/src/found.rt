ghost use Rattle.std.specs.Prelude.{◌≡◌, ◌++◌, OnOk};
ghost use Rattle.rx_match_reply.specs.Found.{found_reply, later_slots_text, slot_text, slots_text};

use rx_base::{List, OutOfMemory};
use rx_match::{Found, Slot};
use rx_reply::add_range;

/// Adds the reply that says where a match stands, and what each group matched.
pub fn add_found(bytes: &mut List<u8>, found: &Found) -> Result<(), OutOfMemory>
    ensures { OnOk result (bytes.new ≡ bytes.old ++ found_reply found.now) }
{
    bytes.extend_from_slice(b"ok\t")?;
    add_range(bytes, found.start, found.end)?;
    bytes.extend_from_slice(b"\t")?;
    add_slots(bytes, found.groups.as_slice())?;
    bytes.extend_from_slice(b"\n")
}

/// Adds slots, with commas between.
fn add_slots(bytes: &mut List<u8>, slots: &[Slot]) -> Result<(), OutOfMemory>
    ensures { OnOk result (bytes.new ≡ bytes.old ++ slots_text slots.now) }
{
    let Some((first, later)) = slots.split_first() else {
        return Ok(());
    };
    add_slot(bytes, *first)?;
    add_later_slots(bytes, later)
}

/// Adds slots, with a comma before each.
fn add_later_slots(bytes: &mut List<u8>, slots: &[Slot]) -> Result<(), OutOfMemory>
    ensures { OnOk result (bytes.new ≡ bytes.old ++ later_slots_text slots.now) }
{
    for slot in slots {
        bytes.extend_from_slice(b",")?;
        add_slot(bytes, *slot)?;
    }
    Ok(())
}

/// Adds from where to where a group matched, or a dash.
fn add_slot(bytes: &mut List<u8>, slot: Slot) -> Result<(), OutOfMemory>
    ensures { OnOk result (bytes.new ≡ bytes.old ++ slot_text slot) }
{
    match slot {
        Slot::Unset => bytes.extend_from_slice(b"-"),
        Slot::Set { start, end } => add_range(bytes, start, end),
    }
}
