ghost use Rattle.std.specs.Prelude.{◌≡◌, ◌++◌, IfOk, OnOk, ◌≤◌, IsSome, length, option_map, reverse, take};
ghost use Rattle.rx_match.specs.Sound.{cut_entries, entry_of, frames_in, frames_below_last, top_in};

use crate::entry::{Backtrack, Frame, OpenLookAround};
use rx_base::{List, OutOfMemory};

/// Takes out the entries down to the last look-around, and puts those back that restore slots. Gives the look-around, if one is open.
pub fn cut(entries: &mut List<Backtrack>) -> Result<Option<OpenLookAround>, OutOfMemory>
    ensures top { IfOk result (λ it. option_map entry_of it ≡ top_in entries.old) }
    ensures left { IfOk result (λ it. IsSome it → entries.new ≡ cut_entries entries.old) }
{
    let mut kept = List::new(entries.allocator());
    while let Some(entry) = entries.pop() {
        match entry {
            Backtrack::Choice { .. } => {}
            Backtrack::Turn { .. } => {}
            Backtrack::RestoreSlot { .. } => kept.push(entry)?,
            Backtrack::LookAround {
                place,
                kind,
                next,
                head,
                frames,
                back,
            } => {
                put_back(entries, &mut kept)?;
                return Ok(Some(OpenLookAround {
                    place,
                    kind,
                    next,
                    head,
                    frames,
                    back,
                }));
            }
        }
    }
    Ok(None)
}

/// Puts entries back, the last first.
fn put_back(entries: &mut List<Backtrack>, kept: &mut List<Backtrack>) -> Result<(), OutOfMemory>
    ensures { OnOk result (entries.new ≡ reverse (kept.old ++ reverse entries.old)) }
{
    while let Some(entry) = kept.pop() {
        entries.push(entry)?;
    }
    Ok(())
}

/// How many frames entries may come back to.
pub fn kept_frames(entries: &List<Backtrack>) -> usize
    ensures { result ≡ frames_below_last entries.now }
{
    match entries.as_slice().split_last() {
        None => 0,
        Some((last, _)) => frames_of(last),
    }
}

fn frames_of(entry: &Backtrack) -> usize
    ensures { result ≡ frames_in entry.now }
{
    match *entry {
        Backtrack::Choice { frames, .. } => frames,
        Backtrack::Turn { frames, .. } => frames,
        Backtrack::RestoreSlot { frames, .. } => frames,
        Backtrack::LookAround { frames, .. } => frames,
    }
}

/// Cuts the frames down to so many.
pub fn cut_frames(frames: &mut List<Frame>, most: usize)
    requires { most ≤ length frames.old }
    ensures { frames.new ≡ take most frames.old }
{
    while frames.len() > most {
        let _ = frames.pop();
    }
}
