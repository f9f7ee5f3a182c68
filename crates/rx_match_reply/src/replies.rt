ghost use Rattle.std.specs.Prelude.{◌≡◌, ◌++◌, ℕ, List as Sequence, OnOk, codes, decimal};
ghost use Rattle.std.specs.Str.{chars};
ghost use Rattle.rx_ast.specs.Tree.{mirror};
ghost use Rattle.rx_reply.specs.Places.{span_text};
ghost use Rattle.rx_reply.specs.Added.{IsAdded};
ghost use Rattle.rx_match_reply.specs.Replies.{IsMatchReply, IsTicksReply, answer_reply, fault_reply, ticks_reply};

use crate::found::add_found;
use rx_ast::Pattern;
use rx_base::{List, OutOfMemory, Span};
use rx_match::{Found, MatchFault, MatchFlags, search, ticks_of_search, units_of};
use rx_reply::{add_decimal, add_span};
use std::alloc::Global;

/// Adds the reply that says what a pattern with these flags matches first in a text, within a budget of Ticks. After an error a part of the reply may stand
/// at the end.
pub fn add_match(
    alloc: Global,
    bytes: &mut List<u8>,
    pattern: &Pattern,
    flags: MatchFlags,
    text: &str,
    budget: u64,
) -> Result<(), OutOfMemory>
    ensures { OnOk result ((reply : Sequence ℕ) × IsMatchReply flags (chars text.now) (mirror pattern.now) budget reply × (bytes.new ≡ bytes.old ++ reply)) }
{
    let units = units_of(alloc, text, flags.unicode_mode)?;
    let answer = search(alloc, pattern, flags, units.as_slice(), 0, budget);
    add_answer(bytes, answer)
}

/// Adds the reply that says how many Ticks `add_match` needs to say what is matched, where they are so many at most. After an error a part of the reply may
/// stand at the end.
pub fn add_ticks(
    alloc: Global,
    bytes: &mut List<u8>,
    pattern: &Pattern,
    flags: MatchFlags,
    text: &str,
    most: u64,
) -> Result<(), OutOfMemory>
    ensures { OnOk result ((reply : Sequence ℕ) × IsTicksReply flags (chars text.now) (mirror pattern.now) most reply × (bytes.new ≡ bytes.old ++ reply)) }
{
    let units = units_of(alloc, text, flags.unicode_mode)?;
    let ticks = ticks_of_search(alloc, pattern, flags, units.as_slice(), 0, most);
    add_count(bytes, ticks)
}

fn add_answer(
    bytes: &mut List<u8>,
    answer: Result<Option<Found>, MatchFault>,
) -> Result<(), OutOfMemory>
    ensures { OnOk result (IsAdded (answer_reply answer) bytes.old bytes.new) }
{
    match answer {
        Ok(Some(found)) => add_found(bytes, &found),
        Ok(None) => bytes.extend_from_slice(b"ok\tnone\n"),
        Err(fault) => add_fault(bytes, fault),
    }
}

fn add_count(
    bytes: &mut List<u8>,
    ticks: Result<Option<u64>, MatchFault>,
) -> Result<(), OutOfMemory>
    ensures { OnOk result (IsAdded (ticks_reply ticks) bytes.old bytes.new) }
{
    match ticks {
        Ok(Some(ticks)) => add_number(bytes, ticks),
        Ok(None) => bytes.extend_from_slice(b"more\n"),
        Err(fault) => add_fault(bytes, fault),
    }
}

fn add_fault(bytes: &mut List<u8>, fault: MatchFault) -> Result<(), OutOfMemory>
    ensures { OnOk result (IsAdded (fault_reply fault) bytes.old bytes.new) }
{
    match fault {
        MatchFault::OutOfMemory => Err(OutOfMemory),
        MatchFault::IgnoreCase => bytes.extend_from_slice(b"unsupported\tflag\n"),
        MatchFault::Unsupported { span } => add_unsupported(bytes, span),
        MatchFault::Spent => bytes.extend_from_slice(b"spent\n"),
    }
}

fn add_number(bytes: &mut List<u8>, number: u64) -> Result<(), OutOfMemory>
    ensures { OnOk result (bytes.new ≡ bytes.old ++ (codes "ok\t" ++ decimal number ++ codes "\n")) }
{
    bytes.extend_from_slice(b"ok\t")?;
    add_decimal(bytes, number)?;
    bytes.extend_from_slice(b"\n")
}

fn add_unsupported(bytes: &mut List<u8>, span: Span) -> Result<(), OutOfMemory>
    ensures { OnOk result (bytes.new ≡ bytes.old ++ (codes "unsupported\t" ++ span_text span ++ codes "\n")) }
{
    bytes.extend_from_slice(b"unsupported\t")?;
    add_span(bytes, span)?;
    bytes.extend_from_slice(b"\n")
}
