ghost use Rattle.std.specs.Prelude.{◌≡◌, ◌<◌, ◌≤◌, ◌++◌, OnOk, IfOk, IsErrOf};
ghost use Rattle.std.specs.Str.{chars};
ghost use Rattle.rx_base.specs.FaultCounts.{Rose};
ghost use Rattle.rx_run.specs.Generator.{AreSized, IsGenOutput, IsGenerated, IsSized, draw_of, gen_line, next_state, pattern_text, patterns, pieces_text, state_after, state_after_pattern};
ghost use Rattle.rx_run.specs.Printing.{IsPrinted, IsPrintBegun};
ghost use Rattle.rx_run.specs.Generator.{piece as piece_text};

use crate::server::ReplyFault;
use rx_base::{Fault, List, OutOfMemory, Sink, Text, write_all};
use rx_reply::add_decimal;
use rx_tools::{Form, Options, canonical};
use std::alloc::Global;

/// The piece of a number from 0 to 7.
fn piece(number: u32) -> &'static str
    requires { number < 8 }
    ensures { chars result.now ≡ piece_text number }
{
    match number {
        0 => "a",
        1 => "\\x41",
        2 => "[0-9_]+",
        3 => "(?:b|c)*",
        4 => "\\u{1F600}",
        5 => "(d)",
        6 => ".{2,3}?",
        _ => "\\p{Lu}",
    }
}

/// A linear congruential generator of numbers from 0 to 7.
#[derive(Drop)]
struct Draws {
    state: u32,
}

impl Draws {
    fn draw(&mut self) -> u32
        ensures state { self.new.state ≡ next_state self.old.state }
        ensures number { result ≡ draw_of self.new.state }
    {
        let next = (1103515245 * u64::from(self.state) + 12345) % 2147483648;
        self.state = next as u32;
        self.state / 65536 % 8
    }

    /// Adds n pieces to a text.
    fn add_pieces(&mut self, text: &mut Text, count: u32) -> Result<(), OutOfMemory>
        ensures text { OnOk result (text.new ≡ text.old ++ pieces_text count self.old.state) }
        ensures state { OnOk result (self.new.state ≡ state_after count self.old.state) }
    {
        for _ in 0..count {
            text.push_str(piece(self.draw()))?;
        }
        Ok(())
    }

    /// The text of the next pattern.
    fn pattern(&mut self, alloc: Global) -> Result<Text, OutOfMemory>
        ensures text { IfOk result (λ text. text ≡ pattern_text self.old.state) }
        ensures state { OnOk result (self.new.state ≡ state_after_pattern self.old.state) }
    {
        let count = 1 + self.draw();
        let mut text = Text::from_str(alloc, "")?;
        self.add_pieces(&mut text, count)?;
        Ok(text)
    }
}

/// How many bytes the canonical spelling of a pattern has, as a literal under `u`. Some draws make the pattern, so that it is not refused.
fn spelling_size(alloc: Global, pattern: &Text) -> Result<usize, OutOfMemory>
    requires { IsGenerated pattern.now }
    ensures { IfOk result (λ size. IsSized pattern.now size) }
{
    match canonical(
        alloc,
        Form::Literal,
        pattern.as_str(),
        Some("u"),
        Options::default(),
    ) {
        Ok(it) => Ok(it.text.as_str().len()),
        Err(Fault::OutOfMemory) => Err(OutOfMemory),
        Err(Fault::Diagnostic(_)) => unreachable!(),
    }
}

/// Makes n patterns, reads and spells each, and says how many bytes the spellings have, of which each fits 64 bits.
fn spellings_size(alloc: Global, seed: u32, count: u32) -> Result<u128, OutOfMemory>
    requires { count ≤ 20000 }
    ensures { IfOk result (λ bytes. AreSized (patterns count seed) bytes) }
{
    let mut draws = Draws { state: seed };
    let mut bytes: u128 = 0;
    for _ in 0..count {
        let pattern = draws.pattern(alloc)?;
        bytes += spelling_size(alloc, &pattern)? as u128;
    }
    Ok(bytes)
}

/// The line that says what came of n patterns.
fn line_of(alloc: Global, count: u32, bytes: u128) -> Result<List<u8>, OutOfMemory>
    ensures { IfOk result (λ line. line ≡ gen_line count bytes) }
{
    let mut line = List::new(alloc);
    line.extend_from_slice(b"lines ")?;
    add_decimal(&mut line, count)?;
    line.extend_from_slice(b" ok ")?;
    add_decimal(&mut line, count)?;
    line.extend_from_slice(b" bytes ")?;
    add_decimal(&mut line, bytes)?;
    line.extend_from_slice(b"\n")?;
    Ok(line)
}

/// Makes n patterns, reads and spells each, and writes what came of them.
pub fn generate<K: Sink>(
    alloc: Global,
    seed: u32,
    count: u32,
    sink: &mut K,
) -> Result<(), ReplyFault>
    requires { count ≤ 20000 }
    ensures ok { OnOk result (IsPrinted (IsGenOutput seed count) (K.taken sink.old) (K.taken sink.new)) }
    ensures begun { IsErrOf result ReplyFault.Write → IsPrintBegun (IsGenOutput seed count) (K.taken sink.old) (K.taken sink.new) }
    ensures rose { IsErrOf result ReplyFault.Write → Rose (K.faults sink.old) (K.faults sink.new) }
    ensures same { ¬ IsErrOf result ReplyFault.Write → K.faults sink.new ≡ K.faults sink.old }
    ensures unwritten { IsErrOf result ReplyFault.OutOfMemory → K.taken sink.new ≡ K.taken sink.old }
    ensures fixed { K.fixed sink.new ≡ K.fixed sink.old }
{
    let bytes = spellings_size(alloc, seed, count)?;
    let line = line_of(alloc, count, bytes)?;
    write_all(sink, line.as_slice())?;
    Ok(())
}
