ghost use Rattle.std.specs.Prelude.{◌≡◌, ◌≢◌, ◌↔◌, ◌<◌, IfOk, IsUtf8, MatchOption};
ghost use Rattle.std.specs.String.{string_bytes};
ghost use Rattle.rx_parser.specs.Texts.{seen_input};
ghost use Rattle.rx_c.specs.Asked.{IsAskable, asked_input, wants_of};
ghost use Rattle.rx_c.specs.Codes.{form_by};
ghost use Rattle.rx_c.specs.Told.{HasRecords, HoldsNothing, ShowsRead, Told, spelling_bytes};

use crate::codes::mode_code;
use crate::options::Options;
use crate::question::Question;
use crate::reading::Reading;
use crate::telling::tell_refusal;
use crate::text::{leak_list, leak_text, with_nul};
use crate::units::move_to_utf16;
use rx_ast::Pattern;
use rx_base::{Fault, OutOfMemory};
use rx_places::Places;
use rx_records::{Records, records_of};
use rx_tools::{Mode, canonical_text, read_pattern};
use std::alloc::Global;

/// The pattern was read.
const READ: u32 = 0;

/// The pattern, or its flags, are refused.
const REFUSED: u32 = 1;

/// There was not enough memory.
const OUT_OF_MEMORY: u32 = 2;

/// The form is none, a text is no UTF-8, or a place could leave 32 bits.
const BAD_ARGUMENT: u32 = 3;

/// The version of this interface.
#[unsafe(no_mangle)]
pub extern "C" fn tb_version() -> u32
    ensures { result ≡ 1 }
{
    1
}

/// Reads a pattern, and answers one of the four statuses. Whatever it answers, `out` is set.
#[unsafe(no_mangle)]
pub extern "C" fn tb_read<'a>(
    alloc: Global,
    pattern: &[u8],
    flags: &[u8],
    options: &Options,
    out: &mut Reading<'a>,
) -> u32
    ensures bad { result ≡ 3 ↔ ¬ (IsAskable pattern.now flags.now options.now) }
    ensures nothing { result ≡ 3 → HoldsNothing out.new }
    ensures utf8 { IsUtf8 out.new.texts.now }

    // Of right and of wrong flags: what `IsAnswered` says of the answer.
    ensures told { result ≢ 3 → MatchOption (form_by options.now.form) ⊥ (λ form. Told (wants_of options.now) (asked_input form pattern.now flags.now options.now) out.new result) }
{
    let Some(question) = Question::of(pattern, flags, options) else {
        *out = Reading::empty();
        return BAD_ARGUMENT;
    };
    match answer(alloc, &question) {
        Ok((status, reading)) => {
            *out = reading;
            status
        }
        Err(OutOfMemory) => {
            *out = Reading::empty();
            OUT_OF_MEMORY
        }
    }
}

/// What is answered to a question, with the status.
fn answer<'a>(alloc: Global, it: &Question<'_>) -> Result<(u32, Reading<'a>), OutOfMemory>
    ensures told { IfOk result (λ told. Told it.now.wants (seen_input it.now.input) told.1 told.0) }
    ensures status { IfOk result (λ told. told.0 < 2) }
    ensures utf8 { IfOk result (λ told. IsUtf8 told.1.texts.now) }
{
    let input = &it.input;
    match read_pattern(
        alloc,
        input.form,
        input.pattern_text,
        input.flags_text,
        input.options,
    ) {
        Ok((pattern, mode)) => Ok((READ, tell_tree(alloc, it, &pattern, mode)?)),
        Err(Fault::Diagnostic(cause)) => Ok((REFUSED, tell_refusal(alloc, it, &cause)?)),
        Err(Fault::OutOfMemory) => Err(OutOfMemory),
    }
}

/// What is told of a pattern that was read.
fn tell_tree<'a>(
    alloc: Global,
    it: &Question<'_>,
    pattern: &Pattern,
    mode: Mode,
) -> Result<Reading<'a>, OutOfMemory>
    ensures told { IfOk result (ShowsRead it.now.wants (seen_input it.now.input) pattern.now mode) }
    ensures utf8 { IfOk result (λ out. IsUtf8 out.texts.now) }
{
    let made = wanted_records(alloc, it, pattern)?;
    let spelling = wanted_spelling(alloc, pattern, mode, it.wants.spelling)?;
    let Records {
        nodes,
        groups,
        texts,
    } = made;
    Ok(Reading {
        mode: mode_code(mode),
        nodes: leak_list(nodes),
        groups: leak_list(groups),
        texts: leak_text(texts),
        spelling: leak_list(spelling),
        ..Reading::empty()
    })
}

/// The records where they are wanted, with their places counted as is asked.
fn wanted_records(
    alloc: Global,
    it: &Question<'_>,
    pattern: &Pattern,
) -> Result<Records, OutOfMemory>
    ensures { IfOk result (λ made. HasRecords it.now.wants.nodes it.now.wants.utf16 (seen_input it.now.input) pattern.now made.nodes.items made.groups.items (string_bytes made.texts)) }
{
    if !it.wants.nodes {
        return Records::with_room(alloc, 0);
    }
    let text = it.input.pattern_text;
    let mut made = records_of(alloc, pattern, room_for(text.len()))?;
    if it.wants.utf16 {
        let places = Places::new(alloc, text, it.input.options.pattern_span_offset)?;
        move_to_utf16(made.nodes.as_mut_slice(), &places);
    }
    Ok(made)
}

/// For how many records there is room at first: more than nearly all texts of so many bytes have. For others the list grows.
fn room_for(size: usize) -> usize {
    size.saturating_add(size / 8).saturating_add(8)
}

/// The canonical spelling and NUL, if it is wanted.
#[tactic(auto, using(rx_records::proofs::Texts::text_bytes))]
fn wanted_spelling(
    alloc: Global,
    pattern: &Pattern,
    mode: Mode,
    wanted: bool,
) -> Result<Vec<u8>, OutOfMemory>
    ensures { IfOk result (λ text. text.items ≡ spelling_bytes wanted pattern.now mode) }
{
    if !wanted {
        return Ok(Vec::new(alloc));
    }
    let spelling = canonical_text(alloc, pattern, mode)?;
    with_nul(alloc, spelling.as_str().as_bytes())
}
