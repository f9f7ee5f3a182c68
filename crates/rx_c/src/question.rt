ghost use Rattle.std.specs.Prelude.{◌≡◌, ◌+◌, ◌<◌, ◌≤◌, ◌^◌, ◌↔◌, max, length, MatchOption, IsTrue};
ghost use Rattle.rx_parser.specs.Inputs.{flags_chars, flags_length, stand_in_length};
ghost use Rattle.rx_c.specs.Asked.{Asks, IsAskable, flags_given, wants_of};

use crate::codes::form_by;
use crate::options::Options;
use rx_parser::{Input, Options as ReadOptions};
use rx_tools::Form;

/// What is to be read, and what is wanted of it.
#[derive(Clone, Copy)]
pub struct Question<'a> {
    pub input: Input<'a>,
    pub wants: Wants,
}

/// What is wanted of a pattern that is read, and how its places are counted.
#[derive(Clone, Copy, Debug)]
pub struct Wants {
    pub utf16: bool,
    pub nodes: bool,
    pub spelling: bool,
}

impl<'a> Question<'a> {
    /// What is asked, or none where the form is none, a text is no UTF-8, or a place could leave 32 bits.
    pub fn of(pattern: &'a [u8], flags: &'a [u8], options: &Options) -> Option<Question<'a>>
        ensures { MatchOption result (¬ (IsAskable pattern.now flags.now options.now)) (Asks pattern.now flags.now options.now) }
    {
        let form = form_by(options.form)?;
        if !fits(pattern, stand_in_size(form), options.pattern_offset) {
            return None;
        }
        if !fits(flags, 0, options.flags_offset) {
            return None;
        }
        let Ok(pattern_text) = str::from_utf8(pattern) else {
            return None;
        };
        let Ok(flags) = str::from_utf8(flags) else {
            return None;
        };
        let input = Input {
            form,
            pattern_text,
            flags_text: flags_text(options.has_flags, flags),
            options: read_options(options),
        };
        Some(Question {
            input,
            wants: wants_of(options),
        })
    }
}

/// How many bytes stand in for an empty text.
fn stand_in_size(form: Form) -> usize
    ensures value { result ≡ stand_in_length form }
    ensures least { result ≤ 6 }
{
    match form {
        Form::Literal => 4,
        Form::Constructor => 6,
    }
}

/// Whether all places in a text, or in what stands in for it, fit 32 bits.
fn fits(text: &[u8], least: usize, offset: u32) -> bool
    requires { least ≤ 6 }
    ensures { IsTrue result ↔ (offset + max (length text.now) least < 2 ^ 32) }
{
    text.len() <= 0xffff_ffff && u64::from(offset) + (text.len().max(least) as u64) <= 0xffff_ffff
}

/// The flags text, if one is given.
fn flags_text(has_flags: bool, flags: &str) -> Option<&str>
    ensures value { flags_chars result ≡ flags_given has_flags flags.now }
    ensures len { flags_length result ≤ length flags.now }
{
    if has_flags { Some(flags) } else { None }
}

fn read_options(options: &Options) -> ReadOptions
    ensures pattern_offset { result.pattern_span_offset ≡ options.now.pattern_offset }
    ensures flags_offset { result.flags_span_offset ≡ options.now.flags_offset }
    ensures duplicate_names { result.duplicate_names ≡ options.now.duplicate_names }
    ensures buffer_boundaries { result.buffer_boundaries ≡ options.now.buffer_boundaries }
    ensures standard_strings { result.standard_strings ≡ options.now.standard_strings }
{
    ReadOptions {
        pattern_span_offset: options.pattern_offset,
        flags_span_offset: options.flags_offset,
        duplicate_names: options.duplicate_names,
        buffer_boundaries: options.buffer_boundaries,
        standard_strings: options.standard_strings,
    }
}

fn wants_of(options: &Options) -> Wants
    ensures { result ≡ wants_of options.now }
{
    Wants {
        utf16: options.utf16,
        nodes: options.nodes,
        spelling: options.spelling,
    }
}
