//! What a value asks for.
ghost use Rattle.std.specs.Prelude.{◌≡◌, ◌||◌, IfErr, IfOk, length, max, not};
ghost use Rattle.json.specs.Value.{value_view};
ghost use Rattle.rx_parser.specs.Inputs.{flags_length, stand_in_length as stand_in_bytes};
ghost use Rattle.rx_json_reply.specs.Held.{Holds, options_asked};
ghost use Rattle.rx_json_reply.specs.Requests.{asked_of, fits as places_fit, is_literal, request_of, whole_faults};
ghost use Rattle.rx_json_reply.specs.Wrongs.{first_wrong, wrong_of};

use crate::field::Field;
use crate::members::check_members;
use crate::request::Request;
use crate::value::{form_at, offset_at, text_at, truth_at};
use crate::want::Want;
use crate::wrong::Wrong;
use json::Value;
use rx_tools::{Form, Options};

impl<'a> Request<'a> {
    /// What a value asks for, or why it asks for nothing.
    pub fn parse(value: &Value<'a>) -> Result<Request<'a>, Wrong<'a>>
        ensures asks { IfOk result (λ request. (request_of (value_view value.now) ≡ Ok (asked_of (value_view value.now))) × Holds request (asked_of (value_view value.now))) }
        ensures wrong { IfErr result (λ wrong. request_of (value_view value.now) ≡ Err (wrong_of wrong)) }
    {
        let Value::Object(members) = value else {
            return Err(Wrong::NotObject);
        };
        check_members(members.as_slice())?;
        Request::read(value)
    }

    /// What an object asks for whose members are right, or why it asks for nothing.
    fn read(value: &Value<'a>) -> Result<Request<'a>, Wrong<'a>>
        ensures asks { IfOk result (λ request. (first_wrong (whole_faults (value_view value.now)) ≡ None) × Holds request (asked_of (value_view value.now))) }
        ensures wrong { IfErr result (λ wrong. first_wrong (whole_faults (value_view value.now)) ≡ Some (wrong_of wrong)) }
    {
        let Some(pattern) = text_at(value, Field::Pattern) else {
            return Err(Wrong::Missing);
        };
        let form = form_at(value);
        let flags = text_at(value, Field::Flags);
        let options = options_at(value);
        if !pattern_fits(pattern, form, &options) {
            return Err(Wrong::TooLarge(Field::Offset));
        }
        if !flags_fit(flags, &options) {
            return Err(Wrong::TooLarge(Field::FlagsOffset));
        }
        let want = Want::at(value);
        if !can_tell(form, &want) {
            return Err(Wrong::Features);
        }
        Ok(Request {
            form,
            pattern,
            flags,
            options,
            want,
        })
    }
}

/// Whether the places of a pattern fit 32 bits.
fn pattern_fits(pattern: &str, form: Form, options: &Options) -> bool
    ensures { result ≡ places_fit options.now.pattern_span_offset (max (length pattern.now) (stand_in_bytes form)) }
{
    fits(
        options.pattern_span_offset,
        pattern.len().max(stand_in_length(form)),
    )
}

/// Whether those of flags do.
fn flags_fit(flags: Option<&str>, options: &Options) -> bool
    ensures { result ≡ places_fit options.now.flags_span_offset (flags_length flags.entry) }
{
    fits(options.flags_span_offset, length_of(flags))
}

/// How many bytes a text has, if there is one.
fn length_of(text: Option<&str>) -> usize
    ensures { result ≡ flags_length text.entry }
{
    match text {
        Some(text) => text.len(),
        None => 0,
    }
}

/// Whether the places of a text of this length fit 32 bits.
fn fits(offset: u32, length: usize) -> bool
    ensures { result ≡ places_fit offset length }
{
    (length as u64) < 4294967296 - u64::from(offset)
}

/// Whether what is wanted can be told of this form.
fn can_tell(form: Form, want: &Want) -> bool
    ensures { result ≡ (is_literal form || not want.now.unsupported) }
{
    matches!(form, Form::Literal) || !want.unsupported
}

/// How many bytes stand in for an empty text.
fn stand_in_length(form: Form) -> usize
    ensures { result ≡ stand_in_bytes form }
{
    match form {
        Form::Literal => 4,
        Form::Constructor => 6,
    }
}

fn options_at(request: &Value<'_>) -> Options
    ensures { result ≡ options_asked (value_view request.now) }
{
    let usual = Options::default();
    Options {
        pattern_span_offset: offset_at(request, Field::Offset),
        flags_span_offset: offset_at(request, Field::FlagsOffset),
        duplicate_names: truth_at(request, Field::DuplicateNames, usual.duplicate_names),
        buffer_boundaries: truth_at(request, Field::BufferBoundaries, usual.buffer_boundaries),
        standard_strings: truth_at(request, Field::StandardStrings, usual.standard_strings),
    }
}
