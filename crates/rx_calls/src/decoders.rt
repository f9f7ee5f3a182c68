//! Calls that decode quoted texts.
ghost use Rattle.std.specs.Prelude.{◌≡◌};

use crate::outcome::{Outcome, begin, end};
use crate::row::Row;
use crate::shown::units;
use rx_base::{List, Span};
use rx_rows::short;
use rx_units::string_literal_parser::StringFault;
use rx_units::template_literal_parser::TemplateFault;
use rx_units::{
    CodePoint, Options, Reader, ReaderFault, string_literal_parser, template_literal_parser,
};
use std::alloc::Global;
use std::test::Fail;

/// Strict mode code where `strict` is given.
fn options(given: &str) -> Options
    ensures { result.span_offset ≡ 0 }
{
    Options {
        strict_mode: given == "strict",
        span_offset: 0,
        combine_surrogate_pair: true,
        standard_strings: false,
    }
}

/// The span of a decoded text, and its units.
fn decoding_outcome(alloc: Global, span: Span, body: &List<CodePoint>) -> Result<Outcome, Fail> {
    let units = units(alloc, body.as_slice())?;
    let Span { start, end } = span;
    Ok(Outcome::Answer(format!(in alloc; "{start}..{end}: {units}")?))
}

pub fn string(rt: &impl Print, alloc: Global, row: &Row<'_>) -> Result<Outcome, Fail> {
    let text = short(row.text)?;
    begin(rt);
    let answer = match string_literal_parser::Parser::new(alloc, text, options(row.given)) {
        Ok(parser) => parser.parse(),
        Err(fault) => Err(fault),
    };
    end(rt);
    match answer {
        Ok(it) => decoding_outcome(alloc, it.span, &it.body),
        Err(StringFault::OutOfMemory) => Ok(Outcome::OutOfMemory),
        Err(fault) => Ok(Outcome::Answer(format!(in alloc; "{fault:?}")?)),
    }
}

pub fn template(rt: &impl Print, alloc: Global, row: &Row<'_>) -> Result<Outcome, Fail> {
    let text = short(row.text)?;
    begin(rt);
    let answer = match template_literal_parser::Parser::new(alloc, text, options(row.given)) {
        Ok(parser) => parser.parse(),
        Err(fault) => Err(fault),
    };
    end(rt);
    match answer {
        Ok(it) => decoding_outcome(alloc, it.span, &it.body),
        Err(TemplateFault::OutOfMemory) => Ok(Outcome::OutOfMemory),
        Err(fault) => Ok(Outcome::Answer(format!(in alloc; "{fault:?}")?)),
    }
}

/// A reader of a quoted text is made.
pub fn reader(rt: &impl Print, alloc: Global, row: &Row<'_>) -> Result<Outcome, Fail> {
    let text = short(row.text)?;
    begin(rt);
    let answer = Reader::initialize(alloc, text, false, true);
    end(rt);
    match answer {
        Ok(reader) => Ok(Outcome::Answer(units(alloc, reader.remaining_code_points())?)),
        Err(ReaderFault::OutOfMemory) => Ok(Outcome::OutOfMemory),
        Err(fault) => Ok(Outcome::Answer(format!(in alloc; "{fault:?}")?)),
    }
}
