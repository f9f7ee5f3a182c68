//! Calls that read patterns, spell them and copy them. Flags are given, `-` where there are none.
ghost use Rattle.std.specs.Prelude.{◌≤◌, IfSome, length};

use crate::outcome::{Outcome, begin, end};
use crate::row::Row;
use crate::shown::{refused, tree};
use rx_ast::Pattern;
use rx_base::{Fault, OutOfMemory};
use rx_parser::{ConstructorParser, LiteralParser, PatternParser};
use rx_rows::short;
use rx_tools::{Form, Mode, Options, canonical, canonical_text, read_pattern};
use rx_units::Reader;
use std::alloc::Global;
use std::test::Fail;

/// A call that reads a pattern to its tree: `read_pattern` in a form, or a parser.
#[derive(Clone, Copy)]
pub enum TreeReader {
    Literal,
    Constructor,
    LiteralParser,
    ConstructorParser,
}

impl TreeReader {
    fn tree(self, alloc: Global, text: &str, flags: Option<&str>) -> Result<Pattern, Fault>
        requires text { length text.now ≤ 1000 }
        requires flags { IfSome flags (λ it. length it.now ≤ 1000) }
    {
        let options = Options::default();
        match self {
            TreeReader::Literal => Ok(read_pattern(alloc, Form::Literal, text, flags, options)?.0),
            TreeReader::Constructor => {
                Ok(read_pattern(alloc, Form::Constructor, text, flags, options)?.0)
            }
            TreeReader::LiteralParser => LiteralParser::new(alloc, text, flags, options).parse(),
            TreeReader::ConstructorParser => {
                ConstructorParser::new(alloc, text, flags, options).parse()
            }
        }
    }
}

/// The flags text, which is absent where `-` stands.
fn flags(given: &str) -> Option<&str>
    ensures { IfSome result (λ it. length it.now ≤ length given.now) }
{
    if given == "-" { None } else { Some(given) }
}

/// What is answered with a tree, or with a fault.
fn answered(alloc: Global, answer: Result<Pattern, Fault>) -> Result<Outcome, Fail> {
    match answer {
        Ok(pattern) => Ok(Outcome::Answer(tree(alloc, &pattern)?)),
        Err(fault) => refused(alloc, fault),
    }
}

/// A pattern is read and spelled.
pub fn spell(rt: &impl Print, alloc: Global, form: Form, row: &Row<'_>) -> Result<Outcome, Fail> {
    let flags = flags(short(row.given)?);
    let text = short(row.text)?;
    begin(rt);
    let answer = canonical(alloc, form, text, flags, Options::default());
    end(rt);
    match answer {
        Ok(it) => {
            let tree = tree(alloc, &it.pattern)?;
            let (mode, text) = (it.mode, it.text.as_str());
            Ok(Outcome::Answer(format!(in alloc; "{mode:?} {text} {tree}")?))
        }
        Err(fault) => refused(alloc, fault),
    }
}

/// A pattern is read.
pub fn read(
    rt: &impl Print,
    alloc: Global,
    reading: TreeReader,
    row: &Row<'_>,
) -> Result<Outcome, Fail> {
    let flags = flags(short(row.given)?);
    let text = short(row.text)?;
    begin(rt);
    let answer = reading.tree(alloc, text, flags);
    end(rt);
    answered(alloc, answer)
}

/// The units of a literal are read under `u`.
pub fn read_units(rt: &impl Print, alloc: Global, row: &Row<'_>) -> Result<Outcome, Fail> {
    let reader = Reader::initialize(alloc, short(row.text)?, true, false)?;
    begin(rt);
    let answer = PatternParser::new(alloc, reader, (true, false), 0, (true, true)).parse();
    end(rt);
    answered(alloc, answer)
}

/// The tree of a literal, and its mode.
fn literal(alloc: Global, row: &Row<'_>) -> Result<(Pattern, Mode), Fail> {
    let flags = flags(short(row.given)?);
    let text = short(row.text)?;
    let options = Options::default();
    match read_pattern(alloc, Form::Literal, text, flags, options) {
        Ok(read) => Ok(read),
        Err(fault) => Err(Fail::from(fault)),
    }
}

/// The tree of a literal is spelled.
pub fn spelling(rt: &impl Print, alloc: Global, row: &Row<'_>) -> Result<Outcome, Fail> {
    let (pattern, mode) = literal(alloc, row)?;
    begin(rt);
    let answer = canonical_text(alloc, &pattern, mode);
    end(rt);
    match answer {
        Ok(text) => Ok(Outcome::Answer(String::from_str(alloc, text.as_str())?)),
        Err(OutOfMemory) => Ok(Outcome::OutOfMemory),
    }
}

/// The tree of a literal is copied.
pub fn copy(rt: &impl Print, alloc: Global, row: &Row<'_>) -> Result<Outcome, Fail> {
    let (pattern, _) = literal(alloc, row)?;
    begin(rt);
    let answer = pattern.clone(alloc);
    end(rt);
    match answer {
        Ok(copy) => answered(alloc, Ok(copy)),
        Err(OutOfMemory) => Ok(Outcome::OutOfMemory),
    }
}
