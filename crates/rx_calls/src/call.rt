use crate::outcome::Outcome;
use crate::patterns::TreeReader;
use crate::row::Row;
use crate::{changes, decoders, patterns};
use rx_tools::Form;
use std::alloc::Global;
use std::test::Fail;

/// What the call of a row comes to.
pub fn outcome(rt: &impl Print, alloc: Global, row: &Row<'_>) -> Result<Outcome, Fail> {
    match row.call {
        "canonical(Literal)" => patterns::spell(rt, alloc, Form::Literal, row),
        "canonical(Constructor)" => patterns::spell(rt, alloc, Form::Constructor, row),
        "read_pattern(Literal)" => patterns::read(rt, alloc, TreeReader::Literal, row),
        "read_pattern(Constructor)" => patterns::read(rt, alloc, TreeReader::Constructor, row),
        "LiteralParser" => patterns::read(rt, alloc, TreeReader::LiteralParser, row),
        "ConstructorParser" => patterns::read(rt, alloc, TreeReader::ConstructorParser, row),
        "PatternParser" => patterns::read_units(rt, alloc, row),
        "canonical_text" => patterns::spelling(rt, alloc, row),
        "clone" => patterns::copy(rt, alloc, row),
        "string_literal_parser" => decoders::string(rt, alloc, row),
        "template_literal_parser" => decoders::template(rt, alloc, row),
        "Reader::initialize" => decoders::reader(rt, alloc, row),
        "Text::push" => changes::push(rt, alloc, row),
        "Text::push_str" => changes::push_str(rt, alloc, row),
        "List::push" => changes::push_byte(rt, alloc, row),
        "handle_code_point" => changes::push_code_point(rt, alloc, row),
        "initialize_with_parsing" => changes::count_groups(rt, alloc, row),
        _ => Err(Fail::new("no such call")),
    }
}
