//! What the parser of units reads under each pair of rules.
ghost use Rattle.std.specs.Prelude.{◌+◌, ◌<◌, ◌^◌, length};

use crate::shown::Read;
use rx_parser::PatternParser;
use rx_rows::{Call, agree, short};
use rx_units::Reader;
use std::alloc::Global;
use std::test::Fail;

/// The units of a literal, read with `u`. The rules are that two groups may have one name, and that the buffer boundaries are read.
struct Units {
    span_offset: u32,
    rules: (bool, bool),
}

const AT_TEN: Units = Units {
    span_offset: 10,
    rules: (true, true),
};

const BOTH: Units = Units {
    span_offset: 0,
    rules: (true, true),
};

const DUPLICATE_NAMES: Units = Units {
    span_offset: 0,
    rules: (true, false),
};

const BUFFER_BOUNDARIES: Units = Units {
    span_offset: 0,
    rules: (false, true),
};

const NEITHER: Units = Units {
    span_offset: 0,
    rules: (false, false),
};

impl Call for Units {
    fn answer(&self, alloc: Global, asked: &str) -> Result<String, Fail> {
        let reader = Reader::initialize(alloc, short(asked)?, true, false)?;
        let span_offset = self.span_offset.min(1000);
        let parser = PatternParser::new(alloc, reader, (true, false), span_offset, self.rules);
        let read = parser.parse();
        Ok(format!(in alloc; "{}", Read(&read))?)
    }
}

/// Two groups of one name, which a bar parts or none does, groups of two names, and buffer boundaries.
const BOTH_ROWS: &str = r"(?<a>x)|(?<a>y) => 0..15 2 | 0..7 0..7 a 5..6 1; | 8..15 8..15 a 13..14 1;
(?<a>x)(?<a>y) => Diagnostic(DuplicatedCapturingGroupNames { first: Span { start: 3, end: 4 }, second: Span { start: 10, end: 11 } })
(?<a>x)|(?<b>y)\b => 0..17 2 | 0..7 0..7 a 5..6 1; | 8..17 8..15 b 13..14 1; 15..17 other;
\A(?:a|\Z)\z => 0..12 1 | 0..12 0..2 other; 2..10; 10..12 other;";

const DUPLICATE_NAMES_ROWS: &str =
    r"(?<a>x)|(?<a>y) => 0..15 2 | 0..7 0..7 a 5..6 1; | 8..15 8..15 a 13..14 1;
(?<a>x)(?<a>y) => Diagnostic(DuplicatedCapturingGroupNames { first: Span { start: 3, end: 4 }, second: Span { start: 10, end: 11 } })
(?<a>x)|(?<b>y)\b => 0..17 2 | 0..7 0..7 a 5..6 1; | 8..17 8..15 b 13..14 1; 15..17 other;
\A(?:a|\Z)\z => Diagnostic(ParsePatternIncomplete { span: Span { start: 1, end: 1 } })";

const BUFFER_BOUNDARIES_ROWS: &str =
    r"(?<a>x)|(?<a>y) => Diagnostic(DuplicatedCapturingGroupNames { first: Span { start: 3, end: 4 }, second: Span { start: 11, end: 12 } })
(?<a>x)(?<a>y) => Diagnostic(DuplicatedCapturingGroupNames { first: Span { start: 3, end: 4 }, second: Span { start: 10, end: 11 } })
(?<a>x)|(?<b>y)\b => 0..17 2 | 0..7 0..7 a 5..6 1; | 8..17 8..15 b 13..14 1; 15..17 other;
\A(?:a|\Z)\z => 0..12 1 | 0..12 0..2 other; 2..10; 10..12 other;";

const NEITHER_ROWS: &str =
    r"(?<a>x)|(?<a>y) => Diagnostic(DuplicatedCapturingGroupNames { first: Span { start: 3, end: 4 }, second: Span { start: 11, end: 12 } })
(?<a>x)(?<a>y) => Diagnostic(DuplicatedCapturingGroupNames { first: Span { start: 3, end: 4 }, second: Span { start: 10, end: 11 } })
(?<a>x)|(?<b>y)\b => 0..17 2 | 0..7 0..7 a 5..6 1; | 8..17 8..15 b 13..14 1; 15..17 other;
\A(?:a|\Z)\z => Diagnostic(ParsePatternIncomplete { span: Span { start: 1, end: 1 } })";

const AT_TEN_ROWS: &str =
    "a.b|c => 10..15 2 | 10..13 10..11 Symbol 61; 11..12 dot; 12..13 Symbol 62; | 14..15 14..15 Symbol 63;";

#[test]
fn units_under_each_pair_of_rules(rt: HostRuntime) -> Result<(), Fail> {
    for (units, rows) in [
        (&AT_TEN, AT_TEN_ROWS),
        (&BOTH, BOTH_ROWS),
        (&DUPLICATE_NAMES, DUPLICATE_NAMES_ROWS),
        (&BUFFER_BOUNDARIES, BUFFER_BOUNDARIES_ROWS),
        (&NEITHER, NEITHER_ROWS),
    ] {
        agree(rt.alloc(), units, rows)?;
    }
    Ok(())
}
