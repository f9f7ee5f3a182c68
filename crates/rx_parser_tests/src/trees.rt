//! The trees of literals and of arguments, and copies of trees.
ghost use Rattle.std.specs.Prelude.{◌+◌, ◌<◌, ◌≤◌, ◌^◌, max, length};
ghost use Rattle.rx_parser.specs.Inputs.{flags_length};

use crate::reading::{LITERAL, LITERAL_AT_SEVEN, LITERAL_AT_TEN};
use crate::shown::Read;
use crate::written::flags_and_pattern;
use rx_parser::{ConstructorParser, LiteralParser};
use rx_rows::{Call, agree, short, text_of};
use rx_tools::{Form, Mode, Options, canonical_text};
use std::alloc::Global;
use std::test::Fail;

const TEXTS: &str =
    r"u a.b|c => Unicode itself 7..12 2 | 7..10 7..8 Symbol 61; 8..9 dot; 9..10 Symbol 62; | 11..12 11..12 Symbol 63;
u a/b => Unicode a\/b 7..10 1 | 7..10 7..8 Symbol 61; 8..9 Symbol 2f; 9..10 Symbol 62;
u \x41B => Unicode AB 7..12 1 | 7..12 7..11 HexadecimalEscape 41; 11..12 Symbol 42;
u \uD83D\uDE00 => Unicode 😀 7..19 1 | 7..19 7..19 UnicodeEscape 1f600;
u a{0,1} => Unicode a? 7..13 1 | 7..13 7..13 0 Some(1) true of 7..8;
u  => Unicode (?:) 7..11 1 | 7..11 7..11;
u (?mi-:a)|(?!b) => Unicode (?im:a)|(?!b) 7..21 2 | 7..15 7..15 9..12 3 0; | 16..21 16..21 other;
u (?<\u0061>.)\k<a>\1\x32 => Unicode (?<a>.)\k<a>\1\x32 7..30 1 | 7..30 7..19 a 17..18 1; 19..24 reference a; 24..26 reference 1; 26..30 HexadecimalEscape 32;
u [^\x61-c\b-] => Unicode [^a-c\x08\-] 7..19 1 | 7..19 7..19 other;
u \p{General_Category=L}\P{sc=Greek} => Unicode \p{L}\P{sc=Greek} 7..41 1 | 7..41 7..29 other; 29..41 other;";

const CHARACTERS: &str =
    r"u \x41B => Unicode AB 0..5 1 | 0..5 0..4 HexadecimalEscape 41; 4..5 Symbol 42;
u \uD83D\uDE00 => Unicode 😀 0..12 1 | 0..12 0..12 UnicodeEscape 1f600;
u \u{D83D}\u{DE00} => Unicode itself 0..16 1 | 0..16 0..8 UnicodeEscape d83d; 8..16 UnicodeEscape de00;
u é\0 => Unicode é\x00 0..4 1 | 0..4 0..2 Symbol e9; 2..4 Null 0;
u \cA => Unicode \x01 0..3 1 | 0..3 0..3 ControlLetter 1;
u \/ => Unicode itself 0..2 1 | 0..2 0..2 Identifier 2f;
u \n => Unicode itself 0..2 1 | 0..2 0..2 SingleEscape a;
- \0022 => Legacy \x022 0..5 1 | 0..5 0..4 Octal3 2; 4..5 Symbol 32;
- \18 => Legacy \x018 0..3 1 | 0..3 0..2 Octal1 1; 2..3 Symbol 38;
- \8\y => Legacy 8y 0..4 1 | 0..4 0..2 Identifier 38; 2..4 Identifier 79;
- \c => Legacy \\c 0..2 1 | 0..2 0..1 Symbol 5c; 1..2 Symbol 63;
- 😀 => Legacy \uD83D\uDE00 0..4 1 | 0..4 0..4 Symbol d83d; 4..4 Symbol de00;";

const GROUPS: &str =
    r"u a.b|c => Unicode itself 0..5 2 | 0..3 0..1 Symbol 61; 1..2 dot; 2..3 Symbol 62; | 4..5 4..5 Symbol 63;
u (?<é>a)(?i-m:b)\1\k<é> => Unicode itself 0..24 1 | 0..24 0..8 é 6..7 1; 8..16 10..13 1 2; 16..18 reference 1; 18..24 reference é;
u a. => Unicode itself 0..2 1 | 0..2 0..1 Symbol 61; 1..2 dot;";

#[test]
fn trees_of_literals(rt: HostRuntime) -> Result<(), Fail> {
    agree(rt.alloc(), &LITERAL_AT_SEVEN, TEXTS)?;
    agree(rt.alloc(), &LITERAL, CHARACTERS)?;
    agree(rt.alloc(), &LITERAL, GROUPS)?;
    let rows =
        "u a.b|c => Unicode itself 10..15 2 | 10..13 10..11 Symbol 61; 11..12 dot; 12..13 Symbol 62; | 14..15 14..15 Symbol 63;";
    agree(rt.alloc(), &LITERAL_AT_TEN, rows)
}

/// The spelling of a copy of the tree of a literal under `u`.
struct Copying;

impl Call for Copying {
    fn answer(&self, alloc: Global, asked: &str) -> Result<String, Fail> {
        let options = Options::default();
        let parser = LiteralParser::new(alloc, short(asked)?, Some("u"), options);
        let copy = parser.parse()?.clone(alloc)?;
        let text = canonical_text(alloc, &copy, Mode::Unicode)?;
        Ok(String::from_str(alloc, text.as_str())?)
    }
}

#[test]
fn copies_are_spelled_alike(rt: HostRuntime) -> Result<(), Fail> {
    let rows = r"a.b|c => a.b|c
a/b => a\/b
\x41B => AB
\uD83D\uDE00 => 😀
a{0,1} => a?
 => (?:)
(?mi-:a)|(?!b) => (?im:a)|(?!b)
(?<\u0061>.)\k<a>\1\x32 => (?<a>.)\k<a>\1\x32
[^\x61-c\b-] => [^a-c\x08\-]
\p{General_Category=L}\P{sc=Greek} => \p{L}\P{sc=Greek}";
    agree(rt.alloc(), &Copying, rows)
}

/// Asked are the flags, `-` where there are none, a blank and the pattern, both with their quotes where they are arguments.
struct Parsing {
    form: Form,
    pattern_span_offset: u32,
    flags_span_offset: u32,
    standard_strings: bool,
}

const LITERAL_PARSER: Parsing = Parsing {
    form: Form::Literal,
    pattern_span_offset: 10,
    flags_span_offset: 20,
    standard_strings: false,
};

const CONSTRUCTOR_PARSER: Parsing = Parsing {
    form: Form::Constructor,
    pattern_span_offset: 9,
    flags_span_offset: 20,
    standard_strings: false,
};

const AS_THE_CRATE: Parsing = Parsing {
    form: Form::Constructor,
    pattern_span_offset: 0,
    flags_span_offset: 0,
    standard_strings: false,
};

const AS_THE_STANDARD: Parsing = Parsing {
    form: Form::Constructor,
    pattern_span_offset: 0,
    flags_span_offset: 0,
    standard_strings: true,
};

impl Call for Parsing {
    fn answer(&self, alloc: Global, asked: &str) -> Result<String, Fail> {
        let text = text_of(alloc, asked)?.ok_or("no such character")?;
        let (flags, pattern) = flags_and_pattern(&text)?;
        let options = Options {
            pattern_span_offset: self.pattern_span_offset.min(1000),
            flags_span_offset: self.flags_span_offset.min(1000),
            standard_strings: self.standard_strings,
            ..Options::default()
        };
        let read = match self.form {
            Form::Literal => LiteralParser::new(alloc, pattern, flags, options).parse(),
            Form::Constructor => ConstructorParser::new(alloc, pattern, flags, options).parse(),
        };
        Ok(format!(in alloc; "{}", Read(&read))?)
    }
}

const OF_THE_CRATE: &str = r#"- "" => 1..5 1 | 1..5 1..5;
- "\n" => 1..3 1 | 1..3 1..3 Symbol a;
- "\012" => 1..5 1 | 1..5 1..5 Symbol a;
- `\012` => 1..5 1 | 1..5 1..4 Symbol 31; 4..5 Symbol 32;
- `a«A»b` => 1..4 1 | 1..4 1..2 Symbol 61; 2..3 Symbol a; 3..4 Symbol 62;
- `a«D»«A»b` => 1..5 1 | 1..5 1..2 Symbol 61; 2..4 Symbol a; 4..5 Symbol 62;
- "\«A»a" => 1..4 1 | 1..4 1..3 Symbol a; 3..4 Symbol 61;
- '\«D»«A»' => 1..4 1 | 1..4 1..4 Symbol a;
- "\x41\u0042C" => 1..12 1 | 1..12 1..5 HexadecimalEscape 41; 5..11 UnicodeEscape 42; 11..12 Symbol 43;
- "\0" => 1..3 1 | 1..3 1..3 Symbol 0;
- "\\0" => 1..4 1 | 1..4 1..4 Null 0;
- "\\012" => 1..6 1 | 1..6 1..6 Octal3 a;
- "\\\x30\x31" => 1..11 1 | 1..11 1..11 Octal2 1;
"u" "\\n" => 1..4 1 | 1..4 1..4 SingleEscape a;
"u" "\\\x6E" => 1..7 1 | 1..7 1..7 SingleEscape a;
"u" "\\x41" => 1..6 1 | 1..6 1..6 HexadecimalEscape 41;
"u" "\\$" => 1..4 1 | 1..4 1..4 Identifier 24;
"u" "\\\x24" => 1..7 1 | 1..7 1..7 Identifier 24;
- "😀" => 1..5 1 | 1..5 1..5 Symbol d83d; 5..5 Symbol de00;
- "\u{1F600}" => 1..10 1 | 1..10 1..10 UnicodeEscape d83d; 10..10 UnicodeEscape de00;
- "\uD83D\uDE00" => 1..13 1 | 1..13 1..7 UnicodeEscape d83d; 7..13 UnicodeEscape de00;
- "\\uD83D\\uDE00" => 1..15 1 | 1..15 1..8 UnicodeEscape d83d; 8..15 UnicodeEscape de00;
"u" "😀" => 1..5 1 | 1..5 1..5 Symbol 1f600;
"u" "\u{1F600}" => 1..10 1 | 1..10 1..10 UnicodeEscape 1f600;
"u" "\uD83D\uDE00" => 1..13 1 | 1..13 1..7 UnicodeEscape d83d; 7..13 UnicodeEscape de00;
"u" "\\uD83D\\uDE00" => 1..15 1 | 1..15 1..15 UnicodeEscape 1f600;
"u" "\\uD83D\uDE00" => 1..14 1 | 1..14 1..8 UnicodeEscape d83d; 8..14 UnicodeEscape de00;
"u" "a\uDE00" => 1..8 1 | 1..8 1..2 Symbol 61; 2..8 UnicodeEscape de00;
"u" "(?<\x61>.)\\k<a>\\1" => 1..20 1 | 1..20 1..11 a 9..10 1; 11..17 reference a; 17..20 reference 1;
"u" "(?\x69-m:b)" => 1..12 1 | 1..12 1..12 3..9 1 2;"#;

const OF_THE_STANDARD: &str = r#"- "" => 1..5 1 | 1..5 1..5;
- "\«A»" => 1..5 1 | 1..5 1..5;
- `\«D»«A»` => 1..5 1 | 1..5 1..5;
- "a\«A»b" => 1..5 1 | 1..5 1..2 Symbol 61; 2..5 Symbol 62;
- "\«D»«A»a" => 1..5 1 | 1..5 1..5 Symbol 61;
- `a«D»b` => 1..4 1 | 1..4 1..2 Symbol 61; 2..3 Symbol a; 3..4 Symbol 62;
- `a«D»«A»b` => 1..5 1 | 1..5 1..2 Symbol 61; 2..4 Symbol a; 4..5 Symbol 62;
- "\uD83D\uDE00" => 1..13 1 | 1..13 1..7 UnicodeEscape d83d; 7..13 UnicodeEscape de00;
- "😀" => 1..5 1 | 1..5 1..5 Symbol d83d; 5..5 Symbol de00;
"u" "😀" => 1..5 1 | 1..5 1..5 Symbol 1f600;
"u" "\uD83D\uDE00" => 1..13 1 | 1..13 1..13 UnicodeEscape 1f600;
"u" "\uD83D\«A»\uDE00" => 1..15 1 | 1..15 1..15 UnicodeEscape 1f600;
"u" "\uD83D\u{DE00}a" => 1..16 1 | 1..16 1..15 UnicodeEscape 1f600; 15..16 Symbol 61;
"u" "\uD83Da\uDE00" => 1..14 1 | 1..14 1..7 UnicodeEscape d83d; 7..8 Symbol 61; 8..14 UnicodeEscape de00;
"u" "\\uD83D\uDE00" => 1..14 1 | 1..14 1..8 UnicodeEscape d83d; 8..14 UnicodeEscape de00;
"\«A»u" "\uD83D\uDE00" => 1..13 1 | 1..13 1..13 UnicodeEscape 1f600;"#;

#[test]
fn trees_of_parsers(rt: HostRuntime) -> Result<(), Fail> {
    let rows =
        "u a.b|c => 10..15 2 | 10..13 10..11 Symbol 61; 11..12 dot; 12..13 Symbol 62; | 14..15 14..15 Symbol 63;";
    agree(rt.alloc(), &LITERAL_PARSER, rows)?;
    let rows =
        "'u' \"a.b|c\" => 10..15 2 | 10..13 10..11 Symbol 61; 11..12 dot; 12..13 Symbol 62; | 14..15 14..15 Symbol 63;";
    agree(rt.alloc(), &CONSTRUCTOR_PARSER, rows)?;
    agree(rt.alloc(), &AS_THE_CRATE, OF_THE_CRATE)?;
    agree(rt.alloc(), &AS_THE_STANDARD, OF_THE_STANDARD)
}
