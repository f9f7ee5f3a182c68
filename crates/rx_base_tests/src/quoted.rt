//! The decoders of quoted texts. A row asks for a text, and has its span and each unit that it is decoded to, with `x` or `u` after one that was escaped
//! so; or the fault and its span.
ghost use Rattle.std.specs.Prelude.{◌+◌, ◌<◌, ◌^◌, length};

use crate::units::Walk;
use rx_base::{List, Span};
use rx_rows::{Call, agree, text_of};
use rx_units::string_literal_parser::{LegacyKind, StringFault, StringLiteralKind};
use rx_units::template_literal_parser::TemplateFault;
use rx_units::{
    CodePoint, EscapeKind, Options, ReaderFault, string_literal_parser, template_literal_parser,
};
use std::alloc::{AllocError, Global};
use std::test::Fail;

/// Asked is what stands between the quotes; where a quote is empty, a text with its quotes.
#[derive(Clone, Copy)]
struct Quoted {
    quote: &'static str,
    template: bool,
    options: Options,
}

impl Call for Quoted {
    fn answer(&self, alloc: Global, asked: &str) -> Result<String, Fail> {
        Ok(decoded(alloc, *self, asked).ok_or(asked)?)
    }
}

/// The answer, or none where memory ran out, or the text ends past the greatest offset.
fn decoded(alloc: Global, quoted: Quoted, asked: &str) -> Option<String> {
    let inner = text_of(alloc, asked).ok()??;
    let quote = quoted.quote;
    let text = format!(in alloc; "{quote}{inner}{quote}").ok()?;
    if text.len() > (u32::MAX - quoted.options.span_offset) as usize {
        return None;
    }
    if quoted.template {
        template(alloc, &text, quoted.options)
    } else {
        string(alloc, &text, quoted.options)
    }
}

fn string(alloc: Global, text: &str, options: Options) -> Option<String>
    requires { options.span_offset + length text.now < 2 ^ 32 }
{
    let parser = string_literal_parser::Parser::new(alloc, text, options).ok()?;
    match parser.parse() {
        Ok(it) => units(alloc, it.span, &it.body).ok(),
        Err(fault) => fault_text(alloc, string_fault(fault)?).ok(),
    }
}

fn template(alloc: Global, text: &str, options: Options) -> Option<String>
    requires { options.span_offset + length text.now < 2 ^ 32 }
{
    let parser = template_literal_parser::Parser::new(alloc, text, options).ok()?;
    match parser.parse() {
        Ok(it) => units(alloc, it.span, &it.body).ok(),
        Err(fault) => fault_text(alloc, template_fault(fault)?).ok(),
    }
}

/// A span, and after a colon the value and the span of each unit, with `x` or `u` after one that was escaped so.
pub fn units(alloc: Global, span: Span, body: &List<CodePoint>) -> Result<String, AllocError> {
    let mut shown = format!(in alloc; "{}..{}:", span.start, span.end)?;
    for unit in body.as_slice() {
        let text = unit_text(alloc, *unit)?;
        shown.push_str(&text)?;
    }
    Ok(shown)
}

fn unit_text(alloc: Global, unit: CodePoint) -> Result<String, AllocError> {
    let Span { start, end } = unit.span;
    let value = unit.value;
    let kind = match unit.escape_kind {
        EscapeKind::None => "",
        EscapeKind::Unicode => "u",
        EscapeKind::Hexadecimal => "x",
    };
    format!(in alloc; " {value:X}@{start}..{end}{kind}")
}

fn fault_text(alloc: Global, (name, span): (&str, Span)) -> Result<String, AllocError> {
    format!(in alloc; "{name} {}..{}", span.start, span.end)
}

/// The name and the span of a fault, but where memory ran out.
fn string_fault(fault: StringFault) -> Option<(&'static str, Span)> {
    match fault {
        StringFault::OutOfMemory => None,
        StringFault::InvalidInput { span } => Some(("invalid", span)),
        StringFault::LegacyInStrictMode { what, span } => match what {
            LegacyKind::Octal => Some(("octal", span)),
            LegacyKind::NonOctalDecimal => Some(("non octal", span)),
        },
        StringFault::TooLargeUnicodeEscapeSequence { span } => Some(("too large", span)),
    }
}

/// The name and the span of a fault, but where memory ran out.
fn template_fault(fault: TemplateFault) -> Option<(&'static str, Span)> {
    match fault {
        TemplateFault::OutOfMemory => None,
        TemplateFault::InvalidInput { span } => Some(("invalid", span)),
        TemplateFault::TemplateSubstitution { span } => Some(("substitution", span)),
        TemplateFault::TooLargeUnicodeEscapeSequence { span } => Some(("too large", span)),
        TemplateFault::InvalidHexEscape { span } => Some(("hex", span)),
        TemplateFault::InvalidUnicodeEscape { span } => Some(("unicode", span)),
        TemplateFault::NotEscapeSequence { span } => Some(("no escape", span)),
    }
}

/// As the Rust crate decodes, from byte 0 on.
const SLOPPY: Options = Options {
    strict_mode: false,
    span_offset: 0,
    combine_surrogate_pair: true,
    standard_strings: false,
};

const STRICT: Options = Options {
    strict_mode: true,
    ..SLOPPY
};

const APART: Options = Options {
    combine_surrogate_pair: false,
    ..SLOPPY
};

const STANDARD: Options = Options {
    standard_strings: true,
    ..SLOPPY
};

const STANDARD_APART: Options = Options {
    combine_surrogate_pair: false,
    ..STANDARD
};

const STRING: Quoted = Quoted {
    quote: "",
    template: false,
    options: SLOPPY,
};

const TEMPLATE: Quoted = Quoted {
    template: true,
    ..STRING
};

const DOUBLE_QUOTES: Quoted = Quoted {
    quote: "\"",
    ..STRING
};

const SINGLE_QUOTES: Quoted = Quoted {
    quote: "'",
    ..STRING
};

const GRAVE_ACCENTS: Quoted = Quoted {
    quote: "`",
    ..TEMPLATE
};

/// Compares what the rows say of texts in each of these quotes.
fn agree_in(alloc: Global, quotes: &[Quoted], options: Options, rows: &str) -> Result<(), Fail> {
    for quoted in quotes {
        agree(alloc, &Quoted { options, ..*quoted }, rows)?;
    }
    Ok(())
}

#[test]
fn in_all_quotes(rt: HostRuntime) -> Result<(), Fail> {
    let alloc = rt.alloc();
    let quotes = [DOUBLE_QUOTES, SINGLE_QUOTES, GRAVE_ACCENTS];
    agree_in(alloc, &quotes, SLOPPY, ESCAPES)?;
    agree_in(alloc, &quotes, SLOPPY, CONTINUATIONS)?;
    agree_in(alloc, &quotes, SLOPPY, SURROGATES)?;
    agree_in(alloc, &quotes, APART, SURROGATES_APART)?;
    agree_in(alloc, &quotes, STANDARD, VALUES_OF_THE_STANDARD)?;
    agree_in(alloc, &quotes, STANDARD_APART, VALUES_OF_THE_STANDARD_APART)
}

#[test]
fn in_strings(rt: HostRuntime) -> Result<(), Fail> {
    let alloc = rt.alloc();
    let quotes = [DOUBLE_QUOTES, SINGLE_QUOTES];
    agree_in(alloc, &quotes, SLOPPY, LINE_TERMINATORS_IN_STRINGS)?;
    agree_in(alloc, &quotes, SLOPPY, DIGITS_IN_STRINGS)?;
    agree_in(alloc, &quotes, SLOPPY, NO_ESCAPES_IN_STRINGS)?;
    agree_in(alloc, &[DOUBLE_QUOTES], STANDARD, DIGITS_OF_THE_STANDARD)?;
    agree_in(alloc, &[STRING], STRICT, LEGACY_IN_STRICT_MODE)?;
    agree_in(alloc, &[STRING], SLOPPY, ENDS_OF_STRINGS)
}

#[test]
fn in_templates(rt: HostRuntime) -> Result<(), Fail> {
    let alloc = rt.alloc();
    let quotes = [GRAVE_ACCENTS];
    agree_in(alloc, &quotes, SLOPPY, LINE_TERMINATORS_IN_TEMPLATES)?;
    agree_in(alloc, &quotes, SLOPPY, DIGITS_IN_TEMPLATES)?;
    agree_in(alloc, &quotes, STRICT, DIGITS_IN_TEMPLATES)?;
    agree_in(alloc, &quotes, SLOPPY, NO_ESCAPES_IN_TEMPLATES)?;
    agree_in(alloc, &quotes, STANDARD, TEMPLATES_OF_THE_STANDARD)?;
    agree_in(alloc, &quotes, STANDARD_APART, TEMPLATES_OF_THE_STANDARD)?;
    agree_in(alloc, &[TEMPLATE], SLOPPY, ENDS_OF_TEMPLATES)
}

#[test]
fn spans_have_an_offset(rt: HostRuntime) -> Result<(), Fail> {
    let alloc = rt.alloc();
    let (mut strict, mut sloppy, mut last) = (STRICT, SLOPPY, APART);
    strict.span_offset = 10;
    agree_in(alloc, &[STRING], strict, STRINGS_WITH_AN_OFFSET)?;
    sloppy.span_offset = 10;
    agree_in(alloc, &[TEMPLATE], sloppy, TEMPLATES_WITH_AN_OFFSET)?;
    last.span_offset = 4294967290;
    agree_in(
        alloc,
        &[SINGLE_QUOTES, GRAVE_ACCENTS],
        last,
        GREATEST_OFFSET,
    )
}

fn kind_of(alloc: Global, text: &str) -> Option<StringLiteralKind> {
    if text.len() > 1000 {
        return None;
    }
    let parser = string_literal_parser::Parser::new(alloc, text, SLOPPY).ok()?;
    Some(parser.parse().ok()?.kind)
}

#[test]
fn kinds_of_strings(rt: HostRuntime) {
    assert_eq!(rt;
        [kind_of(rt.alloc(), "\"a\""), kind_of(rt.alloc(), "'a'")],
        [
            Some(StringLiteralKind::Double),
            Some(StringLiteralKind::Single)
        ]
    );
}

#[test]
fn readers_of_quoted_texts(rt: HostRuntime) -> Result<(), Fail> {
    let mut walk = Walk {
        unicode_mode: true,
        quoted: true,
    };
    agree(rt.alloc(), &walk, READERS_OF_CODE_POINTS)?;
    walk.unicode_mode = false;
    agree(rt.alloc(), &walk, READERS_OF_CODE_UNITS)
}

const MESSAGES_OF_STRINGS: &str = "Out of memory
String literal should be wrapped with ' or \", or escaped properly
Not allowed octal escape sequence in strict mode
Not allowed non octal decimal escape sequence in strict mode
Too large unicode escape sequence";

const MESSAGES_OF_TEMPLATES: &str = "Out of memory
Template literal should be wrapped with ` or escaped properly
Template literal should not contain unescaped `${}`
Too large unicode escape sequence
Invalid hex escape sequence
Invalid unicode escape sequence
Octal escapes, `\\8` and `\\9` are not allowed in template literals";

const MESSAGES_OF_READERS: &str = "Out of memory
Too large unicode escape sequence
Invalid hex escape sequence";

/// A span of which no message tells.
const SPAN: Span = Span { start: 1, end: 2 };

fn messages_of_strings(alloc: Global) -> Result<String, AllocError> {
    format!(in alloc;
        "{}\n{}\n{}\n{}\n{}",
        StringFault::OutOfMemory,
        StringFault::InvalidInput { span: SPAN },
        StringFault::LegacyInStrictMode {
            what: LegacyKind::Octal,
            span: SPAN
        },
        StringFault::LegacyInStrictMode {
            what: LegacyKind::NonOctalDecimal,
            span: SPAN
        },
        StringFault::TooLargeUnicodeEscapeSequence { span: SPAN }
    )
}

fn messages_of_templates(alloc: Global) -> Result<String, AllocError> {
    format!(in alloc;
        "{}\n{}\n{}\n{}\n{}\n{}\n{}",
        TemplateFault::OutOfMemory,
        TemplateFault::InvalidInput { span: SPAN },
        TemplateFault::TemplateSubstitution { span: SPAN },
        TemplateFault::TooLargeUnicodeEscapeSequence { span: SPAN },
        TemplateFault::InvalidHexEscape { span: SPAN },
        TemplateFault::InvalidUnicodeEscape { span: SPAN },
        TemplateFault::NotEscapeSequence { span: SPAN }
    )
}

fn messages_of_readers(alloc: Global) -> Result<String, AllocError> {
    format!(in alloc;
        "{}\n{}\n{}",
        ReaderFault::OutOfMemory,
        ReaderFault::String(StringFault::TooLargeUnicodeEscapeSequence { span: SPAN }),
        ReaderFault::Template(TemplateFault::InvalidHexEscape { span: SPAN })
    )
}

#[test]
fn messages_of_faults(rt: HostRuntime) -> Result<(), AllocError> {
    let strings = messages_of_strings(rt.alloc())?;
    assert!(rt; strings.as_str() == MESSAGES_OF_STRINGS, "{strings}");
    let templates = messages_of_templates(rt.alloc())?;
    assert!(rt; templates.as_str() == MESSAGES_OF_TEMPLATES, "{templates}");
    let readers = messages_of_readers(rt.alloc())?;
    assert!(rt; readers.as_str() == MESSAGES_OF_READERS, "{readers}");
    Ok(())
}

/// Escapes are alike in all quotes.
const ESCAPES: &str = r#" => 0..2:
ab => 0..4: 61@1..2 62@2..3
é€😀 => 0..11: E9@1..3 20AC@3..6 1F600@6..10
\'\"\\ => 0..8: 27@1..3 22@3..5 5C@5..7
\b\t\n\v\f\r => 0..14: 8@1..3 9@3..5 A@5..7 B@7..9 C@9..11 D@11..13
\a\-\/\é\😀\ \{\B => 0..22: 61@1..3 2D@3..5 2F@5..7 E9@7..10 1F600@10..15 20@15..17 7B@17..19 42@19..21
\d+ => 0..5: 64@1..3 2B@3..4
\`\$ => 0..6: 60@1..3 24@3..5
\U0041\X41 => 0..12: 55@1..3 30@3..4 30@4..5 34@5..6 31@6..7 58@7..9 34@9..10 31@10..11
\0 => 0..4: 0@1..3
\0a\0\0 => 0..9: 0@1..3 61@3..4 0@4..6 0@6..8
\x41\xfF\x00 => 0..14: 41@1..5x FF@5..9x 0@9..13x
\x411 => 0..7: 41@1..5x 31@5..6
\u0041\uD83d\uFFFF => 0..20: 41@1..7u D83D@7..13u FFFF@13..19u
\u00411 => 0..9: 41@1..7u 31@7..8
\u{41}\u{0}\u{00000000041} => 0..28: 41@1..7u 0@7..12u 41@12..27u
\u{10FFFF}\u{00000010ffff} => 0..28: 10FFFF@1..11u 10FFFF@11..27u
$$a{ => 0..6: 24@1..2 24@2..3 61@3..4 7B@4..5
{$}$ => 0..6: 7B@1..2 24@2..3 7D@3..4 24@4..5
$\{a} => 0..7: 24@1..2 7B@2..4 61@4..5 7D@5..6
\${a} => 0..7: 24@1..3 7B@3..4 61@4..5 7D@5..6"#;

/// Line continuations, and line terminators that may stand in all quotes.
const CONTINUATIONS: &str = r"\«A» => 0..4: A@1..3
\«D» => 0..4: D@1..3
\«D»«A» => 0..5: A@1..4
\«2028» => 0..6: 2028@1..5
\«2029» => 0..6: 2029@1..5
a\«D»\«A»b => 0..8: 61@1..2 D@2..4 A@4..6 62@6..7
a«2028»b => 0..7: 61@1..2 2028@2..5 62@5..6
«2029» => 0..5: 2029@1..4
«B»«85» => 0..5: B@1..2 85@2..4";

/// Line terminators in strings.
const LINE_TERMINATORS_IN_STRINGS: &str = r"a«A»b => invalid 2..2
a«D»b => invalid 2..2
a«D»«A»b => invalid 2..2
\«A»«D» => invalid 3..3
\«D»«A»«A» => invalid 4..4";

/// Line terminators in templates.
const LINE_TERMINATORS_IN_TEMPLATES: &str = r"a«A»b => 0..5: 61@1..2 A@2..3 62@3..4
a«D»b => 0..5: 61@1..2 D@2..3 62@3..4
a«D»«A»b => 0..6: 61@1..2 A@2..4 62@4..5
«A»«D» => 0..4: A@1..2 D@2..3
«D»«D»«A» => 0..5: D@1..2 A@2..4
\«A»«D» => 0..5: A@1..3 D@3..4
\«D»«A»«A» => 0..6: A@1..4 A@4..5";

/// Digits after backslashes of strings.
const DIGITS_IN_STRINGS: &str = r"\00 => 0..5: 0@1..4
\000 => 0..6: 0@1..5
\0000 => 0..7: 0@1..5 30@5..6
\01 => 0..5: 1@1..4
\012 => 0..6: A@1..5
\0012 => 0..7: 1@1..5 32@5..6
\018 => 0..6: 1@1..4 38@4..5
\08 => 0..5: 0@1..3 38@3..4
\09 => 0..5: 0@1..3 39@3..4
\1 => 0..4: 1@1..3
\18 => 0..5: 1@1..3 38@3..4
\7a => 0..5: 7@1..3 61@3..4
\12 => 0..5: A@1..4
\128 => 0..6: A@1..4 38@4..5
\123 => 0..6: 53@1..5
\1234 => 0..7: 53@1..5 34@5..6
\377 => 0..6: FF@1..5
\378 => 0..6: 1F@1..4 38@4..5
\4 => 0..4: 4@1..3
\48 => 0..5: 4@1..3 38@3..4
\47 => 0..5: 27@1..4
\400 => 0..6: 20@1..4 30@4..5
\477 => 0..6: 27@1..4 37@4..5
\777 => 0..6: 3F@1..4 37@4..5
\8\9 => 0..6: 38@1..3 39@3..5
\80 => 0..5: 38@1..3 30@3..4";

/// Digits after backslashes of templates.
const DIGITS_IN_TEMPLATES: &str = r"\00 => 0..5: 30@1..4
\000 => 0..6: 30@1..4 30@4..5
\01 => 0..5: 31@1..4
\012 => 0..6: 31@1..4 32@4..5
\08 => 0..5: 38@1..4
\09 => 0..5: 39@1..4
\1 => 0..4: 31@1..3
\12 => 0..5: 31@1..3 32@3..4
\377 => 0..6: 33@1..3 37@3..4 37@4..5
\8\9 => 0..6: 38@1..3 39@3..5";

/// Legacy escapes of strings in strict mode.
const LEGACY_IN_STRICT_MODE: &str = r#""\0" => 0..4: 0@1..3
'\0a\n\x41\d' => 0..13: 0@1..3 61@3..4 A@4..6 41@6..10x 64@10..12
"\00" => octal 1..4
"\01" => octal 1..4
'\012' => octal 1..5
"\08" => octal 1..3
"\09" => octal 1..3
'\1' => octal 1..3
"\18" => octal 1..3
"\12" => octal 1..4
"\123" => octal 1..5
"\1234" => octal 1..5
"\47" => octal 1..4
"\477" => octal 1..4
'\8' => non octal 1..3
"\9" => non octal 1..3
"\89" => non octal 1..3
"ab\1" => octal 3..5
"é\7" => octal 3..5
"\x41\8" => non octal 5..7
"\1\8" => octal 1..3
"\8\1" => non octal 1..3
"\1«A»" => octal 1..3
"\1 => octal 1..3
"\1"" => octal 1..3
"\x\1" => invalid 1..1
"\u{100000000}\1" => too large 1..12
"\1\u{100000000}" => octal 1..3"#;

/// Escapes that are none in strings.
const NO_ESCAPES_IN_STRINGS: &str = r"\x => invalid 1..1
\x4 => invalid 1..1
\x4G => invalid 1..1
\xG1 => invalid 1..1
\u => invalid 1..1
\u12 => invalid 1..1
\u004G => invalid 1..1
\u{} => invalid 1..1
\u{41 => invalid 1..1
\u{4 1} => invalid 1..1
\u{G} => invalid 1..1
\u{110000} => invalid 1..1
\u{FFFFFFFF} => invalid 1..1
\u{FFFFFFFFG} => invalid 1..1
aé\u => invalid 4..4
\u{100000000} => too large 1..12
\u{FFFFFFFFF} => too large 1..12
\u{100000000 => too large 1..12
\u{0000000100000000} => too large 1..19
\u{123456789ABCDEF} => too large 1..12
aé\u{100000000} => too large 4..15";

/// Escapes that are none in templates.
const NO_ESCAPES_IN_TEMPLATES: &str = r"\x => hex 3..3
\x4 => hex 4..4
\x4G => hex 4..4
\xG1 => hex 3..3
aé\x => hex 6..6
\u => unicode 1..3
\u12 => unicode 1..3
\u004G => unicode 1..3
\uG => unicode 1..3
\u{} => unicode 1..4
\u{41 => unicode 1..6
\u{4 1} => unicode 1..5
\u{G} => unicode 1..4
\u{110000} => unicode 1..10
\u{00110000} => unicode 1..12
\u{FFFFFFFF} => unicode 1..12
\u{FFFFFFFFG} => unicode 1..12
\u{100000000} => too large 1..12
\u{FFFFFFFFF} => too large 1..12
\u{100000000 => too large 1..12
\u{0000000100000000} => too large 1..19
${a} => substitution 1..1
a${ => substitution 2..2
$${ => substitution 2..2
\$${} => substitution 3..3
é${\x => substitution 3..3
\x${ => hex 3..3
\u${ => unicode 1..3";

/// Ends of strings.
const ENDS_OF_STRINGS: &str = r#" => invalid 0..0
a => invalid 0..0
a" => invalid 0..0
`a` => invalid 0..0
/a/ => invalid 0..0
" => invalid 1..1
"a => invalid 2..2
'a => invalid 2..2
"é => invalid 3..3
"a' => invalid 3..3
'a" => invalid 3..3
"a\ => invalid 2..2
"a\" => invalid 4..4
"a"b => invalid 3..3
"a"  => invalid 3..3
"""" => invalid 2..2
''' => invalid 2..2
"a"\ => invalid 3..3
"\u{100000000 => too large 1..12
"\u{1 => invalid 1..1
"'" => 0..3: 27@1..2
'"' => 0..3: 22@1..2
"`" => 0..3: 60@1..2
"${a}" => 0..6: 24@1..2 7B@2..3 61@3..4 7D@4..5"#;

/// Ends of templates.
const ENDS_OF_TEMPLATES: &str = r#" => invalid 0..0
a` => invalid 0..0
"a" => invalid 0..0
` => invalid 1..1
`a => invalid 2..2
`é => invalid 3..3
`a" => invalid 3..3
`a\ => invalid 3..3
`a\` => invalid 4..4
`a`b => invalid 3..3
`a`  => invalid 3..3
``` => invalid 2..2
`$ => invalid 2..2
`\0 => invalid 3..3
`${ => substitution 1..1
`\x => hex 3..3
`\x4 => hex 4..4
`\u => unicode 1..3
`\u0 => unicode 1..3
`\u{ => unicode 1..4
`\u{1 => unicode 1..5
`\u{100000000 => too large 1..12
`"'` => 0..4: 22@1..2 27@2..3"#;

/// Surrogates, where a character past FFFF is one unit.
const SURROGATES: &str = r"😀 => 0..6: 1F600@1..5
\😀 => 0..7: 1F600@1..6
\u{1F600} => 0..11: 1F600@1..10u
\u{FFFF}\u{10000} => 0..19: FFFF@1..9u 10000@9..18u
\uD83D\uDE00 => 0..14: D83D@1..7u DE00@7..13u
\u{D83D}\u{DE00} => 0..18: D83D@1..9u DE00@9..17u
\uD83D\u{DE00} => 0..16: D83D@1..7u DE00@7..15u
\uD83D😀 => 0..12: D83D@1..7u 1F600@7..11
😀\uDE00 => 0..12: 1F600@1..5 DE00@5..11u";

/// Surrogates, where a character past FFFF is two units.
const SURROGATES_APART: &str = r"😀 => 0..6: D83D@1..5 DE00@1..5
\😀 => 0..7: D83D@1..6 DE00@1..6
\u{1F600} => 0..11: D83D@1..10u DE00@1..10u
\u{FFFF}\u{10000} => 0..19: FFFF@1..9u D800@9..18u DC00@9..18u
\u{10FFFF} => 0..12: DBFF@1..11u DFFF@1..11u
\uD83D\uDE00 => 0..14: D83D@1..7u DE00@7..13u
\u{D83D}\u{DE00} => 0..18: D83D@1..9u DE00@9..17u
\uD83D😀 => 0..12: D83D@1..7u D83D@7..11 DE00@7..11
😀\uDE00 => 0..12: D83D@1..5 DE00@1..5 DE00@5..11u";

/// Values as the standard has them, in code points.
const VALUES_OF_THE_STANDARD: &str = r"a\«A»b => 0..6: 61@1..2 62@4..5
\«D»«A»a => 0..6: 61@4..5
\«2028»\«2029» => 0..10:
\«D» => 0..4:
\uD83D\uDE00 => 0..14: 1F600@1..13u
\uD83D\«A»\uDE00 => 0..16: 1F600@1..15u
\uD83Da\uDE00 => 0..15: D83D@1..7u 61@7..8 DE00@8..14u
\uD83D => 0..8: D83D@1..7u
\uDE00\uD83D => 0..14: DE00@1..7u D83D@7..13u
\uD83D\uD83D\uDE00 => 0..20: D83D@1..7u 1F600@7..19u
\uD83D\uDE00\uDE00 => 0..20: 1F600@1..13u DE00@13..19u
\u{D83D}\uDE00 => 0..16: 1F600@1..15u
\uD83D\u{00DE00} => 0..18: 1F600@1..17u
😀\uDE00 => 0..12: 1F600@1..5 DE00@5..11u
\uD83D😀 => 0..12: D83D@1..7u 1F600@7..11
\u{1F600} => 0..11: 1F600@1..10u
\uDBFF\uDFFF => 0..14: 10FFFF@1..13u
\uDBFF\uE000 => 0..14: DBFF@1..7u E000@7..13u";

/// Values as the standard has them, in code units.
const VALUES_OF_THE_STANDARD_APART: &str = r"\uD83D\uDE00 => 0..14: D83D@1..7u DE00@7..13u
😀 => 0..6: D83D@1..5 DE00@1..5
\uD83D\«A»\uDE00 => 0..16: D83D@1..7u DE00@9..15u";

/// Templates as the standard has them.
const TEMPLATES_OF_THE_STANDARD: &str = r"a«D»b => 0..5: 61@1..2 A@2..3 62@3..4
«D»«A» => 0..4: A@1..3
«D»«D»«A» => 0..5: A@1..2 A@2..4
«A»«D» => 0..4: A@1..2 A@2..3
\r«D» => 0..5: D@1..3 A@3..4
«2028»«2029» => 0..8: 2028@1..4 2029@4..7
\0a\0 => 0..7: 0@1..3 61@3..4 0@4..6
\00 => no escape 1..4
\08 => no escape 1..4
\1 => no escape 1..3
\12 => no escape 1..3
a\9 => no escape 2..4
\1\x => no escape 1..3
\x\1 => hex 3..3";

/// Digits after backslashes of strings, as the standard has them.
const DIGITS_OF_THE_STANDARD: &str = r"\1\8 => 0..6: 1@1..3 38@3..5";

/// Strings in strict mode, 10 bytes on.
const STRINGS_WITH_AN_OFFSET: &str = r#""" => 10..12:
"\x41é" => 10..18: 41@11..15x E9@15..17
'a => invalid 12..12
x => invalid 10..10
"a"b => invalid 13..13
"\1" => octal 11..13
"\8" => non octal 11..13
"\u{100000000}" => too large 11..22"#;

/// Templates, 10 bytes on.
const TEMPLATES_WITH_AN_OFFSET: &str = r"`a«D»«A»` => 10..15: 61@11..12 A@12..14
`a => invalid 12..12
x => invalid 10..10
`a`b => invalid 13..13
`${ => substitution 11..11
`\x4` => hex 14..14
`\u{110000}` => unicode 11..20
`\u{100000000}` => too large 11..22";

/// Spans end at the greatest offset.
const GREATEST_OFFSET: &str =
    r"\na => 4294967290..4294967295: A@4294967291..4294967293 61@4294967293..4294967294";

/// Readers begin after the quote.
const READERS_OF_CODE_POINTS: &str =
    r#""\x41é" => 2; (0, 1) Some(65) Some(233) Hexadecimal; (1, 5) Some(233) None None; (2, 7) None None None
'\x41é' => 2; (0, 1) Some(65) Some(233) Hexadecimal; (1, 5) Some(233) None None; (2, 7) None None None
`\x41é` => 2; (0, 1) Some(65) Some(233) Hexadecimal; (1, 5) Some(233) None None; (2, 7) None None None"#;

/// Readers of quoted texts, or why none is made.
const READERS_OF_CODE_UNITS: &str = r#""" => 0; (0, 1) None None None
'ab' => 2; (0, 1) Some(97) Some(98) None; (1, 2) Some(98) None None; (2, 3) None None None
"\1\8" => 2; (0, 1) Some(1) Some(56) None; (1, 3) Some(56) None None; (2, 5) None None None
`\18` => 2; (0, 1) Some(49) Some(56) None; (1, 3) Some(56) None None; (2, 4) None None None
"a😀" => 3; (0, 1) Some(97) Some(55357) None; (1, 2) Some(55357) Some(56832) None; (2, 6) Some(56832) None None; (3, 6) None None None
`\u{1F600}` => 2; (0, 1) Some(55357) Some(56832) Unicode; (1, 10) Some(56832) None Unicode; (2, 10) None None None
 => String(InvalidInput { span: Span { start: 0, end: 0 } })
/a/ => String(InvalidInput { span: Span { start: 0, end: 0 } })
"a => String(InvalidInput { span: Span { start: 2, end: 2 } })
"\u{100000000}" => String(TooLargeUnicodeEscapeSequence { span: Span { start: 1, end: 12 } })
`a => Template(InvalidInput { span: Span { start: 2, end: 2 } })
`${a}` => Template(TemplateSubstitution { span: Span { start: 1, end: 1 } })
`\x` => Template(InvalidHexEscape { span: Span { start: 3, end: 3 } })"#;
