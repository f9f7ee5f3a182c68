//! What `canonical` answers.
ghost use Rattle.std.specs.Prelude.{◌+◌, ◌<◌, ◌≤◌, ◌^◌, max, length};
ghost use Rattle.rx_parser.specs.Inputs.{flags_length, stand_in_length};

use crate::shown::write_pattern;
use crate::written::{Written, flags_and_pattern};
use rx_base::Fault;
use rx_rows::{Call, agree};
use rx_tools::{Canonical, Form, Options, canonical};
use std::alloc::Global;
use std::fmt;
use std::test::Fail;

/// Where the flags and the pattern stand: at these bytes, or as far on as they can, if that is less far.
pub struct Reading {
    form: Form,
    pattern_span_offset: u32,
    flags_span_offset: u32,
}

pub const LITERAL: Reading = Reading {
    form: Form::Literal,
    pattern_span_offset: 0,
    flags_span_offset: 0,
};

pub const LITERAL_AT_SEVEN: Reading = Reading {
    form: Form::Literal,
    pattern_span_offset: 7,
    flags_span_offset: 0,
};

pub const LITERAL_AT_TEN: Reading = Reading {
    form: Form::Literal,
    pattern_span_offset: 10,
    flags_span_offset: 0,
};

/// A literal whose pattern stands at byte 0, and its flags at byte 7.
const FLAGS_AT_SEVEN: Reading = Reading {
    form: Form::Literal,
    pattern_span_offset: 0,
    flags_span_offset: 7,
};

pub const LAST_LITERAL: Reading = Reading {
    form: Form::Literal,
    pattern_span_offset: u32::MAX,
    flags_span_offset: u32::MAX,
};

pub const ARGUMENT: Reading = Reading {
    form: Form::Constructor,
    pattern_span_offset: 0,
    flags_span_offset: 0,
};

const ARGUMENT_FLAGS_AT_SEVEN: Reading = Reading {
    form: Form::Constructor,
    pattern_span_offset: 0,
    flags_span_offset: 7,
};

pub const LAST_ARGUMENT: Reading = Reading {
    form: Form::Constructor,
    pattern_span_offset: u32::MAX,
    flags_span_offset: u32::MAX,
};

impl Reading {
    fn options(&self, flags: Option<&str>, pattern: &str) -> Options
        requires flags { flags_length flags ≤ 100000 }
        requires pattern { length pattern.now ≤ 100000 }
        ensures pattern { result.pattern_span_offset + max (length pattern.now) (stand_in_length self.now.form) < 2 ^ 32 }
        ensures flags { result.flags_span_offset + flags_length flags.entry < 2 ^ 32 }
    {
        let stand_in = match self.form {
            Form::Literal => 4,
            Form::Constructor => 6,
        };
        let last = u32::MAX - pattern.len().max(stand_in) as u32;
        let last_of_flags = match flags {
            Some(flags) => u32::MAX - flags.len() as u32,
            None => u32::MAX,
        };
        Options {
            pattern_span_offset: self.pattern_span_offset.min(last),
            flags_span_offset: self.flags_span_offset.min(last_of_flags),
            ..Options::default()
        }
    }
}

impl Call for Reading {
    fn answer(&self, alloc: Global, asked: &str) -> Result<String, Fail> {
        let text = format!(in alloc; "{}", Written(asked))?;
        let (flags, pattern) = flags_and_pattern(&text)?;
        let options = self.options(flags, pattern);
        let answer = canonical(alloc, self.form, pattern, flags, options);
        let spelled = Spelled {
            answer: &answer,
            pattern,
        };
        Ok(format!(in alloc; "{spelled}")?)
    }
}

/// What is answered to a pattern: the mode, the spelling where it is not the pattern itself, and the tree; or the refusal.
#[derive(Clone, Copy)]
struct Spelled<'a> {
    answer: &'a Result<Canonical, Fault>,
    pattern: &'a str,
}

impl fmt::Display for Spelled<'_> {
    fn fmt<W: fmt::Write>(&self, f: &mut fmt::Formatter<W>) -> fmt::Result {
        match self.answer {
            Ok(it) => {
                let text = it.text.as_str();
                let text = if text == self.pattern { "itself" } else { text };
                write!(f, "{:?} {text} ", it.mode)?;
                write_pattern(f, &it.pattern)
            }
            Err(fault) => write!(f, "{fault:?}"),
        }
    }
}

#[test]
fn arguments(rt: HostRuntime) -> Result<(), Fail> {
    let rows = r#"- "" => Legacy (?:) 1..5 1 | 1..5 1..5;
- '' => Legacy (?:) 1..5 1 | 1..5 1..5;
"" `` => Legacy (?:) 1..5 1 | 1..5 1..5;
'v' "" => Sets (?:) 1..5 1 | 1..5 1..5;
- "\n" => Legacy \n 1..3 1 | 1..3 1..3 Symbol a;
- "\012" => Legacy \n 1..5 1 | 1..5 1..5 Symbol a;
"gi" "\\d+" => Legacy \d+ 1..5 1 | 1..5 1..5 1 None true of 1..4;
"u" "\uD83D\uDE00" => Unicode \u{D83D}\u{DE00} 1..13 1 | 1..13 1..7 UnicodeEscape d83d; 7..13 UnicodeEscape de00;
"u" 'a\uDE00' => Unicode a\u{DE00} 1..8 1 | 1..8 1..2 Symbol 61; 2..8 UnicodeEscape de00;
`v` '[\\p{L}&&a]' => Sets [\p{L}&&a] 1..12 1 | 1..12 1..12 other;
- "a => Diagnostic(InvalidInput { span: Span { start: 0, end: 2 } })
- a => Diagnostic(InvalidInput { span: Span { start: 0, end: 1 } })
-  => Diagnostic(InvalidInput { span: Span { start: 0, end: 0 } })
- `${a}` => Diagnostic(InvalidInput { span: Span { start: 0, end: 6 } })
"u" "(?<a>)(?<\x61>)" => Diagnostic(DuplicatedCapturingGroupNames { first: Span { start: 4, end: 5 }, second: Span { start: 10, end: 14 } })"#;
    agree(rt.alloc(), &ARGUMENT, rows)?;
    let rows =
        r#""\uD83D" "a" => Diagnostic(UnknownFlag { span: Span { start: 8, end: 14 }, flag: 55357 })
"gg" "a => Diagnostic(DuplicatedFlags { span: Span { start: 9, end: 10 }, flag: 103 })
`uv` a => Diagnostic(InvalidUnicodeFlags { span: Span { start: 9, end: 10 } })
"g\x67" "(" => Diagnostic(DuplicatedFlags { span: Span { start: 9, end: 13 }, flag: 103 })
"gg "a => Diagnostic(InvalidInput { span: Span { start: 7, end: 10 } })
u "a" => Diagnostic(InvalidInput { span: Span { start: 7, end: 8 } })
 "a" => Diagnostic(InvalidInput { span: Span { start: 7, end: 7 } })
"u" "a => Diagnostic(InvalidInput { span: Span { start: 0, end: 2 } })"#;
    agree(rt.alloc(), &ARGUMENT_FLAGS_AT_SEVEN, rows)
}

#[test]
fn flags(rt: HostRuntime) -> Result<(), Fail> {
    let rows = r"- [a] => Legacy itself 0..3 1 | 0..3 0..3 other;
-  => Legacy (?:) 0..4 1 | 0..4 0..4;
- a => Legacy itself 0..1 1 | 0..1 0..1 Symbol 61;
 a => Legacy itself 0..1 1 | 0..1 0..1 Symbol 61;
gi a => Legacy itself 0..1 1 | 0..1 0..1 Symbol 61;
u a => Unicode itself 0..1 1 | 0..1 0..1 Symbol 61;
ui a => Unicode itself 0..1 1 | 0..1 0..1 Symbol 61;
su a => Unicode itself 0..1 1 | 0..1 0..1 Symbol 61;
dgimsuy a => Unicode itself 0..1 1 | 0..1 0..1 Symbol 61;
v a => Sets itself 0..1 1 | 0..1 0..1 Symbol 61;
iv (a[b]) => Sets itself 0..6 1 | 0..6 0..6  1..5 1;
v \p{L} => Sets itself 0..5 1 | 0..5 0..5 other;
v [ab--c] => Diagnostic(UnterminatedPattern { span: Span { start: 0, end: 3 }, what: CharacterClass })";
    agree(rt.alloc(), &LITERAL, rows)?;
    let rows = "gg ( => Diagnostic(DuplicatedFlags { span: Span { start: 8, end: 9 }, flag: 103 })
ux ( => Diagnostic(UnknownFlag { span: Span { start: 8, end: 9 }, flag: 120 })
uv ( => Diagnostic(InvalidUnicodeFlags { span: Span { start: 8, end: 9 } })
vu ( => Diagnostic(InvalidUnicodeFlags { span: Span { start: 8, end: 9 } })
é ( => Diagnostic(UnknownFlag { span: Span { start: 7, end: 9 }, flag: 233 })";
    agree(rt.alloc(), &FLAGS_AT_SEVEN, rows)
}

#[test]
fn options_are_zero_where_none_are_given(rt: HostRuntime) {
    let options = Options::default();
    assert_eq!(rt;
        (options.pattern_span_offset, options.flags_span_offset),
        (0, 0)
    );
}
