//! How many steps it takes to read a text. A step is a unit that is moved over, or a turn of a loop that looks ahead; each number was counted by hand.
ghost use Rattle.std.specs.Prelude.{◌≡◌, ◌+◌, ◌<◌, ◌^◌, All, length};

use rx_base::Tally;
use rx_parser::PatternParser;
use rx_rows::{Call, agree, short};
use rx_units::Reader;
use std::alloc::Global;
use std::marker::Brand;
use std::sync::ledger::{Blank, Ledger};
use std::test::Fail;

/// How many steps a parser takes.
fn counted<L: Ledger>(parser: PatternParser<'_>, blank: Blank) -> u64
    requires start { parser.reader.place ≡ 0 }
    requires first { parser.reader.first + parser.spans < 2 ^ 32 }
    requires fits { All (λ unit. unit.span.end + parser.spans < 2 ^ 32) parser.reader.units }
    requires name { blank.name ≡ L.name }
    requires parts { blank.parts ≡ L.parts }
    requires one { blank.parts ≡ 1 }
{
    let mut tally = Tally::<L>::new(blank);
    let _ = parser.parse_counted(&mut tally);
    tally.total()
}

/// Texts in a mode, whether they are patterns or not.
struct Stepping {
    modes: (bool, bool),
}

const LEGACY: Stepping = Stepping {
    modes: (false, false),
};

const UNICODE: Stepping = Stepping {
    modes: (true, false),
};

const SETS: Stepping = Stepping {
    modes: (true, true),
};

impl Call for Stepping {
    fn answer(&self, alloc: Global, asked: &str) -> Result<String, Fail> {
        let reader = Reader::initialize(alloc, short(asked)?, self.modes.0, false)?;
        let parser = PatternParser::new(alloc, reader, self.modes, 0, (true, true));
        let steps = counted::<Brand>(parser, Blank::new(1));
        Ok(format!(in alloc; "{steps}")?)
    }
}

#[test]
fn steps_of_texts_without_flags(rt: HostRuntime) -> Result<(), Fail> {
    let rows = " => 0
a => 4
{{ => 5
{1{1 => 15
{1,2 => 17
a{2} => 14
\\1 => 6
\\199 => 16
\\u12 => 12
\\u123g => 23";
    agree(rt.alloc(), &LEGACY, rows)
}

#[test]
fn steps_of_texts_with_u(rt: HostRuntime) -> Result<(), Fail> {
    let rows = "a => 4
abc => 12
a.b => 10
a+? => 8
a{2} => 12
a{2,} => 15
a{12,34}? => 26
(?<=a)b => 18
(?<ab>c) => 23
(?<a>)\\k<a> => 28
()\\1a => 14
\\d\\b => 8
\\x41 => 8
\\u0041 => 16
\\u{41} => 15
\\uD83D\\uDE00 => 32
\\uD83D\\u0041 => 36
(?i-m:a) => 29
[a-z] => 10
[\\d\\u0041] => 24
\\p{L} => 13
\\p{gc=L} => 22";
    agree(rt.alloc(), &UNICODE, rows)
}

#[test]
fn steps_of_texts_with_v(rt: HostRuntime) -> Result<(), Fail> {
    let rows = "[a--b] => 12
[[a]&&\\d] => 18
[\\q{ab|c}] => 20
[\\u0061] => 20
[\\u{61}-\\u{7A}] => 36
[\\p{L}] => 17";
    agree(rt.alloc(), &SETS, rows)
}

#[test]
fn steps_of_refused_texts(rt: HostRuntime) -> Result<(), Fail> {
    let rows = ") => 2
* => 2
\\ => 2
a{2 => 7
(?<a => 9
\\u{110000} => 19
[a => 4";
    agree(rt.alloc(), &UNICODE, rows)
}

/// Eighty times a text, one after the other: the worst of each loop.
struct EightyTimes {
    each: Stepping,
}

const EIGHTY_LEGACY: EightyTimes = EightyTimes { each: LEGACY };

const EIGHTY_UNICODE: EightyTimes = EightyTimes { each: UNICODE };

const EIGHTY_SETS: EightyTimes = EightyTimes { each: SETS };

impl Call for EightyTimes {
    fn answer(&self, alloc: Global, asked: &str) -> Result<String, Fail> {
        let text = asked.repeat(alloc, 80)?;
        self.each.answer(alloc, &text)
    }
}

#[test]
fn worst_texts_without_flags(rt: HostRuntime) -> Result<(), Fail> {
    let rows = "a => 320
{ => 239
{1 => 639
{1111111111 => 4239
{1, => 1039
{1,1 => 1439
\\9 => 559
\\11111111 => 3039
a{1,2} => 1760
\\u111z => 1840
(?=a)* => 1120";
    agree(rt.alloc(), &EIGHTY_LEGACY, rows)
}

#[test]
fn worst_texts_with_u(rt: HostRuntime) -> Result<(), Fail> {
    let rows = "a{1,2} => 1440
\\u{1} => 960
\\u1111 => 1280
\\uD83D => 1596
\\uD83D\\uDE00 => 2560
(?<a>)| => 1360
(?<\\u{61}>)| => 2640
(?<\\u0061>)| => 2800
(?i-m:) => 2000
(a)\\1 => 1119
\\p{L} => 1040
\\p{gc=L} => 1760
[\\u{1}] => 1280";
    agree(rt.alloc(), &EIGHTY_UNICODE, rows)
}

#[test]
fn worst_texts_with_v(rt: HostRuntime) -> Result<(), Fail> {
    let rows = "[\\u{1}] => 1280
[a--b] => 960
[\\q{a|b}] => 1440
[[a]] => 800";
    agree(rt.alloc(), &EIGHTY_SETS, rows)
}
