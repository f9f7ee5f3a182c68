use rx_rows::{Call, agree, short};
use rx_scan::{FlagsParser, capturing_group_name, decode};
use rx_units::Reader;
use std::alloc::Global;
use std::test::Fail;

/// Flags that stand at one of the first bytes.
struct Flags {
    span_offset: u32,
}

const FLAGS: Flags = Flags { span_offset: 0 };

const FLAGS_AT_TEN: Flags = Flags { span_offset: 10 };

impl Call for Flags {
    fn answer(&self, alloc: Global, asked: &str) -> Result<String, Fail> {
        let reader = Reader::initialize(alloc, short(asked)?, true, false)?;
        let modes = FlagsParser::new(reader, self.span_offset.min(1000)).parse();
        Ok(format!(in alloc; "{modes:?}")?)
    }
}

/// Whether a unicode mode and sets mode are asked for, or the refusal.
#[test]
fn what_flags_ask_for(rt: HostRuntime) -> Result<(), Fail> {
    let rows = " => Ok((false, false))
gimsyd => Ok((false, false))
u => Ok((true, false))
ui => Ok((true, false))
v => Ok((true, true))
gg => Err(DuplicatedFlags { span: Span { start: 11, end: 12 }, flag: 103 })";
    agree(rt.alloc(), &FLAGS_AT_TEN, rows)?;
    let rows = "gg => Err(DuplicatedFlags { span: Span { start: 1, end: 2 }, flag: 103 })
ux => Err(UnknownFlag { span: Span { start: 1, end: 2 }, flag: 120 })
uv => Err(InvalidUnicodeFlags { span: Span { start: 1, end: 2 } })
vu => Err(InvalidUnicodeFlags { span: Span { start: 1, end: 2 } })
uxv => Err(UnknownFlag { span: Span { start: 1, end: 2 }, flag: 120 })
uvv => Err(InvalidUnicodeFlags { span: Span { start: 1, end: 2 } })
ié => Err(UnknownFlag { span: Span { start: 1, end: 3 }, flag: 233 })";
    agree(rt.alloc(), &FLAGS, rows)
}

/// What a backslash stands before, read with or without `u`.
struct Decoding {
    unicode_mode: bool,
}

const WITH_U: Decoding = Decoding { unicode_mode: true };

const WITHOUT_U: Decoding = Decoding {
    unicode_mode: false,
};

impl Call for Decoding {
    fn answer(&self, alloc: Global, asked: &str) -> Result<String, Fail> {
        let reader = Reader::initialize(alloc, short(asked)?, self.unicode_mode, false)?;
        let escape = decode(reader.remaining_code_points(), self.unicode_mode);
        Ok(format!(in alloc; "{escape:?}")?)
    }
}

/// A code point and how many units spell it, or after how many digits they pass 32 bits.
#[test]
fn unicode_escapes(rt: HostRuntime) -> Result<(), Fail> {
    let rows = "u00e9z => Value { code_point: 233, length: 5 }
uD83D\\uDE00 => Value { code_point: 128512, length: 11 }
uD83D\\u{DE00} => Value { code_point: 55357, length: 5 }
uD83D\\u0041 => Value { code_point: 55357, length: 5 }
u{10FFFF} => Value { code_point: 1114111, length: 9 }
u{110000} => Invalid
u{} => Invalid
u{41 => Invalid
u004 => Invalid
x41 => Invalid
 => Invalid
u{100000000} => Overflow { digits: 8 }
u{FFFFFFFFF} => Overflow { digits: 8 }
u{0000100000000} => Overflow { digits: 12 }";
    agree(rt.alloc(), &WITH_U, rows)?;
    let rows = "u0041 => Value { code_point: 65, length: 5 }
uD83D\\uDE00 => Value { code_point: 55357, length: 5 }
u{41} => Invalid";
    agree(rt.alloc(), &WITHOUT_U, rows)
}

/// The name that a text is, which is read by code points or by code units.
struct GroupName {
    by_code_points: bool,
    unicode_mode: bool,
}

const LEGACY_NAME: GroupName = GroupName {
    by_code_points: false,
    unicode_mode: false,
};

const UNICODE_NAME: GroupName = GroupName {
    by_code_points: true,
    unicode_mode: true,
};

const NAME_BY_CODE_UNITS: GroupName = GroupName {
    by_code_points: false,
    unicode_mode: true,
};

impl Call for GroupName {
    fn answer(&self, alloc: Global, asked: &str) -> Result<String, Fail> {
        let reader = Reader::initialize(alloc, short(asked)?, self.by_code_points, false)?;
        let name = capturing_group_name(alloc, reader.remaining_code_points(), self.unicode_mode)?;
        let (found, name) = match &name {
            Some(name) => ("name ", name.as_str()),
            None => ("none", ""),
        };
        Ok(format!(in alloc; "{found}{name}")?)
    }
}

#[test]
fn names_of_groups(rt: HostRuntime) -> Result<(), Fail> {
    let rows = "a => name a
Zz09_ => name Zz09_
$_ => name $_
_$ => name _$
\\u0061 => name a
\\u{61} => name a
\\u{00000061}b => name ab
a\\u{31} => name a1
a\\u0031 => name a1
\\uD835\\uDC9C => name \u{1D49C}
\\u{1D49C} => name \u{1D49C}
\u{1D49C} => name \u{1D49C}
a\u{1D49C}b => name a\u{1D49C}b
\u{3C0} => name \u{3C0}
a\u{200D}b => name a\u{200D}b
 => none
1a => none
a- => none
- => none
a b => none
a> => none
\u{200D} => none
\u{1F600} => none
\\ => none
a\\ => none
\\u => none
\\u0031a => none
\\u{31}a => none
\\u{} => none
\\u{110000} => none
\\u{100000000} => none
\\x61 => none
\\uD835 => none
\\uD835\\u{DC9C} => none
\\u{D835}\\u{DC9C} => none";
    agree(rt.alloc(), &LEGACY_NAME, rows)?;
    agree(rt.alloc(), &UNICODE_NAME, rows)?;
    agree(rt.alloc(), &NAME_BY_CODE_UNITS, "\u{1D49C} => none")
}
