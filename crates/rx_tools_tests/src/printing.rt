//! What the printers write.
use crate::trees::tree;
use rx_ast::Pattern;
use rx_base::{Failed, List, MemorySink, OutOfMemory};
use rx_rows::{Call, agree};
use rx_tools::{Mode, append_canonical, canonical_text, display_text, write_canonical};
use std::alloc::Global;
use std::test::Fail;

/// What writes a tree, as its canonical spelling in a mode or as `Display` does.
#[derive(Clone, Copy)]
enum Printer {
    CanonicalText(Mode),

    /// After a byte that is there.
    AppendCanonical(Mode),

    /// To a sink that has room for no more than the spelling and takes so many bytes at a time. The call of this number fails.
    WriteCanonical { mode: Mode, step: usize, fails: u64 },
    DisplayText,
    Display,
}

impl Call for Printer {
    fn answer(&self, alloc: Global, asked: &str) -> Result<String, Fail> {
        self.print(alloc, &tree(alloc, asked)?)
    }
}

impl Printer {
    /// What is written of a tree.
    fn print(&self, alloc: Global, pattern: &Pattern) -> Result<String, Fail> {
        match *self {
            Printer::CanonicalText(mode) => {
                shown(
                    alloc,
                    canonical_text(alloc, pattern, mode)?.as_str().as_bytes(),
                )
            }
            Printer::AppendCanonical(mode) => appended(alloc, pattern, mode),
            Printer::WriteCanonical { mode, step, fails } => {
                written(alloc, pattern, mode, step, fails)
            }
            Printer::DisplayText => {
                shown(alloc, display_text(alloc, pattern)?.as_str().as_bytes())
            }
            Printer::Display => Ok(format!(in alloc; "{pattern}")?),
        }
    }
}

/// Bytes as a text.
fn shown(alloc: Global, bytes: &[u8]) -> Result<String, Fail> {
    let text = str::from_utf8(bytes).unwrap_or("no text");
    Ok(String::from_str(alloc, text)?)
}

fn appended(alloc: Global, pattern: &Pattern, mode: Mode) -> Result<String, Fail> {
    let mut bytes = List::new(alloc);
    bytes.push(b'x')?;
    append_canonical(alloc, &mut bytes, pattern, mode)?;
    shown(
        alloc,
        bytes.as_slice().strip_prefix(b"x").unwrap_or(b"no x"),
    )
}

/// What the sink takes, with `!` after it where a write failed.
fn written(
    alloc: Global,
    pattern: &Pattern,
    mode: Mode,
    step: usize,
    fails: u64,
) -> Result<String, Fail> {
    let room = canonical_text(alloc, pattern, mode)?.as_str().len();
    let mut sink = sink_of(alloc, room, step, fails)?;
    let end = write_to(&mut sink, pattern, mode);
    let mut text = shown(alloc, sink.bytes())?;
    text.push_str(end)?;
    Ok(text)
}

fn sink_of(alloc: Global, room: usize, step: usize, call: u64) -> Result<MemorySink, OutOfMemory> {
    let mut fails = List::new(alloc);
    fails.push(call)?;
    MemorySink::new(alloc, room, fails, step.max(1))
}

fn write_to(sink: &mut MemorySink, pattern: &Pattern, mode: Mode) -> &'static str {
    match write_canonical(sink, pattern, mode) {
        Ok(()) => "",
        Err(Failed) => "!",
    }
}

const IN_ANY_MODE: &str = r"terms U+FFFFFFFF => \u{FFFFFFFF}
terms Null:A => A
terms ControlLetter:U+1F => \x1F
terms a{5,2} => a{5,2}
terms a** => a**
none => 
terms (?0-F8:a) => (?:a)";

const LEGACY: &str = r#"terms 😀 => \u{1F600}
terms U+D83D U+DE00 => \uD83D\uDE00
punctuation => \^\$\\\.\*\+\?\(\)\[\]\{\}\|\/&-!#%,:;<=>@`~"'_
[punctuation] => [\^\$\\\.\*\+\?\(\)\[\]\{\}\|\/&\-!#%,:;<=>@`~"'_]
read ^$\b\B\A\z\Z\d\D\s\S\w\W(?=.)(?!.)(?<=.)(?<!.) => ^$\b\B\A\z\Z\d\D\s\S\w\W(?=.)(?!.)(?<=.)(?<!.)
terms \1 9 9 => \1\x399
terms \1 \1 9 => \1\1\x39
front \1.9() => \1.9
terms \1 9* => \1\x39*
front \1*9() => \1*9
front \1[9]() => \1[9]
front \k<n>9(?<n>) => \k<n>9
read (\1)9 => (\1)9
read \1(9) => \1(9)"#;

const LEGACY_VALUES: &str =
    "values => \\x00\\x08\\t\\n\\v\\f\\r\\x0E\\x1F !&-\\/9a~\\x7F\\x9F\u{A0}\u{2027}\\u2028\\u2029\u{D7FF}\\uD800\\uDFFF\u{E000}\u{FFFF}\\u{10000}\\u{10FFFF}\\u{110000}
[values] => [\\x00\\x08\\t\\n\\v\\f\\r\\x0E\\x1F !&\\-\\/9a~\\x7F\\x9F\u{A0}\u{2027}\\u2028\\u2029\u{D7FF}\\uD800\\uDFFF\u{E000}\u{FFFF}\\u{10000}\\u{10FFFF}\\u{110000}]";

const UNICODE: &str = r"terms 😀 => 😀
terms U+D83D U+DE00 => \u{D83D}\u{DE00}
read .{0,}.{1,}.{0,1}.{2,2}.{2,3}.{2,}.{0,0}.{1,1}.{0,}?.{0,1}? => .*.+.?.{2}.{2,3}.{2,}.{0}.{1}.*?.??
terms .{3,2} .{10,18446744073709551615}? => .{3,2}.{10,18446744073709551615}?
read (.)(?<größe>.)(?:.) => (.)(?<größe>.)(?:.)
read (?i-ms:.) => (?i-ms:.)
read (?-s:.) => (?-s:.)
read (?ims:.) => (?ims:.)
read (?is-m:.) => (?is-m:.)
terms (?B-8:.) => (?im:.)
terms (?0-0:.) => (?:.)
front \1|9||() => \1|9||
read a => a
read \x41\u{1F600} => A😀
read a|b||(?:|c) => a|b||(?:|c)
read (?<n>x{1,}){2,2}?\k<n>\1\x32 => (?<n>x+){2}?\k<n>\1\x32
read (?i-s:(?=.)(?<!\/)) => (?i-s:(?=.)(?<!\/))
read [^a-z\d\-]*\p{General_Category=Lu}\P{L}+? => [^a-z\d\-]*\p{Lu}\P{L}+?
read ((((((((((d)))))))))){0,} => ((((((((((d))))))))))*";

const UNICODE_VALUES: &str =
    "values => \\x00\\x08\\t\\n\\v\\f\\r\\x0E\\x1F !&-\\/9a~\\x7F\\x9F\u{A0}\u{2027}\\u2028\\u2029\u{D7FF}\\u{D800}\\u{DFFF}\u{E000}\u{FFFF}\u{10000}\u{10FFFF}\\u{110000}
[values] => [\\x00\\x08\\t\\n\\v\\f\\r\\x0E\\x1F !&\\-\\/9a~\\x7F\\x9F\u{A0}\u{2027}\\u2028\\u2029\u{D7FF}\\u{D800}\\u{DFFF}\u{E000}\u{FFFF}\u{10000}\u{10FFFF}\\u{110000}]";

const SETS: &str = r#"terms 😀 => 😀
terms U+D83D U+DE00 => \u{D83D}\u{DE00}
punctuation => \^\$\\\.\*\+\?\(\)\[\]\{\}\|\/&-!#%,:;<=>@`~"'_
[punctuation] => [\^\$\\\.\*\+\?\(\)\[\]\{\}\|\/\&\-\!\#\%\,\:\;\<\=\>\@\`\~"'_]
terms \p{L} => \p{L}
read \P{Script=Greek} => \P{Script=Greek}
read \p{General_Category=Lu} => \p{Lu}
read \P{General_Category=Lu} => \P{Lu}
terms \p{General_Category} => \p{General_Category}
read \p{gc=Lu} => \p{gc=Lu}
union [a-z\d\p{L}\-[]\q{a|bc|}] => [^a-z\d\p{L}\-[]\q{a|bc|}]
intersection [a-z\d\p{L}\-[]\q{a|bc|}] => [^a-z&&\d&&\p{L}&&\-&&[]&&\q{a|bc|}]
subtraction [a-z\d\p{L}\-[]\q{a|bc|}] => [^a-z--\d--\p{L}--\---[]--\q{a|bc|}]"#;

const SETS_VALUES: &str =
    "values => \\x00\\x08\\t\\n\\v\\f\\r\\x0E\\x1F !&-\\/9a~\\x7F\\x9F\u{A0}\u{2027}\\u2028\\u2029\u{D7FF}\\u{D800}\\u{DFFF}\u{E000}\u{FFFF}\u{10000}\u{10FFFF}\\u{110000}
[values] => [\\x00\\x08\\t\\n\\v\\f\\r\\x0E\\x1F \\!\\&\\-\\/9a\\~\\x7F\\x9F\u{A0}\u{2027}\\u2028\\u2029\u{D7FF}\\u{D800}\\u{DFFF}\u{E000}\u{FFFF}\u{10000}\u{10FFFF}\\u{110000}]";

/// Compares what all printers of canonical spellings write.
fn all_agree(alloc: Global, mode: Mode, rows: &str) -> Result<(), Fail> {
    agree(alloc, &Printer::CanonicalText(mode), rows)?;
    agree(alloc, &Printer::AppendCanonical(mode), rows)?;
    for step in [1, 2, 3, 99] {
        let fails = 0;
        agree(alloc, &Printer::WriteCanonical { mode, step, fails }, rows)?;
    }
    Ok(())
}

#[test]
fn canonical_spellings(rt: HostRuntime) -> Result<(), Fail> {
    let alloc = rt.alloc();
    all_agree(alloc, Mode::Legacy, IN_ANY_MODE)?;
    all_agree(alloc, Mode::Legacy, LEGACY)?;
    all_agree(alloc, Mode::Legacy, LEGACY_VALUES)?;
    all_agree(alloc, Mode::Unicode, IN_ANY_MODE)?;
    all_agree(alloc, Mode::Unicode, UNICODE)?;
    all_agree(alloc, Mode::Unicode, UNICODE_VALUES)?;
    all_agree(alloc, Mode::Sets, IN_ANY_MODE)?;
    all_agree(alloc, Mode::Sets, SETS)?;
    all_agree(alloc, Mode::Sets, SETS_VALUES)
}

const DISPLAYED: &str = r"terms U+FFFFFFFF => \u{FFFFFFFF}
terms Null:A => \0
terms ControlLetter:U+1F => \x1F
terms a{5,2} => a{5,2}
terms a** => a**
none => 
terms (?0-F8:a) => (?:a)
terms 😀 => 😀
terms U+D83D U+DE00 => 😀
read ^$\b\B\A\z\Z => ^$\b\B\A\z\Z
read \d\D\s\S\w\W => \d\D\s\S\w\W
read (?=.)(?!.)(?<=.)(?<!.) => (?=.)(?!.)(?<=.)(?<!.)
read (.)(?<größe>.)(?:.) => (.)(?<größe>.)(?:.)
terms \k<n> \1 9 => \k<n>\19
front \1*9*[9]() => \1*9*[9]
front \1|9||() => \1|9||";

#[test]
fn displayed_texts(rt: HostRuntime) -> Result<(), Fail> {
    agree(rt.alloc(), &Printer::DisplayText, DISPLAYED)?;
    agree(rt.alloc(), &Printer::Display, DISPLAYED)
}

/// What is taken of a pattern where the call to the sink of the row's number fails, from 0 on. Each takes a byte.
const FAILING: &str = r"read a(?:b|c)d{2} => a(?:b|c)d{2}
read a(?:b|c)d{2} => !
read a(?:b|c)d{2} => a!
read a(?:b|c)d{2} => a(!
read a(?:b|c)d{2} => a(?!
read a(?:b|c)d{2} => a(?:!
read a(?:b|c)d{2} => a(?:b!
read a(?:b|c)d{2} => a(?:b|!
read a(?:b|c)d{2} => a(?:b|c!
read a(?:b|c)d{2} => a(?:b|c)!
read a(?:b|c)d{2} => a(?:b|c)d!
read a(?:b|c)d{2} => a(?:b|c)d{!
read a(?:b|c)d{2} => a(?:b|c)d{2!
read a(?:b|c)d{2} => a(?:b|c)d{2}";

#[test]
fn a_failing_write_is_told(rt: HostRuntime) -> Result<(), Fail> {
    let (mode, step) = (Mode::Unicode, 1);
    let mut fails = 0u64;
    for row in FAILING.lines() {
        agree(
            rt.alloc(),
            &Printer::WriteCanonical { mode, step, fails },
            row,
        )?;
        fails = fails.wrapping_add(1);
    }
    Ok(())
}
