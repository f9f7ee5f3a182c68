ghost use Rattle.std.specs.Prelude.{◌≡◌, ◌++◌, IfOk};
ghost use Rattle.std.specs.Fmt.{WritesOnOk, WritesStyledOnOk};
ghost use Rattle.std.specs.Fmt.InlineText.{inline_text};
ghost use Rattle.std.specs.Str.{encode_utf8_all};
ghost use Rattle.rx_base.specs.DiagnosticMessage.{flag_text};
ghost use Rattle.rx_base.specs.Reason.{reason_bytes};

use std::fmt;
use std::fmt::{InlineText, Write};

/// What a message says after its beginning: a fixed text, or a flag or a name between two fixed texts.
pub(super) enum Reason<'a> {
    Fixed(&'static str),
    Flag(&'static str, u32, &'static str),
    Name(&'static str, &'a str, &'static str),
}

impl Reason<'_> {
    pub(super) fn write<W: fmt::Write>(self, f: &mut fmt::Formatter<W>) -> fmt::Result
        ensures plain { WritesOnOk W.write_str_gives f.old result (reason_bytes self.entry) f.new }
        ensures styled { WritesStyledOnOk W.write_str_gives f.old result (reason_bytes self.entry) f.new }
    {
        match self {
            Reason::Fixed(text) => f.write_str(text),
            Reason::Flag(before, flag, after) => write_between(
                f,
                before,
                flag_text(flag)?.as_str(),
                after,
            ),
            Reason::Name(before, name, after) => write_between(f, before, name, after),
        }
    }
}

fn write_between<W: fmt::Write>(
    f: &mut fmt::Formatter<W>,
    before: &str,
    quoted: &str,
    after: &str,
) -> fmt::Result
    ensures plain { WritesOnOk W.write_str_gives f.old result (before.now ++ (quoted.now ++ after.now)) f.new }
    ensures styled { WritesStyledOnOk W.write_str_gives f.old result (before.now ++ (quoted.now ++ after.now)) f.new }
{
    f.write_str(before)?;
    f.write_str(quoted)?;
    f.write_str(after)
}

/// The flag as a character, or its number in hexadecimal if it is no character.
fn flag_text(flag: u32) -> Result<InlineText<12>, fmt::Error>
    ensures { IfOk result (λ text. inline_text text ≡ encode_utf8_all (flag_text flag)) }
{
    let mut text = InlineText::new();
    match char::from_u32(flag) {
        Some(character) => text.write_char(character)?,
        None => write!(text, "\\u{{{flag:X}}}")?,
    }
    Ok(text)
}
