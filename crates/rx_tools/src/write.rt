ghost use Rattle.std.specs.Prelude.{◌∷◌, []};
ghost use Rattle.std.specs.List.{flat_map};
ghost use Rattle.std.specs.Str.{chars, IsAscii};
ghost use Rattle.rx_base.specs.Writing.{Written};
ghost use Rattle.rx_tools.specs.Utf8.{utf8};

use rx_base::{Failed, TextSink};

/// Writes a text. The empty one takes no call.
#[inline(always)]
pub fn write_str<W: TextSink>(sink: &mut W, text: &str) -> Result<(), Failed>
    ensures { Written W.taken W.fixed W.faults sink.old sink.new result (utf8 (chars text.now)) }
{
    if text.is_empty() {
        return Ok(());
    }
    sink.write_str(text)
}

/// Writes a character. A text of one character takes more instructions.
#[inline(always)]
pub fn write_char<W: TextSink>(sink: &mut W, c: char) -> Result<(), Failed>
    ensures { Written W.taken W.fixed W.faults sink.old sink.new result (utf8 (c ∷ [])) }
{
    sink.write_char(c)
}

/// Writes ASCII characters.
pub fn write_ascii<W: TextSink>(sink: &mut W, bytes: &[u8]) -> Result<(), Failed>
    requires { IsAscii bytes.now }
    ensures { Written W.taken W.fixed W.faults sink.old sink.new result (utf8 bytes.now) }
{
    sink.write_ascii(bytes)
}

/// Writes texts, one after the other.
pub fn write_pieces<W: TextSink>(sink: &mut W, pieces: &[&str]) -> Result<(), Failed>
    ensures { Written W.taken W.fixed W.faults sink.old sink.new result (utf8 (flat_map (λ p. chars p.now) pieces.now)) }
{
    for piece in pieces {
        write_str(sink, piece)?;
    }
    Ok(())
}

/// Writes characters.
pub fn write_chars<W: TextSink>(sink: &mut W, characters: &[char]) -> Result<(), Failed>
    ensures { Written W.taken W.fixed W.faults sink.old sink.new result (utf8 characters.now) }
{
    for c in characters {
        write_char(sink, *c)?;
    }
    Ok(())
}
