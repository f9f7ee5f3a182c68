ghost use Rattle.std.specs.Prelude.{◌≡◌, ◌≤◌, ◌<◌, ◌++◌, All, OnOk, length};
ghost use Rattle.rx_paint_reply.specs.Colors.{color, hex_digit, shown_byte, shown_text, text_in_color, token_in_color};

use rx_base::{List, OutOfMemory};
use rx_paint::{Kind, Token};

/// Adds the parts of a text that tokens cover, each in the colour of its kind.
pub(crate) fn add_text_in_color(
    bytes: &mut List<u8>,
    text: &[u8],
    tokens: &[Token],
) -> Result<(), OutOfMemory>
    requires forward { All (λ t. t.span.start ≤ t.span.end) tokens.now }
    requires within { All (λ t. t.span.end ≤ length text.now) tokens.now }
    ensures { OnOk result (bytes.new ≡ bytes.old ++ text_in_color text.now tokens.now) }
{
    for token in tokens {
        add_token_in_color(bytes, text, *token)?;
    }
    Ok(())
}

/// Adds the part of a text that a token covers, in the colour of its kind.
fn add_token_in_color(bytes: &mut List<u8>, text: &[u8], token: Token) -> Result<(), OutOfMemory>
    requires forward { token.span.start ≤ token.span.end }
    requires within { token.span.end ≤ length text.now }
    ensures { OnOk result (bytes.new ≡ bytes.old ++ token_in_color text.now token) }
{
    bytes.extend_from_slice(color(token.kind).as_bytes())?;
    let part = &text[token.span.start as usize..token.span.end as usize];
    add_shown_text(bytes, part)?;
    bytes.extend_from_slice(b"\x1b[0m")
}

/// Adds a text as it is shown: control characters as escapes.
// Why: docs/DECISIONS.md, 85.
fn add_shown_text(bytes: &mut List<u8>, text: &[u8]) -> Result<(), OutOfMemory>
    ensures { OnOk result (bytes.new ≡ bytes.old ++ shown_text text.now) }
{
    for byte in text {
        add_shown_byte(bytes, *byte)?;
    }
    Ok(())
}

/// Adds a byte as it is shown.
fn add_shown_byte(bytes: &mut List<u8>, byte: u8) -> Result<(), OutOfMemory>
    ensures { OnOk result (bytes.new ≡ bytes.old ++ shown_byte byte) }
{
    if byte >= 32 && byte != 127 {
        return bytes.push(byte);
    }
    bytes.extend_from_slice(b"\\x")?;
    bytes.push(hex_digit(byte / 16))?;
    bytes.push(hex_digit(byte % 16))
}

fn hex_digit(number: u8) -> u8
    requires { number < 16 }
    ensures { result ≡ hex_digit number }
{
    if number < 10 {
        b'0' + number
    } else {
        b'a' - 10 + number
    }
}

/// What begins the colour of a kind. The table is in docs/PAINT.md.
fn color(kind: Kind) -> &'static str
    ensures { result.now ≡ color kind }
{
    match kind {
        Kind::Char => "\x1b[39m",
        Kind::Escape => "\x1b[38;5;130m",
        Kind::Dot => "\x1b[38;5;133m",
        Kind::Set => "\x1b[38;5;30m",
        Kind::Class => "\x1b[38;5;28m",
        Kind::Assert => "\x1b[38;5;131m",
        Kind::Group => "\x1b[38;5;63m",
        Kind::Modifier => "\x1b[38;5;31m",
        Kind::Quantifier => "\x1b[38;5;163m",
        Kind::Reference => "\x1b[38;5;64m",
        Kind::Bar => "\x1b[1;38;5;63m",
        Kind::Other => "\x1b[38;5;243m",
    }
}
