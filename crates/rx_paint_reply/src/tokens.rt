ghost use Rattle.std.specs.Prelude.{◌≡◌, ◌++◌, OnOk};
ghost use Rattle.rx_paint_reply.specs.Tokens.{kind_name, later_tokens_text, token_text, tokens_text};

use rx_base::{List, OutOfMemory};
use rx_paint::{Kind, Token};
use rx_reply::add_span;

/// Adds tokens, with blanks between.
pub fn add_tokens_text(bytes: &mut List<u8>, tokens: &[Token]) -> Result<(), OutOfMemory>
    ensures { OnOk result (bytes.new ≡ bytes.old ++ tokens_text tokens.now) }
{
    let Some((first, later)) = tokens.split_first() else {
        return Ok(());
    };
    add_token(bytes, *first)?;
    add_later_tokens(bytes, later)
}

/// Adds tokens, with a blank before each.
fn add_later_tokens(bytes: &mut List<u8>, tokens: &[Token]) -> Result<(), OutOfMemory>
    ensures { OnOk result (bytes.new ≡ bytes.old ++ later_tokens_text tokens.now) }
{
    for token in tokens {
        bytes.extend_from_slice(b" ")?;
        add_token(bytes, *token)?;
    }
    Ok(())
}

/// Adds where a token stands, and its kind.
fn add_token(bytes: &mut List<u8>, token: Token) -> Result<(), OutOfMemory>
    ensures { OnOk result (bytes.new ≡ bytes.old ++ token_text token) }
{
    add_span(bytes, token.span)?;
    bytes.extend_from_slice(b"=")?;
    bytes.extend_from_slice(kind_name(token.kind).as_bytes())
}

fn kind_name(kind: Kind) -> &'static str
    ensures { result.now ≡ kind_name kind }
{
    match kind {
        Kind::Char => "char",
        Kind::Escape => "escape",
        Kind::Dot => "dot",
        Kind::Set => "set",
        Kind::Class => "class",
        Kind::Assert => "assert",
        Kind::Group => "group",
        Kind::Modifier => "modifier",
        Kind::Quantifier => "quantifier",
        Kind::Reference => "reference",
        Kind::Bar => "bar",
        Kind::Other => "other",
    }
}
