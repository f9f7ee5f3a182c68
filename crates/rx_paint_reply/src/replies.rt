ghost use Rattle.std.specs.Prelude.{◌≡◌, ◌≤◌, ◌++◌, OnOk, length};
ghost use Rattle.rx_ast.specs.Tree.{mirror};
ghost use Rattle.rx_ast.specs.Parts.{IsNestedPattern};
ghost use Rattle.rx_model.specs.Inputs.Texts.{literal_text};
ghost use Rattle.rx_paint.specs.Runs.{pattern_tokens};
ghost use Rattle.rx_paint_reply.specs.Colors.{color_reply};
ghost use Rattle.rx_paint_reply.specs.Tokens.{tokens_reply};

use crate::color::add_text_in_color;
use crate::tokens::add_tokens_text;
use rx_ast::Pattern;
use rx_base::{List, OutOfMemory};
use rx_paint::paint;
use std::alloc::Global;

/// Adds the reply that lists the tokens of a pattern. After an error a part of the reply may stand at the end.
pub fn add_tokens(alloc: Global, bytes: &mut List<u8>, pattern: &Pattern) -> Result<(), OutOfMemory>
    requires { IsNestedPattern (mirror pattern.now) }
    ensures { OnOk result (bytes.new ≡ bytes.old ++ tokens_reply (pattern_tokens (mirror pattern.now))) }
{
    let tokens = paint(alloc, pattern)?;
    bytes.extend_from_slice(b"ok\t")?;
    add_tokens_text(bytes, tokens.as_slice())?;
    bytes.extend_from_slice(b"\n")
}

/// Adds the reply that shows a pattern in the colours of a terminal: the text of a literal, or `(?:)` for the empty one, which is read so. After an error a part of
/// the reply may stand at the end.
pub fn add_colors(
    alloc: Global,
    bytes: &mut List<u8>,
    pattern: &Pattern,
    text: &str,
) -> Result<(), OutOfMemory>
    requires nested { IsNestedPattern (mirror pattern.now) }
    requires within { pattern.now.span.end ≤ length (literal_text text.now) }
    ensures { OnOk result (bytes.new ≡ bytes.old ++ color_reply (literal_text text.now) (pattern_tokens (mirror pattern.now))) }
{
    let text = literal_text(text);
    let tokens = paint(alloc, pattern)?;
    bytes.extend_from_slice(b"ok\t")?;
    add_text_in_color(bytes, text.as_bytes(), tokens.as_slice())?;
    bytes.extend_from_slice(b"\n")
}

/// The text of a literal, or what stands in for an empty one.
fn literal_text(text: &str) -> &str
    ensures { result.now ≡ literal_text text.now }
{
    if text.is_empty() {
        return "(?:)";
    }
    text
}
