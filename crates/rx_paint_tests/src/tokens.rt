use rx_ast::Pattern;
use rx_base::List;
use rx_paint::{nested, paint};
use rx_paint_reply::add_tokens_text;
use std::alloc::Global;
use std::test::Fail;

/// The tokens of a pattern as a text, the offsets of each and its kind; or that it is not nested.
pub fn tokens_of(alloc: Global, pattern: &Pattern) -> Result<String, Fail> {
    if !nested(pattern) {
        return Ok(String::from_str(alloc, "not nested")?);
    }
    let tokens = paint(alloc, pattern)?;
    let mut bytes = List::new(alloc);
    add_tokens_text(&mut bytes, tokens.as_slice())?;
    let text = str::from_utf8(bytes.as_slice()).ok().ok_or("no text")?;
    Ok(String::from_str(alloc, text)?)
}
