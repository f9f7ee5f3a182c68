use std::alloc::{AllocError, Global};

/// The text that a part of a row stands for, where `«9»` stands for the character U+0009, and so on; or none where a `«` does not begin the number of a
/// character.
pub fn text_of(alloc: Global, written: &str) -> Result<Option<String>, AllocError> {
    let mut text = String::new(alloc);
    let mut pieces = written.split('«');
    if let Some(front) = pieces.next() {
        text.push_str(front)?;
    }
    for piece in pieces {
        let Some((digits, following)) = piece.split_once('»') else {
            return Ok(None);
        };
        let Some(character) = character_of(digits) else {
            return Ok(None);
        };
        text.push(character)?;
        text.push_str(following)?;
    }
    Ok(Some(text))
}

/// The character whose number these hexadecimal digits are.
fn character_of(digits: &str) -> Option<char> {
    let number = u32::from_str_radix(digits, 16).ok()?;
    char::from_u32(number)
}
