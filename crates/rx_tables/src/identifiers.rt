ghost use Rattle.std.specs.Prelude.{◌≡◌};
ghost use Rattle.rx_tables.specs.Identifiers as set;

use unicode::properties;

/// Whether a value is a character that may begin an identifier by Unicode.
pub fn is_unicode_id_start(cp: u32) -> bool
    ensures { result ≡ set.is_unicode_id_start cp }
{
    match char::from_u32(cp) {
        Some(ch) if ch.is_ascii() => ch.is_ascii_alphabetic(),
        Some(ch) => properties::is_id_start(ch),
        None => false,
    }
}

/// Whether a value is a character that may continue an identifier by Unicode.
pub fn is_unicode_id_continue(cp: u32) -> bool
    ensures { result ≡ set.is_unicode_id_continue cp }
{
    match char::from_u32(cp) {
        Some(ch) if ch.is_ascii() => ch.is_ascii_alphanumeric() || ch == '_',
        Some(ch) => properties::is_id_continue(ch),
        None => false,
    }
}

/// Whether a value is a character that may begin the name of a group.
pub fn is_identifier_start_char(cp: u32) -> bool
    ensures { result ≡ set.is_identifier_start_char cp }
{
    is_unicode_id_start(cp) || cp == '$' as u32 || cp == '_' as u32
}

/// Whether a value is a character that may continue the name of a group.
pub fn is_identifier_part_char(cp: u32) -> bool
    ensures { result ≡ set.is_identifier_part_char cp }
{
    is_unicode_id_continue(cp) || cp == '$' as u32
}
