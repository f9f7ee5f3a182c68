ghost use Rattle.std.specs.Prelude.{◌≡◌};
ghost use Rattle.rx_base.specs.Characters.{is_code_point};
ghost use Rattle.rx_tables.specs.Characters as set;

/// Whether a value is one of `^ $ \ . * + ? ( ) [ ] { } |`.
#[tactic(auto, using(crate::proofs::Tables::syntax_at))]
pub fn is_syntax_character(cp: u32) -> bool
    ensures { result ≡ set.is_syntax_character cp }
{
    cp < 128 && SYNTAX_CHARACTERS[cp as usize] != 0
}

/// For each ASCII character, 1 where it is one of `^ $ \ . * + ? ( ) [ ] { } |`, else 0.
static SYNTAX_CHARACTERS: [u8; 128] = [
    0, 0, 0, 0, 0, 0, 0, 0, 0, 0, 0, 0, 0, 0, 0, 0, //
    0, 0, 0, 0, 0, 0, 0, 0, 0, 0, 0, 0, 0, 0, 0, 0, //
    0, 0, 0, 0, 1, 0, 0, 0, 1, 1, 1, 1, 0, 0, 1, 0, //
    0, 0, 0, 0, 0, 0, 0, 0, 0, 0, 0, 0, 0, 0, 0, 1, //
    0, 0, 0, 0, 0, 0, 0, 0, 0, 0, 0, 0, 0, 0, 0, 0, //
    0, 0, 0, 0, 0, 0, 0, 0, 0, 0, 0, 1, 1, 1, 1, 0, //
    0, 0, 0, 0, 0, 0, 0, 0, 0, 0, 0, 0, 0, 0, 0, 0, //
    0, 0, 0, 0, 0, 0, 0, 0, 0, 0, 0, 1, 1, 1, 0, 0, //
];

/// Whether a value is one of `( ) [ ] { } / - \ |`.
pub fn is_class_set_syntax_character(cp: u32) -> bool
    ensures { result ≡ set.is_class_set_syntax_character cp }
{
    char::from_u32(cp).is_some_and(|ch| {
        matches!(
            ch,
            '(' | ')' | '[' | ']' | '{' | '}' | '/' | '-' | '\\' | '|'
        )
    })
}

/// Whether two values are the same one of ``& ! # $ % * + , . : ; < = > ? @ ^ ` ~``.
pub fn is_class_set_reserved_double_punctuator(cp1: u32, cp2: u32) -> bool
    ensures { result ≡ set.is_class_set_reserved_double_punctuator cp1 cp2 }
{
    cp1 == cp2
        && char::from_u32(cp1).is_some_and(|ch| {
            matches!(
                ch,
                '&' | '!'
                    | '#'
                    | '$'
                    | '%'
                    | '*'
                    | '+'
                    | ','
                    | '.'
                    | ':'
                    | ';'
                    | '<'
                    | '='
                    | '>'
                    | '?'
                    | '@'
                    | '^'
                    | '`'
                    | '~'
            )
        })
}

/// Whether a value is one of ``& - ! # % , : ; < = > @ ` ~``.
pub fn is_class_set_reserved_punctuator(cp: u32) -> bool
    ensures { result ≡ set.is_reserved_punctuator cp }
{
    char::from_u32(cp).is_some_and(|ch| {
        matches!(
            ch,
            '&' | '-' | '!' | '#' | '%' | ',' | ':' | ';' | '<' | '=' | '>' | '@' | '`' | '~'
        )
    })
}

/// Whether a value is one of `0` to `9`.
pub fn is_decimal_digit(cp: u32) -> bool
    ensures { result ≡ set.is_decimal_digit cp }
{
    char::from_u32(cp).is_some_and(|ch| ch.is_ascii_digit())
}

/// Whether a value is one of `0` to `7`.
pub fn is_octal_digit(cp: u32) -> bool
    ensures { result ≡ set.is_octal_digit cp }
{
    char::from_u32(cp).is_some_and(|ch| matches!(ch, '0'..='7'))
}

/// Whether a value is a code point, a surrogate or not.
pub fn is_valid_unicode(cp: u32) -> bool
    ensures { result ≡ is_code_point cp }
{
    cp <= 0x10ffff
}

/// Whether a value may stand in the name of a property: an ASCII letter or `_`.
pub fn is_unicode_property_name_character(cp: u32) -> bool
    ensures { result ≡ set.is_unicode_property_name_character cp }
{
    char::from_u32(cp).is_some_and(|ch| ch.is_ascii_alphabetic() || ch == '_')
}

/// Whether a value may stand in the value of a property: an ASCII letter, a digit or `_`.
pub fn is_unicode_property_value_character(cp: u32) -> bool
    ensures { result ≡ set.is_unicode_property_value_character cp }
{
    char::from_u32(cp).is_some_and(|ch| ch.is_ascii_alphanumeric() || ch == '_')
}

/// What `\f`, `\n`, `\r`, `\t` or `\v` stands for, from the value after the backslash.
pub fn map_control_escape(cp: u32) -> Option<u32>
    ensures { result ≡ set.control_escape_value cp }
{
    match char::from_u32(cp) {
        Some('f') => Some(0x0c),
        Some('n') => Some(0x0a),
        Some('r') => Some(0x0d),
        Some('t') => Some(0x09),
        Some('v') => Some(0x0b),
        _ => None,
    }
}

/// What `\c` and an ASCII letter stand for, from the letter.
pub fn map_c_ascii_letter(cp: u32) -> Option<u32>
    ensures { result ≡ set.control_letter_value cp }
{
    char::from_u32(cp)
        .filter(char::is_ascii_alphabetic)
        .map(|_| cp % 32)
}

/// For each ASCII character the number of the hexadecimal digit that it is, or 255.
static HEX_DIGITS: [u8; 128] = [
    255, 255, 255, 255, 255, 255, 255, 255, 255, 255, 255, 255, 255, 255, 255, 255, //
    255, 255, 255, 255, 255, 255, 255, 255, 255, 255, 255, 255, 255, 255, 255, 255, //
    255, 255, 255, 255, 255, 255, 255, 255, 255, 255, 255, 255, 255, 255, 255, 255, //
    0, 1, 2, 3, 4, 5, 6, 7, 8, 9, 255, 255, 255, 255, 255, 255, //
    255, 10, 11, 12, 13, 14, 15, 255, 255, 255, 255, 255, 255, 255, 255, 255, //
    255, 255, 255, 255, 255, 255, 255, 255, 255, 255, 255, 255, 255, 255, 255, 255, //
    255, 10, 11, 12, 13, 14, 15, 255, 255, 255, 255, 255, 255, 255, 255, 255, //
    255, 255, 255, 255, 255, 255, 255, 255, 255, 255, 255, 255, 255, 255, 255, 255, //
];

/// For each ASCII character what a backslash and it stand for, if it is a ControlEscape, a SyntaxCharacter or `/`, or 0.
static SHORT_ESCAPES: [u8; 128] = [
    0, 0, 0, 0, 0, 0, 0, 0, 0, 0, 0, 0, 0, 0, 0, 0, //
    0, 0, 0, 0, 0, 0, 0, 0, 0, 0, 0, 0, 0, 0, 0, 0, //
    0, 0, 0, 0, 36, 0, 0, 0, 40, 41, 42, 43, 0, 0, 46, 47, //
    0, 0, 0, 0, 0, 0, 0, 0, 0, 0, 0, 0, 0, 0, 0, 63, //
    0, 0, 0, 0, 0, 0, 0, 0, 0, 0, 0, 0, 0, 0, 0, 0, //
    0, 0, 0, 0, 0, 0, 0, 0, 0, 0, 0, 91, 92, 93, 94, 0, //
    0, 0, 0, 0, 0, 0, 12, 0, 0, 0, 0, 0, 0, 0, 10, 0, //
    0, 0, 13, 0, 9, 0, 11, 0, 0, 0, 0, 123, 124, 125, 0, 0, //
];

/// The number of a hexadecimal digit of either case.
#[inline]
#[tactic(auto, using(crate::proofs::Tables::digit_at, crate::proofs::Tables::no_hex_digit_at))]
pub fn map_hex_digit(cp: u32) -> Option<u32>
    ensures { result ≡ set.hex_digit_value cp }
{
    if cp >= 128 {
        return None;
    }
    let digit = HEX_DIGITS[cp as usize];
    if digit < 16 { Some(digit as u32) } else { None }
}

/// What a backslash and a ControlEscape, a SyntaxCharacter or `/` (ECMA-262, 22.2.1) stand for, from the value after the
/// backslash. Any other value gives `None`.
#[inline(always)]
#[tactic(auto, using(crate::proofs::Tables::escape_at, crate::proofs::Tables::short_escape_at))]
pub fn map_short_escape(cp: u32) -> Option<u32>
    ensures { result ≡ set.short_escape_value cp }
{
    if cp >= 128 {
        return None;
    }
    let value = SHORT_ESCAPES[cp as usize];
    if value == 0 { None } else { Some(value as u32) }
}
