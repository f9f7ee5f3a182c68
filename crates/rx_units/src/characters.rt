ghost use Rattle.std.specs.Prelude.{◌≡◌};
ghost use Rattle.rx_units.specs.Characters.{is_line_terminator, is_non_escape_character, is_single_escape_character};

/// Line feed.
pub const LF: char = '\n';

/// Carriage return.
pub const CR: char = '\r';

/// Line separator.
pub const LS: char = '\u{2028}';

/// Paragraph separator.
pub const PS: char = '\u{2029}';

const _: () = prove!(
    LF as u32 == 0xa && CR as u32 == 0xd && LS as u32 == 0x2028 && PS as u32 == 0x2029
);

/// LineTerminator of ECMA-262, 12.3.
pub fn is_line_terminator(ch: char) -> bool
    ensures { result ≡ is_line_terminator ch }
{
    matches!(ch, LF | CR | LS | PS)
}

/// SingleEscapeCharacter of ECMA-262, 12.9.4.
pub fn is_single_escape_character(ch: char) -> bool
    ensures { result ≡ is_single_escape_character ch }
{
    matches!(ch, '\'' | '"' | '\\' | 'b' | 'f' | 'n' | 'r' | 't' | 'v')
}

/// NonEscapeCharacter of ECMA-262, 12.9.4.
pub fn is_non_escape_character(ch: char) -> bool
    ensures { result ≡ is_non_escape_character ch }
{
    let escapes = is_single_escape_character(ch) || ch.is_ascii_digit() || ch == 'x' || ch == 'u';
    !escapes && !is_line_terminator(ch)
}
