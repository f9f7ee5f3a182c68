ghost use Rattle.std.specs.Prelude.{◌≡◌};
ghost use Rattle.rx_trace.specs.Holding.{escape_holds as escape_holds_it, is_line_terminator as terminates, is_space as is_space_unit, is_word as is_word_unit};

use rx_ast::CharacterClassEscapeKind;

pub fn is_line_terminator(c: u32) -> bool
    ensures { result ≡ terminates c }
{
    c == 10 || c == 13 || c == 0x2028 || c == 0x2029
}

pub fn is_word(c: u32) -> bool
    ensures { result ≡ is_word_unit c }
{
    (65 <= c && c <= 90) || (97 <= c && c <= 122) || (48 <= c && c <= 57) || c == 95
}

fn is_space(c: u32) -> bool
    ensures { result ≡ is_space_unit c }
{
    (9 <= c && c <= 13)
        || c == 32
        || c == 0xA0
        || c == 0x1680
        || (0x2000 <= c && c <= 0x200A)
        || c == 0x2028
        || c == 0x2029
        || c == 0x202F
        || c == 0x205F
        || c == 0x3000
        || c == 0xFEFF
}

pub fn escape_holds(kind: CharacterClassEscapeKind, c: u32) -> bool
    ensures { result ≡ escape_holds_it kind c }
{
    match kind {
        CharacterClassEscapeKind::D => 48 <= c && c <= 57,
        CharacterClassEscapeKind::NegativeD => !(48 <= c && c <= 57),
        CharacterClassEscapeKind::S => is_space(c),
        CharacterClassEscapeKind::NegativeS => !is_space(c),
        CharacterClassEscapeKind::W => is_word(c),
        CharacterClassEscapeKind::NegativeW => !is_word(c),
    }
}
