use crate::string_literal_parser::LegacyKind;

/// What an element of a quoted text stands for.
#[derive(Clone, Copy, Debug)]
pub struct Element {
    pub value: u32,
    pub writing: Writing,
}

/// How an element was written.
// Why: docs/DECISIONS.md, 67.
#[derive(Clone, Copy, Debug)]
pub enum Writing {
    /// As itself, or by an escape without a number.
    Plain,
    /// HexEscapeSequence
    Hexadecimal,
    /// UnicodeEscapeSequence
    Unicode,
    /// An escape that strict mode code does not allow.
    Legacy(LegacyKind),
    /// In a template a NotEscapeSequence of digits (ECMA-262, 12.9.6).
    NotEscape,
    /// In a template a LineTerminatorSequence (ECMA-262, 12.9.6).
    LineTerminator,
    /// LineContinuation (ECMA-262, 12.9.4). Its value is its line terminator.
    LineContinuation,
}
