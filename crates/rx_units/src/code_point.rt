use rx_base::Span;

/// How a unit was written.
#[derive(Clone, Copy, Debug, Default, PartialEq, Eq)]
pub enum EscapeKind {
    #[default]
    None,
    Unicode,
    Hexadecimal,
}

/// A code point or a UTF-16 code unit, with the bytes that it was written as.
#[derive(Clone, Copy, Debug)]
pub struct CodePoint {
    pub span: Span,
    pub value: u32,
    pub escape_kind: EscapeKind,
}
