use crate::string_literal_parser::StringLiteralKind;

/// A quoted text: a string in quotes of a kind, or a template without substitutions.
#[derive(Clone, Copy, Debug)]
pub enum Literal {
    String(StringLiteralKind),
    Template,
}
