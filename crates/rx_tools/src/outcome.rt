use rx_ast::Pattern;
use rx_base::Text;
use rx_model::Mode;

/// A pattern that was read, the mode it was read in, and its canonical spelling.
// Why: docs/DECISIONS.md, 13.
#[derive(Drop)]
pub struct Canonical {
    pub pattern: Pattern,
    pub mode: Mode,
    pub text: Text,
}
