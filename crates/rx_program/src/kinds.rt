ghost use Rattle.std.specs.Prelude.{◌≡◌};
ghost use Rattle.rx_trace.specs.Matching.{looks_back as looks_behind};

use rx_ast::LookAroundAssertionKind;

/// Whether the body of a look-around is matched backward.
pub fn looks_back(kind: LookAroundAssertionKind) -> bool
    ensures { result ≡ looks_behind kind }
{
    match kind {
        LookAroundAssertionKind::Lookahead => false,
        LookAroundAssertionKind::NegativeLookahead => false,
        LookAroundAssertionKind::Lookbehind => true,
        LookAroundAssertionKind::NegativeLookbehind => true,
    }
}
