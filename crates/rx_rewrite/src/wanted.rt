ghost use Rattle.std.specs.Prelude.{◌≡◌};
ghost use Rattle.rx_rewrite.specs.Wanted.{rewrites_of};

use crate::rewrites::Rewrites;

/// What is to go from patterns.
#[derive(Clone, Copy, Debug)]
pub enum Wanted {
    /// All that can go. Modifiers `i` stay.
    All,
    /// These constructs. Where modifiers are named, a pattern that would keep modifiers `i` is refused.
    Listed(Rewrites),
}

impl Wanted {
    /// What a rewriting takes out.
    pub fn rewrites(self) -> Rewrites
        ensures { result ≡ rewrites_of self }
    {
        match self {
            Wanted::All => Rewrites::ALL,
            Wanted::Listed(what) => what,
        }
    }
}
