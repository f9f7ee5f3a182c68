ghost use Rattle.std.specs.Prelude.{◌≡◌};
ghost use Rattle.std.specs.Str.{chars};

use std::marker::Model;

/// The text that patterns are matched on.
// Why: docs/DECISIONS.md, 74.
#[derive(Drop)]
pub struct Subject<'a> {
    text: &'a str,
}

impl<'a> Model for Subject<'a> {
    ghost use Rattle.std.specs.Prelude.{List, ℕ};
    ghost use Rattle.std.specs.Str.{chars};

    ghost Value = { List ℕ };

    ghost view = { λ s. chars s.text.now };
}

impl<'a> Subject<'a> {
    pub fn new(text: &'a str) -> Subject<'a>
        ensures { result ≡ chars text.now }
    {
        Subject { text }
    }

    pub fn as_str(&self) -> &'a str
        ensures { chars result.now ≡ self.now }
    {
        self.text
    }
}
