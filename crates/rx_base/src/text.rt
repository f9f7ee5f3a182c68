ghost use Rattle.std.specs.Prelude.{◌≡◌, ◌∷◌, [], ◌++◌, IfOk, OnOk, OnErr};
ghost use Rattle.std.specs.Str.{chars};

use crate::OutOfMemory;
use std::alloc::Global;
use std::marker::Model;

/// A text that contracts see as its characters.
#[derive(Debug, Drop)]
pub struct Text {
    inner: String,
}

impl Model for Text {
    ghost use Rattle.std.specs.Prelude.{List, ℕ};
    ghost use Rattle.std.specs.Coded.{coded_list, coded_ℕ};
    ghost use Rattle.std.specs.String.{string_bytes};
    ghost use Rattle.std.specs.Str.{chars};

    ghost Value = { List ℕ };

    ghost coded = { coded_list coded_ℕ };

    ghost view = { λ t. chars (string_bytes t.inner) };
}

impl Text {
    pub fn from_str(alloc: Global, s: &str) -> Result<Text, OutOfMemory>
        ensures { IfOk result (λ t. t ≡ chars s.now) }
    {
        Ok(Text {
            inner: String::from_str(alloc, s)?,
        })
    }

    pub fn as_str(&self) -> &str
        ensures { chars result.now ≡ self.now }
    {
        self.inner.as_str()
    }

    /// Adds a character at the end. After an error the text is as it was.
    pub fn push(&mut self, c: char) -> Result<(), OutOfMemory>
        ensures ok { OnOk result (self.new ≡ self.old ++ c ∷ []) }
        ensures err { OnErr result (self.new ≡ self.old) }
    {
        self.inner.push(c)?;
        Ok(())
    }

    /// Adds a text at the end. After an error the text is as it was.
    pub fn push_str(&mut self, s: &str) -> Result<(), OutOfMemory>
        ensures ok { OnOk result (self.new ≡ self.old ++ chars s.now) }
        ensures err { OnErr result (self.new ≡ self.old) }
    {
        self.inner.push_str(s)?;
        Ok(())
    }

    pub fn clone(&self, alloc: Global) -> Result<Text, OutOfMemory>
        ensures { IfOk result (λ t. t ≡ self.now) }
    {
        Text::from_str(alloc, self.as_str())
    }
}
