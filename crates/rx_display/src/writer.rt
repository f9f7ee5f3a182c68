ghost use Rattle.std.specs.Prelude.{◌≡◌, ◌++◌};
ghost use Rattle.std.specs.Str.{encode_utf8_all};

use rx_base::{OutOfMemory, Text};
use std::fmt;

/// Writes at the end of a text. A write fails only where there is not enough memory.
#[derive(Drop)]
pub struct Writer {
    pub text: Text,
}

impl fmt::Write for Writer {
    ghost write_str_gives = { λ old bytes new. encode_utf8_all new.text ≡ encode_utf8_all old.text ++ bytes };

    fn write_str(&mut self, s: &str) -> fmt::Result {
        match self.text.push_str(s) {
            Ok(()) => Ok(()),
            Err(OutOfMemory) => Err(fmt::Error),
        }
    }
}
