ghost use Rattle.std.specs.Prelude.{ℕ, List as Sequence, [], Option};
ghost use Rattle.std.specs.Char.{encode_utf8};
ghost use Rattle.std.specs.Str.{IsAscii};
ghost use Rattle.rx_base.specs.Writing.{Written};

use crate::{Failed, List, OutOfMemory, Sink, Text, write_all};

/// Where text goes: a sink, or a list or a text in memory. The latter two fail if there is not enough memory.
///
/// The ghost members are those of a sink that takes the text in UTF-8.
// Why: docs/DECISIONS.md, 39.
pub trait TextSink {
    ghost taken: { Self → Option (Sequence ℕ) };

    ghost fixed: { Self → Sequence ℕ } = { λ _. [] };

    ghost faults: { Self → ℕ };

    /// Writes a text. After `Failed` only its front was written, of which at least one byte is missing.
    fn write_str(&mut self, text: &str) -> Result<(), Failed>
        ensures { Written taken fixed faults self.old self.new result text.now };

    /// Writes a character. After `Failed` at least one of its bytes is missing.
    fn write_char(&mut self, c: char) -> Result<(), Failed>
        ensures { Written taken fixed faults self.old self.new result (encode_utf8 c) };

    /// Writes ASCII characters. After `Failed` at least one of them is missing.
    fn write_ascii(&mut self, bytes: &[u8]) -> Result<(), Failed>
        requires { IsAscii bytes.now }
        ensures { Written taken fixed faults self.old self.new result bytes.now };
}

impl<K: Sink> TextSink for K {
    ghost taken = { λ k. K.taken k };

    ghost fixed = { λ k. K.fixed k };

    ghost faults = { λ k. K.faults k };

    fn write_str(&mut self, text: &str) -> Result<(), Failed> {
        write_all(self, text.as_bytes())
    }

    fn write_char(&mut self, c: char) -> Result<(), Failed> {
        let mut buffer = [0; 4];
        write_all(self, c.encode_utf8(&mut buffer).as_bytes())
    }

    fn write_ascii(&mut self, bytes: &[u8]) -> Result<(), Failed> {
        write_all(self, bytes)
    }
}

impl TextSink for List<u8> {
    ghost use Rattle.std.specs.Prelude.{Some, ◌^◌, ◌-◌};

    ghost taken = { λ bytes. Some bytes };

    // The last value of a count allows a fault at any time.
    ghost faults = { λ _. 2 ^ 64 - 1 };

    fn write_str(&mut self, text: &str) -> Result<(), Failed> {
        if text.is_empty() {
            return Ok(());
        }
        match self.extend_from_slice(text.as_bytes()) {
            Ok(()) => Ok(()),
            Err(OutOfMemory) => Err(Failed),
        }
    }

    #[inline(always)]
    fn write_char(&mut self, c: char) -> Result<(), Failed> {
        let pushed = if c.is_ascii() {
            self.push(c as u8)
        } else {
            let mut buffer = [0; 4];
            self.extend_from_slice(c.encode_utf8(&mut buffer).as_bytes())
        };
        match pushed {
            Ok(()) => Ok(()),
            Err(OutOfMemory) => Err(Failed),
        }
    }

    #[inline]
    fn write_ascii(&mut self, bytes: &[u8]) -> Result<(), Failed> {
        if bytes.is_empty() {
            return Ok(());
        }
        match self.extend_from_slice(bytes) {
            Ok(()) => Ok(()),
            Err(OutOfMemory) => Err(Failed),
        }
    }
}

impl TextSink for Text {
    ghost use Rattle.std.specs.Prelude.{Some, ◌^◌, ◌-◌};
    ghost use Rattle.std.specs.Str.{encode_utf8_all};

    ghost taken = { λ text. Some (encode_utf8_all text) };

    // The last value of a count allows a fault at any time.
    ghost faults = { λ _. 2 ^ 64 - 1 };

    fn write_str(&mut self, text: &str) -> Result<(), Failed> {
        if text.is_empty() {
            return Ok(());
        }
        match self.push_str(text) {
            Ok(()) => Ok(()),
            Err(OutOfMemory) => Err(Failed),
        }
    }

    fn write_char(&mut self, c: char) -> Result<(), Failed> {
        match self.push(c) {
            Ok(()) => Ok(()),
            Err(OutOfMemory) => Err(Failed),
        }
    }

    #[tactic(auto, using(crate::proofs::Texts::ascii_text))]
    fn write_ascii(&mut self, bytes: &[u8]) -> Result<(), Failed> {
        self.write_str(str::from_utf8(bytes).unwrap())
    }
}
