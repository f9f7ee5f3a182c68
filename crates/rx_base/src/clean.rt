ghost use Rattle.std.specs.Prelude.{◌≡◌, Some, None};

use crate::fill::fill;
use crate::{Failed, Sink, Source};
use std::marker::Model;

/// Bytes in memory as a source that never fails.
#[derive(Drop)]
pub struct CleanSource<'a> {
    bytes: &'a [u8],
    at: usize,
}

impl<'a> Model for CleanSource<'a> {
    ghost use Rattle.std.specs.Prelude.{◌≤◌, length, drop};
    ghost use Rattle.rx_base.specs.Clean.{CleanInput};

    ghost Value = { CleanInput };

    ghost view = { λ s. record { left = drop s.at s.bytes.now; drawn = s.at } };

    ghost invariant = { λ s. s.at ≤ length s.bytes.now };
}

impl<'a> CleanSource<'a> {
    pub fn new(bytes: &'a [u8]) -> CleanSource<'a>
        ensures { result ≡ record { left = bytes.now; drawn = 0 } }
    {
        CleanSource { bytes, at: 0 }
    }
}

/// Tells what is left.
impl<'a> Source for CleanSource<'a> {
    ghost left = { λ s. Some s.left };

    ghost drawn = { λ s. s.drawn };

    ghost faults = { λ _. 0 };

    fn read(&mut self, buf: &mut [u8]) -> Result<usize, Failed> {
        let rest = &self.bytes[self.at..];
        let count = fill(buf, rest, rest.len());
        self.at += count;
        Ok(count)
    }
}

/// A sink that throws its bytes away and never fails.
#[derive(Drop)]
pub struct CleanSink;

impl CleanSink {
    pub fn new() -> CleanSink {
        CleanSink
    }
}

/// Does not tell what it took.
impl Sink for CleanSink {
    ghost taken = { λ _. None };

    ghost faults = { λ _. 0 };

    fn write(&mut self, piece: &[u8]) -> Result<usize, Failed> {
        Ok(piece.len())
    }
}
