ghost use Rattle.std.specs.Prelude.{◌≡◌, ◌≤◌, ◌++◌, ◌↔◌, [], IsTrue, length, OnOk, OnErr};
ghost use Rattle.rx_base.specs.Ascii as ascii;
ghost use Rattle.rx_run.specs.Lines.{lacks};
ghost use Rattle.rx_run.specs.Serving.{line_front};

use crate::request::LINE_LIMIT;
use rx_base::{List, OutOfMemory};
use std::alloc::Global;

/// How much of a line is kept, in bytes: one more than is read, which shows that the line is too long.
// Why: docs/DECISIONS.md, 10.
const KEPT: usize = LINE_LIMIT + 1;

/// A line that is being read, as far as it is kept. Its memory is used again for the next line.
#[derive(Drop)]
pub struct Line {
    pub bytes: List<u8>,
    ghost one_line: { IsTrue (lacks ascii.line_feed bytes) },
    ghost in_bound: { length bytes ≤ 1048577 },
}

impl Line {
    /// Takes no memory.
    pub fn new(alloc: Global) -> Line
        ensures { result.bytes ≡ [] }
    {
        Line {
            bytes: List::new(alloc),
        }
    }

    pub fn is_empty(&self) -> bool
        ensures { IsTrue result ↔ (self.now.bytes ≡ []) }
    {
        self.bytes.is_empty()
    }

    /// Adds a piece, as far as it is kept. After an error the line is as it was.
    pub fn keep(&mut self, piece: &[u8]) -> Result<(), OutOfMemory>
        requires { IsTrue (lacks ascii.line_feed piece.now) }
        ensures ok { OnOk result (self.new.bytes ≡ line_front (self.old.bytes ++ piece.now)) }
        ensures err { OnErr result (self.new.bytes ≡ self.old.bytes) }
    {
        let count = piece.len().min(KEPT - self.bytes.len());
        self.bytes.extend_from_slice(&piece[..count])
    }

    /// Where the line takes its memory.
    pub fn allocator(&self) -> Global {
        self.bytes.allocator()
    }

    pub fn clear(&mut self)
        ensures { self.new.bytes ≡ [] }
    {
        self.bytes.clear();
    }
}
