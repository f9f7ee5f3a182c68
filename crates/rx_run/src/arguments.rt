//! Where the words of the command line come from.
ghost use Rattle.std.specs.Prelude.{◌≡◌, ℕ, List as Sequence, Option, Some, IfOk, IfErr, IfSome, length, take, slice_get};
ghost use Rattle.std.specs.Io.{WritesAtMost};
ghost use Rattle.rx_run.specs.Arguments.{IsNotCopied};

use rx_base::List;
use std::env::FillError;
use std::marker::Model;

/// The arguments of a process, of which the first is the program's name.
///
/// `given` is all of them in order, each as its bytes, where they are told.
pub trait Arguments {
    ghost given: { Self → Option (Sequence (Sequence ℕ)) };

    /// Copies the argument at an index to the front of the buffer, and says how many bytes it has; or that there is none at this index, or
    /// that it is longer than the buffer.
    fn argument(&self, index: usize, buffer: &mut [u8]) -> Result<usize, FillError>
        ensures bound { WritesAtMost result buffer.new }
        ensures copied { IfOk result (λ count. IfSome (given self.now) (λ all. slice_get all index ≡ Some (take count buffer.new))) }
        ensures fault { IfErr result (λ fault. IfSome (given self.now) (λ all. IsNotCopied fault (slice_get all index) (length buffer.old))) };
}

/// Arguments in memory. It tells them.
#[derive(Drop)]
pub struct MemoryArguments {
    arguments: List<List<u8>>,
}

impl Model for MemoryArguments {
    ghost use Rattle.std.specs.Prelude.{ℕ, List};

    ghost Value = { List (List ℕ) };

    ghost view = { λ a. a.arguments };
}

impl MemoryArguments {
    pub fn new(arguments: List<List<u8>>) -> MemoryArguments
        ensures { result ≡ arguments }
    {
        MemoryArguments { arguments }
    }
}

impl Arguments for MemoryArguments {
    ghost given = { λ a. Some a };

    fn argument(&self, index: usize, buffer: &mut [u8]) -> Result<usize, FillError> {
        let Some(argument) = self.arguments.get(index) else {
            return Err(FillError::NotPresent);
        };
        let len = argument.len();
        if buffer.len() < len {
            return Err(FillError::TooLong);
        }
        buffer[..len].copy_from_slice(argument.as_slice());
        Ok(len)
    }
}
