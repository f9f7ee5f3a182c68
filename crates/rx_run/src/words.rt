//! The words of the command line.
ghost use Rattle.std.specs.Prelude.{◌≡◌, ◌↔◌, ◌⊎◌, ◌≤◌, ℕ, Err, IfErr, IfOk, IfSome, IsSomeAnd, length, slice_get, take};
ghost use Rattle.std.specs.Str.{IsUtf8};
ghost use Rattle.rx_run.specs.Arguments.{AreWords, HasNoText, IsNotCopied, IsWord, IsWordAt};

use crate::arguments::Arguments;
use crate::run::Status;
use rx_base::{List, Text};
use std::alloc::Global;
use std::env::FillError;

/// The words after the program's name, all of them and in order.
///
/// # Errors
///
/// The status to end with: `Usage` only where some word is no UTF-8, or else `OutOfMemory`, which may be at any time.
pub fn words<A: Arguments>(arguments: &A, alloc: Global) -> Result<List<Text>, Status>
    ensures ok { IfOk result (λ words. IfSome (A.given arguments.now) (λ given. AreWords given words)) }
    ensures usage { result ≡ Err Status.Usage → IfSome (A.given arguments.now) HasNoText }
    ensures err { IfErr result (λ status. (status ≡ Status.Usage) ⊎ (status ≡ Status.OutOfMemory)) }
{
    let mut words = List::new(alloc);
    for index in 1..usize::MAX {
        match word(arguments, alloc, index)? {
            Some(word) => words.push(word)?,
            None => return Ok(words),
        }
    }
    Err(Status::OutOfMemory)
}

/// The word at an index, or none exactly past the last. The buffer grows until the word fits.
fn word<A: Arguments>(arguments: &A, alloc: Global, index: usize) -> Result<Option<Text>, Status>
    ensures ok { IfOk result (λ word. IfSome (A.given arguments.now) (λ given. IsWordAt given index word)) }
    ensures usage { result ≡ Err Status.Usage → IfSome (A.given arguments.now) (λ given. IsSomeAnd (slice_get given index) (λ bytes. ¬ IsUtf8 bytes)) }
    ensures err { IfErr result (λ status. (status ≡ Status.Usage) ⊎ (status ≡ Status.OutOfMemory)) }
{
    let mut len = 256usize;
    for _ in 0..usize::BITS {
        let mut buffer = Vec::new(alloc);
        if buffer.resize(len, 0u8).is_err() {
            break;
        }
        match word_in(arguments, alloc, index, buffer.as_mut_slice())? {
            Ok(word) => return Ok(Some(word)),
            Err(FillError::NotPresent) => return Ok(None),
            Err(FillError::TooLong) => len = len.saturating_mul(2),
        }
    }
    Err(Status::OutOfMemory)
}

/// The word that some front of the buffer spells, or why none was copied there. The outer error is the status to end with.
fn word_in<A: Arguments>(
    arguments: &A,
    alloc: Global,
    index: usize,
    buffer: &mut [u8],
) -> Result<Result<Text, FillError>, Status>
    ensures ok { IfOk result (λ copied. IfOk copied (λ word. (count : ℕ) × (count ≤ length buffer.new) × IsWord (take count buffer.new) word)) }
    ensures usage { result ≡ Err Status.Usage → (count : ℕ) × (count ≤ length buffer.new) × ¬ IsUtf8 (take count buffer.new) }

    // The same where the arguments are told.
    ensures word { IfOk result (λ copied. IfOk copied (λ word. IfSome (A.given arguments.now) (λ given. IsSomeAnd (slice_get given index) (λ bytes. IsWord bytes word)))) }
    ensures fault { IfOk result (λ copied. IfErr copied (λ fault. IfSome (A.given arguments.now) (λ given. IsNotCopied fault (slice_get given index) (length buffer.old)))) }
    ensures no_text { result ≡ Err Status.Usage → IfSome (A.given arguments.now) (λ given. IsSomeAnd (slice_get given index) (λ bytes. ¬ IsUtf8 bytes)) }
    ensures err { IfErr result (λ status. (status ≡ Status.Usage) ⊎ (status ≡ Status.OutOfMemory)) }
{
    match arguments.argument(index, buffer) {
        Ok(count) => Ok(Ok(text(alloc, &buffer[..count])?)),
        Err(fault) => Ok(Err(fault)),
    }
}

/// The text whose characters these bytes are.
fn text(alloc: Global, bytes: &[u8]) -> Result<Text, Status>
    ensures ok { IfOk result (λ text. IsWord bytes.now text) }
    ensures usage { (result ≡ Err Status.Usage) ↔ ¬ IsUtf8 bytes.now }
    ensures err { IfErr result (λ status. (status ≡ Status.Usage) ⊎ (status ≡ Status.OutOfMemory)) }
{
    match str::from_utf8(bytes) {
        Ok(text) => Ok(Text::from_str(alloc, text)?),
        Err(_) => Err(Status::Usage),
    }
}
