//! What refusals hold besides their spans and their kind.
ghost use Rattle.std.specs.Prelude.{◌≡◌, [], ◌∷◌, IfOk, encode_utf8_all, string_bytes};
ghost use Rattle.rx_base.specs.DiagnosticMessage.{flag_text};
ghost use Rattle.rx_refusal.specs.Values.{max_of, texts_of};

use rx_base::{Diagnostic, List, OutOfMemory, Text};
use std::alloc::Global;

/// The texts that a refusal holds: a flag, the names of groups, or the name of a property.
pub fn texts_of(alloc: Global, refusal: &Diagnostic) -> Result<List<Text>, OutOfMemory>
    ensures { IfOk result (λ texts. texts ≡ texts_of refusal.now) }
{
    match refusal {
        Diagnostic::UnknownFlag { flag, .. } => flag_alone(alloc, *flag),
        Diagnostic::DuplicatedFlags { flag, .. } => flag_alone(alloc, *flag),
        Diagnostic::InvalidNamedReference { names, .. } => copies(alloc, names.as_slice()),
        Diagnostic::InvalidUnicodePropertyNameNegativeStrings { name, .. } => {
            alone(alloc, name.clone(alloc)?)
        }
        Diagnostic::InvalidUnicodePropertyOfStrings { name, .. } => {
            alone(alloc, name.clone(alloc)?)
        }
        _ => Ok(List::new(alloc)),
    }
}

/// How many groups there are, of a reference to a group that there is not.
pub fn max_of(refusal: &Diagnostic) -> Option<u32>
    ensures { result ≡ max_of refusal.now }
{
    match refusal {
        Diagnostic::InvalidIndexedReference { max, .. } => Some(*max),
        _ => None,
    }
}

/// A flag as the message has it: a character, or its number in hexadecimal where it is no character.
pub fn text_of_flag(alloc: Global, flag: u32) -> Result<String, OutOfMemory>
    ensures { IfOk result (λ text. string_bytes text ≡ encode_utf8_all (flag_text flag)) }
{
    match char::from_u32(flag) {
        Some(character) => Ok(format!(in alloc; "{character}")?),
        None => Ok(format!(in alloc; "\\u{{{flag:X}}}")?),
    }
}

fn flag_alone(alloc: Global, flag: u32) -> Result<List<Text>, OutOfMemory>
    ensures { IfOk result (λ texts. texts ≡ flag_text flag ∷ []) }
{
    let text = text_of_flag(alloc, flag)?;
    alone(alloc, Text::from_str(alloc, text.as_str())?)
}

fn alone(alloc: Global, text: Text) -> Result<List<Text>, OutOfMemory>
    ensures { IfOk result (λ texts. texts ≡ text ∷ []) }
{
    let mut texts = List::new(alloc);
    texts.push(text)?;
    Ok(texts)
}

fn copies(alloc: Global, texts: &[Text]) -> Result<List<Text>, OutOfMemory>
    ensures { IfOk result (λ copies. copies ≡ texts.now) }
{
    let mut copies = List::with_capacity(alloc, texts.len())?;
    for text in texts {
        copies.push(text.clone(alloc)?)?;
    }
    Ok(copies)
}
