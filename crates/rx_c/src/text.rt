//! Lists and texts that are given up to the caller; some texts end with NUL.
ghost use Rattle.std.specs.Prelude.{◌≡◌, ◌++◌, ◌∷◌, [], IfOk, IsUtf8, vec_capacity, vec_len};
ghost use Rattle.std.specs.Option.{option_copied};
ghost use Rattle.std.specs.String.{string_bytes};
ghost use Rattle.rx_c.specs.Told.{optional_with_nul};

use rx_base::OutOfMemory;
use std::alloc::Global;

/// The bytes, and NUL after them.
pub fn with_nul(alloc: Global, bytes: &[u8]) -> Result<Vec<u8>, OutOfMemory>
    ensures { IfOk result (λ text. text.items ≡ bytes.now ++ 0 ∷ []) }
{
    let mut text = Vec::new(alloc);
    text.extend_from_slice(bytes)?;
    text.push(0)?;
    Ok(text)
}

/// The same of a text that may be absent, and then nothing.
pub fn optional_with_nul(alloc: Global, text: Option<&str>) -> Result<Vec<u8>, OutOfMemory>
    ensures { IfOk result (λ bytes. bytes.items ≡ optional_with_nul (option_copied text.entry)) }
{
    match text {
        Some(text) => with_nul(alloc, text.as_bytes()),
        None => Ok(Vec::new(alloc)),
    }
}

/// The bytes of a text, given up to whoever frees them.
pub fn leak_text<'a>(text: String) -> &'a [u8]
    ensures bytes { result.now ≡ string_bytes text }
    ensures utf8 { IsUtf8 result.now }
{
    let _ = text.as_str();
    leak_list(text.into_bytes())
}

/// A list, given up to whoever frees it by its pointer. Nobody frees an empty one, so it gives its room back.
pub fn leak_list<'a, T: Drop + 'a>(list: Vec<T>) -> &'a [T]
    ensures { result.now ≡ list.items }
{
    if list.is_empty() {
        return &[];
    }
    leak_block(list)
}

/// Gives up the block of a list. An empty list has none, since nobody would free it.
fn leak_block<'a, T: Drop + 'a>(list: Vec<T>) -> &'a [T]
    requires { vec_len list ≡ 0 → vec_capacity list ≡ 0 }
    ensures { result.now ≡ list.items }
{
    list.leak()
}
