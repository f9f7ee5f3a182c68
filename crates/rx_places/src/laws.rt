//! Laws of the definitions. The functions do nothing: each contract is a law.

ghost use Rattle.std.specs.Prelude.{◌≡◌, ◌+◌, ◌++◌, ℕ, List, encode_utf8_all, length};
ghost use Rattle.std.specs.Char.Escape.{encode_utf16};
ghost use Rattle.std.specs.List.{flat_map};
ghost use Rattle.rx_places.specs.Places.{in_utf16, units_before};

/// At a place between characters the place in UTF-16 is the number of code units before it, as the standard library encodes characters.
pub fn places_are_units()
    ensures units { (text front back : List ℕ) → text ≡ front ++ back → units_before text (length (encode_utf8_all front)) ≡ length (flat_map encode_utf16 front) }
    ensures places { (text front back : List ℕ) (offset : ℕ) → text ≡ front ++ back → in_utf16 text offset (offset + length (encode_utf8_all front)) ≡ offset + length (flat_map encode_utf16 front) }
{}
