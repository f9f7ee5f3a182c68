ghost use Rattle.std.specs.Prelude.{◌≡◌, ◌↔◌, IsTrue};
ghost use Rattle.rx_base.specs.Characters as set;
ghost use Rattle.rx_base.specs.SurrogatePair.{IsLeadSurrogate, IsTrailSurrogate, surrogate_pair};

/// Whether a code point is the first half of a pair.
pub fn is_lead_surrogate(cp: u32) -> bool
    ensures { IsTrue result ↔ IsLeadSurrogate cp }
{
    0xD800 <= cp && cp <= 0xDBFF
}

/// Whether a code point is the second half of a pair.
pub fn is_trail_surrogate(cp: u32) -> bool
    ensures { IsTrue result ↔ IsTrailSurrogate cp }
{
    0xDC00 <= cp && cp <= 0xDFFF
}

/// Whether a code point is either half of a pair.
pub fn is_surrogate(cp: u32) -> bool
    ensures { result ≡ set.is_surrogate cp }
{
    is_lead_surrogate(cp) || is_trail_surrogate(cp)
}

/// The code point of a pair.
pub fn combine_surrogate_pair(lead: u32, trail: u32) -> u32
    requires lead { IsLeadSurrogate lead }
    requires trail { IsTrailSurrogate trail }
    ensures { result ≡ surrogate_pair lead trail }
{
    (lead - 0xD800) * 0x400 + (trail - 0xDC00) + 0x10000
}
