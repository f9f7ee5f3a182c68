/// How a quoted text is decoded.
#[derive(Clone, Copy, Debug)]
pub struct Options {
    /// Whether it stands in strict mode code, where legacy escapes are refused.
    pub strict_mode: bool,
    /// Where its first byte stands.
    pub span_offset: u32,
    /// Whether a character past FFFF is one unit, and not a lead and a trail; with `standard_strings` also whether a lead and a trail that follow one another are
    /// one unit.
    pub combine_surrogate_pair: bool,
    /// Whether it is decoded as the standard has it, and not as the Rust crate does (ECMA-262, 12.9.4.2, 12.9.6.1, 13.2.8.1, 11.1.5).
    pub standard_strings: bool,
}
