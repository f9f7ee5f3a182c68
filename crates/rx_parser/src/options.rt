ghost use Rattle.std.specs.Prelude.{◌≡◌, false, true};

/// Where the texts stand in a source, the rules, and how arguments of `RegExp` are read.
#[derive(Clone, Copy, Debug)]
pub struct Options {
    /// What is added to each offset of an answer in the text of the pattern, in bytes.
    pub pattern_span_offset: u32,
    /// What is added to each offset of an answer in the flags, in bytes.
    pub flags_span_offset: u32,
    /// Whether two groups may have one name where they never both take part (ECMA-262, 22.2.1.1); else no two may.
    pub duplicate_names: bool,
    /// Whether `\A`, `\z` and `\Z` are boundaries with `u` or `v` (regular expression buffer boundaries).
    pub buffer_boundaries: bool,
    /// Whether arguments of `RegExp` are what ECMA-262 makes of them (12.9.4, 12.9.6, 13.2.8.1, 11.1.5), and not as the Rust crate reads them.
    pub standard_strings: bool,
}

impl Default for Options {
    /// No offsets, both rules, and arguments of `RegExp` as the Rust crate reads them.
    fn default() -> Options
        ensures pattern_span_offset { result.pattern_span_offset ≡ 0 }
        ensures flags_span_offset { result.flags_span_offset ≡ 0 }
        ensures duplicate_names { result.duplicate_names ≡ true }
        ensures buffer_boundaries { result.buffer_boundaries ≡ true }
        ensures standard_strings { result.standard_strings ≡ false }
    {
        Options {
            pattern_span_offset: 0,
            flags_span_offset: 0,
            duplicate_names: true,
            buffer_boundaries: true,
            standard_strings: false,
        }
    }
}
