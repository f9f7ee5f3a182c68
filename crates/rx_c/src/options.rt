use std::mem::size_of;

/// How a pattern is to be read, and what is wanted of it. It has numbers and truth values alone, so that no pointer in it can be wrong.
#[repr(C)]
#[derive(Clone, Copy, Debug)]
pub struct Options {
    /// 0 for the text between a literal's slashes, 1 for the arguments of `RegExp`, with their quotes.
    pub form: u32,

    /// What is added to each place in the pattern.
    pub pattern_offset: u32,

    /// What is added to each place in the flags.
    pub flags_offset: u32,

    /// Whether there is a flags text, which may be empty.
    pub has_flags: bool,

    /// Whether two groups may have one name where they never both take part.
    pub duplicate_names: bool,

    /// Whether `\A`, `\z` and `\Z` are boundaries with `u` or `v`.
    pub buffer_boundaries: bool,

    /// Whether arguments of `RegExp` are what ECMA-262 makes of them.
    pub standard_strings: bool,

    /// Whether places count UTF-16 code units, and not bytes.
    pub utf16: bool,

    /// Whether the records of the tree are wanted.
    pub nodes: bool,

    /// Whether the canonical spelling is wanted.
    pub spelling: bool,

    /// Not looked at.
    pub spare: bool,
}

const _: () = prove!(size_of::<Options>() == 20);
