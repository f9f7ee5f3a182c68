/// Which constructs a rewriting takes out of a pattern.
#[derive(Clone, Copy, Debug, PartialEq, Eq)]
pub struct Rewrites {
    /// Names of groups, and references by name.
    pub named_capture_groups: bool,
    /// What the flag `s` changes: `.` that holds line terminators.
    pub dot_all: bool,
    /// What the flag `m` changes: `^` and `$` that hold at the ends of lines.
    pub multiline: bool,
    /// The modifiers `m` and `s` of groups.
    pub pattern_modifiers: bool,
}

impl Rewrites {
    /// All of them.
    pub const ALL: Rewrites = Rewrites {
        named_capture_groups: true,
        dot_all: true,
        multiline: true,
        pattern_modifiers: true,
    };
}
