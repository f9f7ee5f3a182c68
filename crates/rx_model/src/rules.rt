/// What is read beside what the mode says: names that two groups share, and the proposal on buffer boundaries.
// Why: docs/DECISIONS.md, 64.
#[derive(Clone, Copy, Debug, PartialEq, Eq)]
pub struct Rules {
    /// Whether two groups may have one name where they never both take part (duplicate named capturing groups; ECMA-262, 22.2.1.1); else no two may.
    pub duplicate_names: bool,
    /// Whether `\A`, `\z` and `\Z` are boundaries with `u` or `v` (regular expression buffer boundaries).
    pub buffer_boundaries: bool,
}
