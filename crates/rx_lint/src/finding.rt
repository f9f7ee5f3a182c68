use rx_base::Span;

/// What is found at a node.
#[derive(Clone, Copy, Debug, PartialEq, Eq)]
pub enum Rule {
    /// A class that matches nothing: `[]`.
    EmptyClass,

    /// An item of a class that an earlier one makes useless: the second `a` of `[aba]`.
    RepeatedMember,

    /// An alternative without terms beside others: what stands after the bar of `a|`.
    EmptyAlternative,

    /// An alternative that an earlier one of its disjunction is equal to: the last of `a|b|a`.
    RepeatedAlternative,

    /// A group whose name no named reference has: `(?<y>a)`.
    UnusedName,

    /// A quantifier that repeats once: `a{1}`.
    UselessQuantifier,
}

/// A rule, and the span of the node that it holds of.
#[derive(Clone, Copy, Debug, PartialEq, Eq)]
pub struct Finding {
    /// What is found.
    pub rule: Rule,

    /// The span of the node that it is found at, in bytes of the source.
    pub span: Span,
}
