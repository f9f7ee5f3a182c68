use rx_ast::{
    BoundaryAssertionKind, CharacterClassEscapeKind, CharacterKind, LookAroundAssertionKind,
    Modifier,
};

/// A term that is one token, but for a reference by name.
#[derive(Clone, Copy)]
pub enum Leaf {
    Boundary(BoundaryAssertionKind),
    Character { kind: CharacterKind, value: u32 },
    Dot,
    ClassEscape(CharacterClassEscapeKind),
    IndexedReference(u32),
}

/// What a group or a look-around begins with.
#[derive(Clone, Copy)]
pub enum OpenerFound {
    /// `(`
    Capturing,
    /// `(?<`, a name and `>`
    Named,
    /// `(?:`
    Ignoring,
    /// `(?`, modifiers and `:`
    Modified {
        enabling: Modifier,
        disabling: Modifier,
    },
    LookAround(LookAroundAssertionKind),
}

/// What is wrong with the modifiers of a group.
#[derive(Clone, Copy)]
pub enum ModifiersFault {
    /// After them stands what is neither a modifier, nor a first `-`, nor `:`.
    Unknown,
    /// A letter is there twice on one side.
    Duplicated,
    /// There is no letter.
    Empty,
    /// A letter is on both sides.
    Invalid,
}

/// Why no token is read. Lengths and places are in units, from the place on.
#[derive(Clone, Copy)]
pub enum Halt {
    /// Terms end here, and no `)` stands here; what cannot be read stands n units on.
    Stop {
        following: usize,
    },
    /// With neither `u` nor `v` a backslash ends the text.
    LastBackslash,
    /// The numbers of the braces of this length are out of order.
    OutOfOrder {
        length: usize,
    },
    /// A number of the braces of this length is above 2^53 - 1.
    TooLarge {
        length: usize,
    },
    /// The digits of a number from `start` on pass 64 bits after n of them.
    TooManyDigits {
        start: usize,
        digits: usize,
    },
    /// The digits of a unicode escape from `start` on pass 32 bits after n of them.
    TooManyHexDigits {
        start: usize,
        digits: usize,
    },
    /// A backslash begins no unicode escape where one has to stand, or in a name it begins the escape of what may not stand there: the span is n
    /// units from `start` on.
    InvalidEscape {
        start: usize,
        length: usize,
    },
    /// After `<`, which is two units on, and n units of characters of a name, neither the name ends nor an escape begins.
    UnterminatedName {
        length: usize,
    },
    /// With neither `u` nor `v` a raw surrogate pair stands in a name that may not stand there, from `start` on.
    MisplacedPair {
        start: usize,
    },
    /// `\k` is a reference, and no `<` follows.
    NoGroupName,
    /// The reference of this length has a number above that of the groups.
    NoSuchGroup {
        length: usize,
    },
    /// Modifiers of this length, after `(?`, may not stand there.
    Modifiers {
        fault: ModifiersFault,
        length: usize,
    },
}

/// What the units begin with. Lengths are in units.
#[derive(Clone, Copy)]
pub enum Found {
    Leaf {
        leaf: Leaf,
        length: usize,
    },
    /// `\k<`, a name and `>`
    NamedReference {
        length: usize,
    },
    /// `\p` or `\P`
    Property,
    /// `[`
    Class,
    Open {
        opener: OpenerFound,
        length: usize,
    },
    Close,
    Bar,
    Quantifier {
        min: u64,
        max: Option<u64>,
        greedy: bool,
        length: usize,
    },
    Halt(Halt),
}
