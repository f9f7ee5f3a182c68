use rx_ast::LookAroundAssertionKind;
use rx_trace::Slot;

/// What goes on where a body ends.
#[derive(Clone, Copy)]
pub enum Pending {
    CloseGroup {
        group: usize,
        start: usize,
        next: usize,
    },
    Next {
        next: usize,
    },
    EndTurn {
        min: u64,
        max: Option<u64>,
        start: usize,
        repeat: usize,
    },
}

/// What waits, and what waits below it: a number of frames, of which it is the last.
#[derive(Clone, Copy)]
pub struct Frame {
    pub pending: Pending,
    pub below: usize,
}

/// What is left for later, with how many frames it may come back to.
#[derive(Clone, Copy)]
pub enum Backtrack {
    /// A step at a place, and then at so many places before it.
    Choice {
        place: usize,
        earlier: usize,
        step: usize,
        head: usize,
        frames: usize,
    },
    Turn {
        place: usize,
        repeat: usize,
        min: u64,
        max: Option<u64>,
        head: usize,
        frames: usize,
    },
    /// A slot, and how many such entries stand in a row that ends here, at most.
    RestoreSlot {
        slot: usize,
        old: Slot,
        frames: usize,
        row: usize,
    },
    LookAround {
        place: usize,
        kind: LookAroundAssertionKind,
        next: usize,
        head: usize,
        frames: usize,
        back: bool,
    },
}

/// A place, and so many places before it.
#[derive(Clone, Copy)]
pub struct Places {
    pub place: usize,
    pub earlier: usize,
}

/// A look-around that is open: where it began, what follows it, and what waits after that.
#[derive(Clone, Copy)]
pub struct OpenLookAround {
    pub place: usize,
    pub kind: LookAroundAssertionKind,
    pub next: usize,
    pub head: usize,
    pub frames: usize,
    pub back: bool,
}
