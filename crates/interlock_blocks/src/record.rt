//! What an interlock block is kept as.
use family::Params;

/// One entry of the record row. It may hold anything: `Counted` says what it counts as.
#[derive(Clone, Copy, PartialEq, Eq, Debug, Drop)]
pub struct InterlockRecord {
    pub code: u8,
    pub params: Params,
    pub u: i32,
}

// The kinds of interlock blocks, each with its code.
#[derive(Clone, Copy, PartialEq, Eq, Debug, Drop)]
pub(crate) enum Kind {
    In = 1,
    And = 2,
    Or = 3,
    Not = 4,
    Latch = 5,
    Hold = 6,
    Timer = 7,
}
