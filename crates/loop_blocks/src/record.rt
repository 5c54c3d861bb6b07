//! What a loop block is kept as.
use family::Params;

/// One entry of the record row. It may hold anything: `Counted` says what it counts as.
#[derive(Clone, Copy, PartialEq, Eq, Debug, Drop)]
pub struct LoopRecord {
    pub code: u8,
    pub params: Params,
    pub u: i32,
    pub v: i32,
    pub w: i32,
    pub z: i32,
}

// The kinds of loop blocks, each with its code.
#[derive(Clone, Copy, PartialEq, Eq, Debug, Drop)]
pub(crate) enum Kind {
    In = 1,
    Pid = 2,
    Pidt = 3,
    Lim = 4,
    Root = 5,
    Lag = 6,
    Hold = 7,
    Low = 8,
    High = 9,
    Sum = 10,
    Gain = 11,
}

// How large each state of a block can be.
#[derive(Clone, Copy, Drop)]
pub(crate) struct Limits {
    pub(crate) u: u32,
    pub(crate) v: u32,
    pub(crate) w: u32,
    pub(crate) z: u32,
}
