//! What is handed to a family: a block's three parameters and its three inputs.

/// The parameters of a block.
#[derive(Clone, Copy, PartialEq, Eq, Debug, Drop)]
pub struct Params {
    pub p: i32,
    pub q: i32,
    pub r: i32,
}

/// What the ports 0, 1 and 2 of a block carry.
#[derive(Clone, Copy, PartialEq, Eq, Debug, Drop)]
pub struct Inputs<S> {
    pub a: S,
    pub b: S,
    pub c: S,
}
