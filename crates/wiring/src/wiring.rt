//! The struct and its invariant.
ghost use Rattle.std.specs.Prelude.{◌≤◌};
ghost use Rattle.wiring.specs.Layout.{layout_of};
ghost use Rattle.wiring.specs.Sound.{live_of, rank_in, Sized, Placed, Ranked, Few, Fits, Heads, Tails, Ascends};

use crate::block::Block;

mod connect;
mod edit;
mod read;

/// Why an edit is refused.
#[derive(Clone, Copy, PartialEq, Eq, Debug)]
pub enum Fault {
    /// A block stands at the slot.
    Occupied,
    /// The block has more than three ports.
    TooManyPorts,
    /// No block stands at the slot.
    NoBlock,
    /// The block has no such port.
    NoPort,
    /// The port is wired.
    Wired,
    /// The port is not wired.
    Unwired,
    /// The wire would close a ring of direct wires.
    Ring,
}

/// The blocks of a diagram in the order in which they are run, and their wires.
/// The source of every direct wire stands before its target.
#[derive(Clone, Copy, Drop)]
pub struct Wiring {
    count: usize,
    order: [u8; 256],
    rank: [Option<u8>; 256],
    slots: [Block; 256],
    ghost room: { count ≤ 256 },
    ghost sized: { Sized order (live_of rank) },
    ghost placed: { Placed count order (rank_in rank) (live_of rank) },
    ghost ranked: { Ranked count order (rank_in rank) (live_of rank) },
    ghost few: { Few (layout_of count order slots) },
    ghost fits: { Fits (layout_of count order slots) },
    ghost heads: { Heads (live_of rank) (layout_of count order slots) },
    ghost tails: { Tails (live_of rank) (layout_of count order slots) },
    ghost ascends: { Ascends (rank_in rank) (layout_of count order slots) },
}
