//! The diagram and its invariant.
ghost use Rattle.std.specs.Prelude.{◌≡◌, ℕ};
ghost use Rattle.wiring.specs.Layout.{is_placed};
ghost use Rattle.wiring.specs.View.{layout};
ghost use Rattle.slots.specs.View.{ledger};

use slots::Slots;
use std::marker::PhantomData;
use wiring::Wiring;

mod blocks;
mod checks;
mod edits;
mod read;
mod scan;
mod wires;

/// A diagram of blocks of one family: 256 slots, the blocks' wires and their order, and the scan that is open.
/// The blocks' records and signals stand in two rows, which each call that needs them is lent.
#[derive(Drop)]
pub struct Diagram<F> {
    wiring: Wiring,
    slots: Slots,
    scan: Option<u32>,
    scans: u32,
    family: PhantomData<F>,
    ghost agree: { (s : ℕ) → is_placed (layout wiring) s ≡ (ledger slots).placed s },
}
