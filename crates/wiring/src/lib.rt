//! The wiring under a block diagram of 256 slots: which slots hold a block, in
//! which order the blocks are run, and which block feeds each port.
#![tactic(auto)]

mod block;
mod deal;
mod wiring;

pub use block::{Block, Shape};
pub use wiring::{Fault, Wiring};
