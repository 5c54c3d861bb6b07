//! The table of slots.
ghost use Rattle.std.specs.Prelude.{◌+◌, ◌≤◌};
ghost use Rattle.slots.specs.Tables.{placed_in, emptied_in, trues, Idle, Old, Apart, Unused, Untouched, Young, Spare};

use crate::slot::Slot;

mod calls;

/// 256 slots. A block has a slot and a handle, which is generation × 256 + slot.
/// A slot's generation is one more than how often it was emptied; one emptied 65,535 times is worn out.
#[derive(Clone, Copy, Drop)]
pub struct Slots {
    table: [Slot; 256],
    freed: [u8; 256],
    count: usize,
    used: usize,
    ghost span: { used ≤ 256 },
    ghost tally: { trues (placed_in table) + count ≤ used },
    ghost idle: { Idle (placed_in table) freed count },
    ghost been_used: { Old freed count used },
    ghost apart: { Apart freed count },
    ghost unused: { Unused (placed_in table) used },
    ghost untouched: { Untouched (emptied_in table) used },
    ghost young: { Young (placed_in table) (emptied_in table) },
    ghost spare: { Spare (emptied_in table) freed count },
}
