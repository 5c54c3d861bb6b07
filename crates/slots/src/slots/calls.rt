//! Filling and emptying slots, and reading handles.
ghost use Rattle.std.specs.Prelude.{◌≡◌, ◌+◌, ◌-◌, ◌*◌, ◌%◌, ◌<◌, ◌≤◌, true, false, if◌then◌else◌, Some, None, IfSome, IfNone, MatchBool, slice_index_or};
ghost use Rattle.slots.specs.Ledger.{Same, untouched, handle_at, names, free_of, filled, emptied as vacated};
ghost use Rattle.slots.specs.Tables.{placed_in};
ghost use Rattle.slots.specs.View.{ledger, Loose, Cleared, Pushed};

use crate::slot::Slot;
use crate::slots::Slots;

impl Slots {
    /// 256 slots, none of them used.
    pub fn fresh() -> Slots
        ensures { Same (ledger result) untouched }
    {
        Slots::blank(Slot::unused())
    }

    // 256 slots, each as this one, where no block stands.
    fn blank(slot: Slot) -> Slots
        requires placed { slot.placed ≡ false }
        requires emptied { slot.emptied ≡ 0 }
        ensures { Same (ledger result) untouched }
    {
        Slots {
            table: [slot; 256],
            freed: [0; 256],
            count: 0,
            used: 0,
        }
    }

    /// The handle of the block at a slot.
    pub fn handle(&self, slot: u8) -> u32
        ensures { result ≡ handle_at (ledger self.now) slot }
    {
        self.table[slot as usize].generation() * 256 + u32::from(slot)
    }

    /// The slot of the placed block that a handle names.
    pub fn slot(&self, handle: u32) -> Option<u8>
        ensures { result ≡ (if names (ledger self.now) handle then Some (handle % 256) else None) }
    {
        let slot = (handle % 256) as u8;
        let at = self.table[slot as usize];
        (at.placed && at.generation() == handle / 256).then_some(slot)
    }

    /// The slot that the next block gets.
    pub fn free(&self) -> Option<u8>
        ensures { result ≡ free_of (ledger self.now).freed (ledger self.now).used }
    {
        if self.count > 0 {
            Some(self.top())
        } else if self.used < 256 {
            Some(self.used as u8)
        } else {
            None
        }
    }
}

impl Slots {
    /// Takes the free slot for a block, if there is one.
    pub fn take(&mut self) -> Option<u8>
        ensures slot { result ≡ free_of (ledger self.old).freed (ledger self.old).used }
        ensures some { IfSome result (λ s. Same (ledger self.new) (filled (ledger self.old) s)) }
        ensures none { IfNone result (self.new ≡ self.old) }
    {
        if self.count > 0 {
            Some(self.reuse())
        } else if self.used < 256 {
            Some(self.start())
        } else {
            None
        }
    }

    // The slot freed last.
    fn top(&self) -> u8
        requires { 0 < self.now.count }
        ensures { free_of (ledger self.now).freed (ledger self.now).used ≡ Some result }
    {
        self.freed[self.count - 1]
    }

    // Takes the slot freed last.
    fn reuse(&mut self) -> u8
        requires { 0 < self.old.count }
        ensures slot { free_of (ledger self.old).freed (ledger self.old).used ≡ Some result }
        ensures change { Same (ledger self.new) (filled (ledger self.old) result) }
    {
        self.count -= 1;
        let slot = self.freed[self.count];
        self.table[slot as usize].placed = true;
        slot
    }

    // Takes the lowest slot that was never used.
    fn start(&mut self) -> u8
        requires none { self.old.count ≤ 0 }
        requires room { self.old.used < 256 }
        ensures slot { free_of (ledger self.old).freed (ledger self.old).used ≡ Some result }
        ensures change { Same (ledger self.new) (filled (ledger self.old) result) }
    {
        let slot = self.used;
        self.table[slot].placed = true;
        self.used += 1;
        slot as u8
    }
}

impl Slots {
    /// Empties a slot; false where no block stands there.
    pub fn release(&mut self, slot: u8) -> bool
        ensures was { result ≡ (ledger self.old).placed slot }
        ensures change { MatchBool result (Same (ledger self.new) (vacated (ledger self.old) slot)) (self.new ≡ self.old) }
    {
        if !self.table[slot as usize].placed {
            return false;
        }
        self.vacate(slot);
        true
    }

    // Empties a slot where a block stands, to be used again unless it is worn out.
    fn vacate(&mut self, slot: u8)
        requires { slice_index_or (placed_in self.old.table) slot false ≡ true }
        ensures { Same (ledger self.new) (vacated (ledger self.old) slot) }
    {
        self.clear(slot);
        if self.table[slot as usize].emptied < 65_535 {
            self.push(slot);
        }
    }

    // Takes the block out of a slot, and counts that.
    fn clear(&mut self, slot: u8)
        requires { slice_index_or (placed_in self.old.table) slot false ≡ true }
        ensures { Cleared self.old slot self.new }
    {
        let Slot { emptied, .. } = self.table[slot as usize];
        self.table[slot as usize] = Slot {
            placed: false,
            emptied: emptied + 1,
        };
    }

    // Puts an empty slot on the stack of those to use again.
    fn push(&mut self, slot: u8)
        requires { Loose self.old slot }
        ensures { Pushed self.old slot self.new }
    {
        self.freed[self.count] = slot;
        self.count += 1;
    }
}
