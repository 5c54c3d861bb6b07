//! Blocks that come and go, and wires that are cut.
ghost use Rattle.std.specs.Prelude.{◌≡◌, ℕ, ◌<◌, ◌≤◌, true, false, not, replicate, if◌then◌else◌, Some, None, IfOk, IfErr, filter, ◌==◌, ◌≢◌, nat_eq};
ghost use Rattle.wiring.specs.Change.{Same, nothing, inserted, removed, rewired, off};
ghost use Rattle.wiring.specs.Faults.{insert_fault, remove_fault, disconnect_fault};
ghost use Rattle.wiring.specs.Layout.{is_placed, rank_of, Direct, WireTo};
ghost use Rattle.wiring.specs.Ring.{HasRing};
ghost use Rattle.wiring.specs.View.{layout};

use crate::block::{Block, Shape, cut_off};
use crate::deal::close_up;
use crate::wiring::{Fault, Wiring};

impl Wiring {
    /// A wiring with no block.
    pub fn empty() -> Wiring
        ensures { Same (layout result) nothing }
    {
        Wiring::bare(Block::none())
    }

    /// Places a block with no wires at a slot, at the highest rank.
    pub fn insert(mut self, slot: u8, shape: Shape) -> Result<Wiring, Fault>
        ensures ok { IfOk result (λ w. (insert_fault (layout self) slot shape.ports ≡ None) × Same (layout w) (inserted (layout self) slot shape.ports shape.late)) }
        ensures err { IfErr result (λ e. insert_fault (layout self) slot shape.ports ≡ Some e) }
    {
        if self.stands(slot) {
            return Err(Fault::Occupied);
        }
        if shape.ports > 3 {
            return Err(Fault::TooManyPorts);
        }
        self.append(slot, Block::open(shape));
        Ok(self)
    }

    /// Takes the block at a slot out, with the wires to it and from it.
    /// Those of a higher rank move down by one.
    pub fn remove(mut self, slot: u8) -> Result<Wiring, Fault>
        ensures ok { IfOk result (λ w. (remove_fault (layout self) slot ≡ None) × Same (layout w) (removed (layout self) slot)) }
        ensures err { IfErr result (λ e. remove_fault (layout self) slot ≡ Some e) }
    {
        if !self.stands(slot) {
            return Err(Fault::NoBlock);
        }
        self.clear(slot);
        self.take_out(slot);
        Ok(self)
    }

    /// Cuts the wire into a port. The order stays.
    pub fn disconnect(mut self, target: u8, port: u8) -> Result<Wiring, Fault>
        ensures ok { IfOk result (λ w. (disconnect_fault (layout self) target port ≡ None) × Same (layout w) (rewired (layout self) target port None)) }
        ensures err { IfErr result (λ e. disconnect_fault (layout self) target port ≡ Some e) }
    {
        if self.source_of(target, port)?.is_none() {
            return Err(Fault::Unwired);
        }
        self.feed(target, port, None);
        Ok(self)
    }

    // A wiring with no block, where `none` is what stands for one.
    fn bare(none: Block) -> Wiring
        requires ports { none.ports ≡ 0 }
        requires late { none.late ≡ replicate 3 false }
        requires source { none.source ≡ replicate 3 None }
        ensures { Same (layout result) nothing }
    {
        Wiring {
            count: 0,
            order: [0; 256],
            rank: [None; 256],
            slots: [none; 256],
        }
    }

    // One more block, with no wires, at the highest rank.
    fn append(&mut self, slot: u8, block: Block)
        requires free { is_placed (layout self.old) slot ≡ false }
        requires few { block.ports ≤ 3 }
        requires bare { block.source ≡ replicate 3 None }
        ensures { Same (layout self.new) (inserted (layout self.old) slot block.ports block.late) }
    {
        self.order[self.count] = slot;
        self.rank[slot as usize] = Some(self.count as u8);
        self.slots[slot as usize] = block;
        self.count += 1;
    }

    // No ports for the block at a slot, and no wire from it. The order stays.
    fn clear(&mut self, slot: u8)
        ensures order { (layout self.new).order ≡ (layout self.old).order }
        ensures ports { (t : ℕ) → (layout self.new).ports t ≡ (if nat_eq t slot then 0 else (layout self.old).ports t) }
        ensures late { (t p : ℕ) → (layout self.new).late t p ≡ (if nat_eq t slot then false else (layout self.old).late t p) }
        ensures source { (t p : ℕ) → (layout self.new).source t p ≡ (if nat_eq t slot then None else off slot ((layout self.old).source t p)) }
        ensures bare { (s t : ℕ) → WireTo (layout self.new) s t → (s ≢ slot) × (t ≢ slot) }
    {
        cut_off(&mut self.slots, slot);
        self.slots[slot as usize] = Block::none();
    }

    // Takes a block that has no wires out of the order.
    fn take_out(&mut self, slot: u8)
        requires placed { is_placed (layout self.old) slot ≡ true }
        requires bare { (s t : ℕ) → WireTo (layout self.old) s t → (s ≢ slot) × (t ≢ slot) }
        ensures order { (layout self.new).order ≡ filter (λ t. not (t == slot)) (layout self.old).order }
        ensures ports { (t : ℕ) → (layout self.new).ports t ≡ (layout self.old).ports t }
        ensures late { (t p : ℕ) → (layout self.new).late t p ≡ (layout self.old).late t p }
        ensures source { (t p : ℕ) → (layout self.new).source t p ≡ (layout self.old).source t p }
    {
        let from = self.rank_at(slot) as usize;
        self.count -= 1;
        close_up(&mut self.order, &mut self.rank, from, self.count);
        self.rank[slot as usize] = None;
    }

    // Feeds a port from another slot or from none. The order stays, so a direct wire has to ascend in it.
    pub(crate) fn feed(&mut self, target: u8, port: u8, from: Option<u8>)
        requires target { is_placed (layout self.old) target ≡ true }
        requires port { port < (layout self.old).ports target }
        requires from { (s : ℕ) → from ≡ Some s → (is_placed (layout self.old) s ≡ true) × ((layout self.old).late target port ≡ false → rank_of (layout self.old) s < rank_of (layout self.old) target) }
        ensures same { Same (layout self.new) (rewired (layout self.old) target port from) }
        ensures free { HasRing (Direct (rewired (layout self.old) target port from)) → ⊥ }
    {
        self.slots[target as usize].feed(port as usize, from);
    }
}
