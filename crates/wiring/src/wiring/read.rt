//! What a diagram reads of its wiring.
ghost use Rattle.std.specs.Prelude.{◌≡◌, ℕ, ◌<◌, ◌≤◌, true, false, take, if◌then◌else◌, Option, Some, None, IfOk, IfErr, slice_index_or};
ghost use Rattle.wiring.specs.Faults.{port_fault};
ghost use Rattle.wiring.specs.Layout.{is_placed, rank_of};
ghost use Rattle.wiring.specs.Lawful.{Lawful};
ghost use Rattle.wiring.specs.View.{layout};

use crate::block::Block;
use crate::wiring::{Fault, Wiring};

impl Wiring {
    /// The slots where a block stands, by rank.
    pub fn order(&self) -> &[u8]
        ensures order { result.now ≡ (layout self.now).order }
        ensures lawful { Lawful (layout self.now) }
    {
        self.ranked_below(self.count)
    }

    /// The rank of the block at a slot, if one stands there.
    #[tactic(auto, using(crate::proofs::Whole::entry_at))]
    pub fn rank(&self, slot: u8) -> Option<u8>
        ensures { result ≡ (if is_placed (layout self.now) slot then Some (rank_of (layout self.now) slot) else None) }
    {
        self.rank[slot as usize]
    }

    /// The block at a slot: one of no ports where none stands there.
    pub fn block(&self, slot: u8) -> Block
        ensures ports { result.ports ≡ (layout self.now).ports slot }
        ensures late { (p : ℕ) → slice_index_or result.late p false ≡ (layout self.now).late slot p }
        ensures source { (p : ℕ) → slice_index_or result.source p None ≡ (layout self.now).source slot p }
    {
        self.slots[slot as usize]
    }

    // The slots of the ranks below `n`.
    fn ranked_below(&self, n: usize) -> &[u8]
        requires { n ≤ self.now.count }
        ensures first { result.now ≡ take n self.now.order }
        ensures lawful { Lawful (layout self.now) }
    {
        &self.order[0..n]
    }

    // The slot that feeds a port of a block that stands, if one does.
    pub(crate) fn source_of(&self, target: u8, port: u8) -> Result<Option<u8>, Fault>
        ensures ok { IfOk result (λ s. (is_placed (layout self.now) target ≡ true) × (port < (layout self.now).ports target) × (s ≡ (layout self.now).source target port)) }
        ensures err { IfErr result (λ e. (later : Option Fault) → port_fault (layout self.now) target port later ≡ Some e) }
    {
        if !self.stands(target) {
            return Err(Fault::NoBlock);
        }
        let block = self.block(target);
        if port >= block.ports {
            return Err(Fault::NoPort);
        }
        Ok(block.source[port as usize])
    }

    // Whether a block stands at a slot.
    pub(crate) fn stands(&self, slot: u8) -> bool
        ensures { result ≡ is_placed (layout self.now) slot }
    {
        self.rank(slot).is_some()
    }

    // The rank of a block that stands.
    pub(crate) fn rank_at(&self, slot: u8) -> u8
        requires { is_placed (layout self.now) slot ≡ true }
        ensures rank { result ≡ rank_of (layout self.now) slot }
        ensures below { result < self.now.count }
    {
        self.rank(slot).unwrap()
    }
}
