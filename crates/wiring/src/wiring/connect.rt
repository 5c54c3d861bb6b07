//! One more wire: its faults, the pass that finds the blocks ahead, and the one that moves them.
ghost use Rattle.std.specs.Prelude.{◌≡◌, ℕ, ◌+◌, ◌<◌, ◌≤◌, true, false, length, replicate, Some, None, OnOk, IfOk, IfErr, Decides, slice_index_or, slice_set};
ghost use Rattle.wiring.specs.Faults.{connect_fault, ClosesRing, ConnectRefused};
ghost use Rattle.wiring.specs.Layout.{is_placed, rank_of};
ghost use Rattle.wiring.specs.Order.{Connected, Descends};
ghost use Rattle.wiring.specs.Pass.{Marks, Ready, marked, redealt, segment};
ghost use Rattle.wiring.specs.Sound.{rank_in};
ghost use Rattle.wiring.specs.View.{layout};

use crate::deal::redeal;
use crate::wiring::{Fault, Wiring};

// Which slots are ahead of a wire, and how many blocks between its ends are not.
#[derive(Clone, Copy)]
pub(crate) struct Reached {
    marks: [bool; 256],
    others: usize,
    ghost few: { others ≤ 256 },
}

impl Wiring {
    /// Feeds a port of the target from the source.
    ///
    /// Where the port is late, or the source stands before the target, the
    /// order stays. Else those ahead, which are the target and the blocks that
    /// direct wires reach from it up to the source, move behind the others.
    pub fn connect(mut self, target: u8, port: u8, source: u8) -> Result<Wiring, Fault>
        ensures ok { IfOk result (λ w. (connect_fault (layout self) target port source ≡ None) × (ClosesRing (layout self) target port source → ⊥) × Connected (layout self) (layout w) target port source) }
        ensures err { IfErr result (λ e. ConnectRefused (layout self) target port source e) }
    {
        self.check_wire(target, port, source)?;
        if !self.descends(target, port, source) {
            self.join(target, port, source);
            return Ok(self);
        }
        let ahead = self.ahead(target, source);
        if ahead.marks[source as usize] {
            return Err(Fault::Ring);
        }
        self.move_and_join(target, port, source, &ahead);
        Ok(self)
    }

    // The first fault of a wire, but for a ring.
    fn check_wire(&self, target: u8, port: u8, source: u8) -> Result<(), Fault>
        ensures ok { OnOk result ((connect_fault (layout self.now) target port source ≡ None) × Ready (layout self.now) target port source) }
        ensures err { IfErr result (λ e. connect_fault (layout self.now) target port source ≡ Some e) }
    {
        if !self.stands(source) {
            return Err(Fault::NoBlock);
        }
        if self.source_of(target, port)?.is_some() {
            return Err(Fault::Wired);
        }
        Ok(())
    }

    // Whether a wire goes into a direct port from a block that does not stand before its target.
    fn descends(&self, target: u8, port: u8, source: u8) -> bool
        requires { Ready (layout self.now) target port source }
        ensures { Decides result (Descends (layout self.now) target port source) }
    {
        let late = self.block(target).late[port as usize];
        !late && self.rank_at(target) <= self.rank_at(source)
    }

    // One more wire, where the order can stay.
    fn join(&mut self, target: u8, port: u8, source: u8)
        requires ready { Ready (layout self.old) target port source }
        requires up { Descends (layout self.old) target port source → ⊥ }
        ensures connected { Connected (layout self.old) (layout self.new) target port source }
        ensures free { ClosesRing (layout self.old) target port source → ⊥ }
    {
        self.feed(target, port, Some(source));
    }

    // The slots ahead of a wire from the source to the target.
    fn ahead(&self, target: u8, source: u8) -> Reached
        requires target { is_placed (layout self.now) target ≡ true }
        requires source { is_placed (layout self.now) source ≡ true }
        requires down { rank_of (layout self.now) target ≤ rank_of (layout self.now) source }
        ensures marks { Marks (layout self.now) (rank_in self.now.rank) target (rank_of (layout self.now) source + 1) result.marks }
        ensures others { result.others ≡ length (marked result.marks false (segment self.now.order (rank_of (layout self.now) target) (rank_of (layout self.now) source + 1))) }
        ensures ring { (p : ℕ) → Ready (layout self.now) target p source → (layout self.now).late target p ≡ false → slice_index_or result.marks source false ≡ true → ClosesRing (layout self.now) target p source }
    {
        let from = self.rank_at(target) as usize;
        let to = self.rank_at(source) as usize + 1;
        let mut marks = [false; 256];
        marks[target as usize] = true;
        self.pass(target, marks, from + 1, to)
    }

    // One pass up the ranks, which marks each block that a marked one feeds directly, and counts the others.
    fn pass(&self, target: u8, mut marks: [bool; 256], from: usize, to: usize) -> Reached
        requires target { is_placed (layout self.now) target ≡ true }
        requires from { from ≡ rank_of (layout self.now) target + 1 }
        requires ends { (from ≤ to) × (to ≤ self.now.count) }
        requires marks { marks ≡ slice_set (replicate 256 false) target true }
        ensures marks { Marks (layout self.now) (rank_in self.now.rank) target to result.marks }
        ensures others { result.others ≡ length (marked result.marks false (segment self.now.order (rank_of (layout self.now) target) to)) }
    {
        let mut others = 0;
        for &slot in &self.order[from..to] {
            let slot = slot as usize;
            if self.slots[slot].fed(&marks) {
                marks[slot] = true;
            } else {
                others += 1;
            }
        }
        Reached { marks, others }
    }

    // One more wire, after those ahead have moved behind the others.
    fn move_and_join(&mut self, target: u8, port: u8, source: u8, ahead: &Reached)
        requires ready { Ready (layout self.old) target port source }
        requires down { Descends (layout self.old) target port source }
        requires marks { Marks (layout self.old) (rank_in self.old.rank) target (rank_of (layout self.old) source + 1) ahead.now.marks }
        requires others { ahead.now.others ≡ length (marked ahead.now.marks false (segment self.old.order (rank_of (layout self.old) target) (rank_of (layout self.old) source + 1))) }
        requires free { slice_index_or ahead.now.marks source false ≡ false }
        ensures connected { Connected (layout self.old) (layout self.new) target port source }
        ensures free { ClosesRing (layout self.old) target port source → ⊥ }
    {
        self.reorder(target, source, ahead);
        self.feed(target, port, Some(source));
    }

    // Deals the ranks from the target's to the source's out again, first to the blocks that are not ahead.
    fn reorder(&mut self, target: u8, source: u8, ahead: &Reached)
        requires target { is_placed (layout self.old) target ≡ true }
        requires source { is_placed (layout self.old) source ≡ true }
        requires down { rank_of (layout self.old) target ≤ rank_of (layout self.old) source }
        requires marks { Marks (layout self.old) (rank_in self.old.rank) target (rank_of (layout self.old) source + 1) ahead.now.marks }
        requires others { ahead.now.others ≡ length (marked ahead.now.marks false (segment self.old.order (rank_of (layout self.old) target) (rank_of (layout self.old) source + 1))) }
        requires free { slice_index_or ahead.now.marks source false ≡ false }
        ensures order { (layout self.new).order ≡ redealt (layout self.old).order ahead.now.marks (rank_of (layout self.old) target) (rank_of (layout self.old) source + 1) }
        ensures placed { (s : ℕ) → is_placed (layout self.new) s ≡ is_placed (layout self.old) s }
        ensures slots { self.new.slots ≡ self.old.slots }
        ensures up { rank_of (layout self.new) source < rank_of (layout self.new) target }
    {
        let from = self.rank_at(target) as usize;
        let to = self.rank_at(source) as usize + 1;
        let (low, high) = (from, from + ahead.others);
        let Reached { marks, .. } = ahead;
        redeal(&mut self.order, &mut self.rank, marks, from, to, low, high);
    }
}
