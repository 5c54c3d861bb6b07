//! The checks of the calls, in their order.
ghost use Rattle.std.specs.Prelude.{◌≡◌, ◌<◌, ◌≤◌, true, false, is_some, Some, IfOk, IfErr};
ghost use Rattle.refusal.specs.declared.refusals.Refusal.TheVariants.{NoSuchPort};
ghost use Rattle.family.specs.Meaning.{meaning};
ghost use Rattle.slots.specs.Ledger.{free_of};
ghost use Rattle.diagram.specs.Calls.{place as placing, remove as removal, wire as wiring_up, cut as cutting};
ghost use Rattle.diagram.specs.Chart.{slot as slot_of, WireFits};
ghost use Rattle.diagram.specs.Made.{Checked};
ghost use Rattle.diagram.specs.View.{chart};

use crate::diagram::Diagram;
use family::{Family, Params};
use refusal::Refusal;

impl<F: Family> Diagram<F> {
    // The slot of a block that is to be removed, fed or tuned.
    pub(crate) fn check_block(&self, handle: u32) -> Result<u8, Refusal>
        ensures { Checked (meaning F.Family) (removal handle) (chart self.now) (λ s. (s ≡ slot_of handle) × ((chart self.now).placed s ≡ true)) result }
    {
        if self.scan.is_some() {
            return Err(Refusal::DiagramOpen);
        }
        self.slots.slot(handle).ok_or(Refusal::UnknownHandle)
    }

    // The slot of a block with a wire that is to be cut.
    pub(crate) fn check_cut(&self, target: u32, port: u8) -> Result<u8, Refusal>
        ensures { Checked (meaning F.Family) (cutting target port) (chart self.now) (λ t. (t ≡ slot_of target) × ((chart self.now).placed t ≡ true) × (port < (chart self.now).ports t) × (is_some ((chart self.now).source t port) ≡ true)) result }
    {
        let slot = self.check_block(target)?;
        if self.source_at(slot, port)?.is_none() {
            return Err(Refusal::PortUnwired);
        }
        Ok(slot)
    }

    // Whether a wire may be made, unless it closes a ring.
    pub(crate) fn check_wire(&self, target: u32, port: u8, source: u32) -> Result<(), Refusal>
        ensures { Checked (meaning F.Family) (wiring_up target port source) (chart self.now) (λ _. WireFits (chart self.now) (slot_of target) port (slot_of source)) result }
    {
        let slot = self.check_block(target)?;
        if !self.is_placed(source) {
            return Err(Refusal::UnknownHandle);
        }
        if self.source_at(slot, port)?.is_some() {
            return Err(Refusal::PortWired);
        }
        Ok(())
    }

    // What feeds a port, if the block at a slot has that port.
    fn source_at(&self, slot: u8, port: u8) -> Result<Option<u8>, Refusal>
        ensures ok { IfOk result (λ s. (port < (chart self.now).ports slot) × (s ≡ (chart self.now).source slot port)) }
        ensures err { IfErr result (λ e. (e ≡ NoSuchPort) × ((chart self.now).ports slot ≤ port)) }
    {
        let block = self.wiring.block(slot);
        if port >= block.ports {
            return Err(Refusal::NoSuchPort);
        }
        Ok(block.source[port as usize])
    }

    // The slot for a block that is to be placed.
    pub(crate) fn check_place(&self, kind: u8, params: Params) -> Result<u8, Refusal>
        ensures { Checked (meaning F.Family) (placing kind params) (chart self.now) (λ s. free_of (chart self.now).freed (chart self.now).used ≡ Some s) result }
    {
        if self.scan.is_some() {
            return Err(Refusal::DiagramOpen);
        }
        if !F::exists(kind) {
            return Err(Refusal::UnknownKind);
        }
        if let Some(parameter) = F::bad(kind, params) {
            return Err(Refusal::BadParameter(parameter));
        }
        self.slots.free().ok_or(Refusal::NoFreeSlot)
    }
}
