//! Blocks that come and go.
ghost use Rattle.std.specs.Prelude.{◌≡◌, true, not, [], ◌∷◌, ◌++◌, Some, filter, ◌==◌};
ghost use Rattle.family.specs.Meaning.{meaning};
ghost use Rattle.wiring.specs.View.{layout};
ghost use Rattle.slots.specs.Ledger.{free_of};
ghost use Rattle.diagram.specs.Calls.{place as placement, remove as removal};
ghost use Rattle.diagram.specs.Chart.{empty, placing, removing};
ghost use Rattle.diagram.specs.Made.{Made, Drawn, answer};
ghost use Rattle.diagram.specs.View.{chart, lent};

use crate::diagram::Diagram;
use crate::rows::write;
use family::{Family, Params};
use passes::Row;
use refusal::Refusal;
use slots::Slots;
use std::marker::PhantomData;
use wiring::{Shape, Wiring};

impl<F: Family> Diagram<F> {
    /// A diagram with no block and no open scan.
    pub fn fresh() -> Diagram<F>
        ensures chart { chart result ≡ empty }
        ensures order { (layout result.wiring).order ≡ [] }
    {
        Diagram {
            wiring: Wiring::empty(),
            slots: Slots::fresh(),
            scan: None,
            scans: 0,
            family: PhantomData,
        }
    }

    /// Places a block of a kind with its parameters, and gives its handle.
    pub fn place(
        &mut self,
        records: &mut [F::Record],
        signals: &mut [F::Signal],
        kind: u8,
        params: Params,
    ) -> Result<u32, Refusal>
        ensures { Made (meaning F.Family) (placement kind params) (lent self.old records.old signals.old) (answer (λ h. h) result) (lent self.new records.new signals.new) }
    {
        Row::of(records)?;
        Row::of(signals)?;
        let slot = self.check_place(kind, params)?;
        let handle = self.slots.handle(slot);
        let block = F::fresh(kind, params);
        self.put_in(slot, block);
        write(records, slot, block);
        write(signals, slot, F::rest());
        Ok(handle)
    }

    /// Takes a block out, with all wires to it and from it.
    pub fn remove(&mut self, handle: u32) -> Result<(), Refusal>
        ensures { Drawn (meaning F.Family) (removal handle) self.old (answer (λ _. 0) result) self.new }
    {
        let slot = self.check_block(handle)?;
        self.take_out(slot);
        Ok(())
    }

    // Puts a block, with no wires, at the free slot.
    fn put_in(&mut self, slot: u8, block: F::Record)
        requires { free_of (chart self.old).freed (chart self.old).used ≡ Some slot }
        ensures chart { chart self.new ≡ placing (meaning F.Family) block slot (chart self.old) }
        ensures order { (layout self.new.wiring).order ≡ (layout self.old.wiring).order ++ (slot ∷ []) }
    {
        self.wiring = self.wiring.insert(slot, shape_of::<F>(block)).unwrap();
        self.slots.take();
    }

    // Takes the block at a slot out.
    fn take_out(&mut self, slot: u8)
        requires { (chart self.old).placed slot ≡ true }
        ensures chart { chart self.new ≡ removing slot (chart self.old) }
        ensures order { (layout self.new.wiring).order ≡ filter (λ s. not (s == slot)) (layout self.old.wiring).order }
    {
        self.wiring = self.wiring.remove(slot).unwrap();
        self.slots.release(slot);
    }
}

// The ports of a block.
fn shape_of<F: Family>(block: F::Record) -> Shape
    ensures ports { result.ports ≡ (meaning F.Family).ports block }
    ensures late { result.late ≡ (meaning F.Family).late block 0 ∷ ((meaning F.Family).late block 1 ∷ ((meaning F.Family).late block 2 ∷ [])) }
{
    Shape {
        ports: F::ports(block),
        late: [F::late(block, 0), F::late(block, 1), F::late(block, 2)],
    }
}
