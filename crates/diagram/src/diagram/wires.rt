//! Wires that are made and cut.
ghost use Rattle.std.specs.Prelude.{◌≡◌, ◌<◌, true, is_some, Some, None, OnOk, OnErr};
ghost use Rattle.family.specs.Meaning.{meaning};
ghost use Rattle.wiring.specs.Order.{NewOrder};
ghost use Rattle.wiring.specs.Ring.{HasRing};
ghost use Rattle.wiring.specs.View.{layout};
ghost use Rattle.diagram.specs.Calls.{wire as wiring_up, cut as cutting};
ghost use Rattle.diagram.specs.Chart.{slot, WireFits, sourcing};
ghost use Rattle.diagram.specs.Made.{Drawn, answer};
ghost use Rattle.diagram.specs.View.{chart};
ghost use Rattle.diagram.specs.World.{DirectSlots};

use crate::diagram::Diagram;
use family::Family;
use refusal::Refusal;
use wiring::Fault;

impl<F: Family> Diagram<F> {
    /// Wires a port of the target from the source's output.
    pub fn wire(&mut self, target: u32, port: u8, source: u32) -> Result<(), Refusal>
        ensures { Drawn (meaning F.Family) (wiring_up target port source) self.old (answer (λ _. 0) result) self.new }
    {
        self.check_wire(target, port, source)?;
        self.join(target, port, source)
            .map_err(|_| Refusal::MakesRing)
    }

    /// Cuts the wire into a port.
    pub fn cut(&mut self, target: u32, port: u8) -> Result<(), Refusal>
        ensures { Drawn (meaning F.Family) (cutting target port) self.old (answer (λ _. 0) result) self.new }
    {
        let at = self.check_cut(target, port)?;
        self.part(at, port);
        Ok(())
    }

    // Makes a wire that passes all checks but the ring's.
    fn join(&mut self, target: u32, port: u8, source: u32) -> Result<(), Fault>
        requires { WireFits (chart self.old) (slot target) port (slot source) }
        ensures ok { OnOk result ((chart self.new ≡ sourcing (slot target) port (Some (slot source)) (chart self.old)) × NewOrder (layout self.old.wiring) (slot target) port (slot source) (layout self.new.wiring).order) }
        ensures err { OnErr result ((self.new ≡ self.old) × HasRing (DirectSlots (sourcing (slot target) port (Some (slot source)) (chart self.old)))) }
    {
        let (to, from) = ((target % 256) as u8, (source % 256) as u8);
        let wiring = self.wiring.connect(to, port, from)?;
        self.wiring = wiring;
        Ok(())
    }

    // No wire into a port of a slot.
    fn part(&mut self, at: u8, port: u8)
        requires target { (chart self.old).placed at ≡ true }
        requires port { port < (chart self.old).ports at }
        requires wired { is_some ((chart self.old).source at port) ≡ true }
        ensures chart { chart self.new ≡ sourcing at port None (chart self.old) }
        ensures order { (layout self.new.wiring).order ≡ (layout self.old.wiring).order }
    {
        self.wiring = self.wiring.disconnect(at, port).unwrap();
    }
}
