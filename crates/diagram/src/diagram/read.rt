//! What is read of a diagram.
ghost use Rattle.std.specs.Prelude.{◌≡◌, cond, not, [], ◌∷◌, length, is_some, Ok, Err, nat_lt};
ghost use Rattle.family.specs.Meaning.{meaning};
ghost use Rattle.wiring.specs.Layout.{rank_of};
ghost use Rattle.wiring.specs.View.{layout};
ghost use Rattle.passes.specs.Rows.{row};
ghost use Rattle.refusal.specs.declared.refusals.Refusal.TheVariants.{RowTooShort, UnknownHandle};
ghost use Rattle.diagram.specs.Chart.{names, slot, when, first};
ghost use Rattle.diagram.specs.Made.{unless};
ghost use Rattle.diagram.specs.View.{chart};

use crate::diagram::Diagram;
use family::Family;
use passes::Row;
use refusal::Refusal;

impl<F: Family> Diagram<F> {
    /// Whether a scan is open.
    pub fn is_open(&self) -> bool
        ensures { result ≡ is_some (chart self.now).scan }
    {
        self.scan.is_some()
    }

    /// Whether a handle names a placed block.
    pub fn is_placed(&self, handle: u32) -> bool
        ensures { result ≡ names (chart self.now) handle }
    {
        self.slots.slot(handle).is_some()
    }

    /// The rank of a block.
    pub fn rank(&self, handle: u32) -> Result<u8, Refusal>
        ensures { result ≡ unless (first (when (not (names (chart self.now) handle)) UnknownHandle ∷ [])) (rank_of (layout self.now.wiring) (slot handle)) }
    {
        let at = self.slots.slot(handle).ok_or(Refusal::UnknownHandle)?;
        self.wiring.rank(at).ok_or(Refusal::UnknownHandle)
    }

    /// The number of a block's signal.
    pub fn show(&self, signals: &[F::Signal], handle: u32) -> Result<i32, Refusal>
        ensures { result ≡ unless (first (when (nat_lt (length signals.now) 256) RowTooShort ∷ when (not (names (chart self.now) handle)) UnknownHandle ∷ [])) ((meaning F.Family).number (row (meaning F.Family) signals.now (slot handle))) }
    {
        let row = Row::of(signals)?;
        let at = self.slots.slot(handle).ok_or(Refusal::UnknownHandle)?;
        Ok(F::number(row.at(at)))
    }
}
