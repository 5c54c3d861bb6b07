//! What changes one block's record: a tune and a feed.
ghost use Rattle.std.specs.Prelude.{List};
ghost use Rattle.family.specs.Meaning.{meaning};
ghost use Rattle.diagram.specs.Calls.{edit, tune as tuning, feed as feeding};
ghost use Rattle.diagram.specs.Made.{Made, answer};
ghost use Rattle.diagram.specs.View.{lent};

use crate::diagram::Diagram;
use crate::rows::write;
use family::{Family, Params};
use passes::Row;
use refusal::Refusal;

impl<F: Family> Diagram<F> {
    /// Gives a block other parameters.
    pub fn tune(
        &self,
        records: &mut [F::Record],
        handle: u32,
        params: Params,
    ) -> Result<(), Refusal>
        ensures { (signals : List F.Signal) → Made (meaning F.Family) (edit handle (tuning params)) (lent self.now records.old signals) (answer (λ _. 0) result) (lent self.now records.new signals) }
    {
        let row = Row::of(records)?;
        let slot = self.check_block(handle)?;
        let block = row.at(slot);
        if let Some(parameter) = F::unfit(block, params) {
            return Err(Refusal::BadParameter(parameter));
        }
        write(records, slot, F::tuned(block, params));
        Ok(())
    }

    /// Feeds a block a number.
    pub fn feed(&self, records: &mut [F::Record], handle: u32, n: i32) -> Result<(), Refusal>
        ensures { (signals : List F.Signal) → Made (meaning F.Family) (edit handle (feeding n)) (lent self.now records.old signals) (answer (λ _. 0) result) (lent self.now records.new signals) }
    {
        let row = Row::of(records)?;
        let slot = self.check_block(handle)?;
        let block = row.at(slot);
        if !F::takes(block) {
            return Err(Refusal::TakesNoFeed);
        }
        write(records, slot, F::fed(block, n));
        Ok(())
    }
}
