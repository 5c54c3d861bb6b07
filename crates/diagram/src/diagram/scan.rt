//! The two halves of a scan.
ghost use Rattle.std.specs.Prelude.{◌≡◌, ℕ, true, IfErr};
ghost use Rattle.std.specs.List.{slice_get};
ghost use Rattle.family.specs.Meaning.{meaning};
ghost use Rattle.passes.specs.Rows.{row};
ghost use Rattle.passes.specs.Scan.{long, advanced};
ghost use Rattle.diagram.specs.Calls.{solve as solving, settle as settling};
ghost use Rattle.diagram.specs.Chart.{following, is_scan};
ghost use Rattle.diagram.specs.Made.{Made, answer, settled};
ghost use Rattle.diagram.specs.View.{chart, lent};

use crate::diagram::Diagram;
use crate::token::ScanToken;
use family::Family;
use passes::{Row, are_long};
use refusal::Refusal;

impl<F: Family> Diagram<F> {
    /// Sets the signal of every placed block to its output, by rank, and opens a scan, which the token stands for.
    pub fn solve(
        &mut self,
        records: &[F::Record],
        signals: &mut [F::Signal],
    ) -> Result<ScanToken, Refusal>
        ensures { Made (meaning F.Family) solving (lent self.old records.now signals.old) (answer (λ t. t.number) result) (lent self.new records.now signals.new) }
    {
        Row::of(records)?;
        Row::of(signals)?;
        if self.scan.is_some() {
            return Err(Refusal::DiagramOpen);
        }
        passes::solve::<F>(&self.wiring, records, signals).unwrap();
        let number = next_number(self.scans);
        self.scan = Some(number);
        self.scans = number;
        Ok(ScanToken { number })
    }

    /// Replaces every placed block's record by its next one, and ends the open scan.
    /// The token is spent, or given back with the refusal.
    pub fn settle(
        &mut self,
        records: &mut [F::Record],
        signals: &[F::Signal],
        token: ScanToken,
    ) -> Result<(), (ScanToken, Refusal)>
        ensures made { Made (meaning F.Family) (settling token.number) (lent self.old records.old signals.now) (settled result) (lent self.new records.new signals.now) }
        ensures back { IfErr result (λ e. e.0 ≡ token) }
    {
        if !are_long::<F>(records, signals) {
            return Err((token, Refusal::RowTooShort));
        }
        if !self.is_open_for(token.number) {
            return Err((token, Refusal::WrongScan));
        }
        self.bring_on(records, signals);
        token.spend();
        self.scan = None;
        Ok(())
    }

    // Whether the open scan has this number.
    fn is_open_for(&self, number: u32) -> bool
        ensures { result ≡ is_scan self.now.scan number }
    {
        self.scan == Some(number)
    }

    // The next records of all placed blocks.
    fn bring_on(&self, records: &mut [F::Record], signals: &[F::Signal])
        requires { long records.old signals.now ≡ true }
        ensures { (s : ℕ) → slice_get records.new s ≡ advanced (meaning F.Family) (chart self.now).source (row (meaning F.Family) signals.now) (chart self.now).placed (slice_get records.old) s }
    {
        passes::settle::<F>(&self.wiring, records, signals).unwrap();
    }
}

// The number of the scan after the one of number n.
fn next_number(n: u32) -> u32
    ensures { result ≡ following n }
{
    if n < 1_000_000 { n + 1 } else { 1 }
}
