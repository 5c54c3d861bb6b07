//! A whole scan of a diagram, and diagrams that are drawn and run by tables of calls.
#![tactic(auto)]

ghost use Rattle.std.specs.Prelude.{◌≡◌, true, Some, None, IfOk, OnErr};
ghost use Rattle.passes.specs.Scan.{long};
ghost use Rattle.diagram.specs.Chart.{following};
ghost use Rattle.diagram.specs.View.{chart};

use diagram::{Diagram, ScanToken};
use family::Family;
use refusal::Refusal;

#[cfg(test)]
mod drawn;
#[cfg(test)]
mod scans;
#[cfg(test)]
mod table;

/// Solves and settles: gives the number of the scan, or why there was none.
pub fn scan_once<F: Family>(
    diagram: &mut Diagram<F>,
    records: &mut [F::Record],
    signals: &mut [F::Signal],
) -> Result<u32, Refusal>
    ensures ok { IfOk result (λ n. (n ≡ following (chart diagram.old).scans) × ((chart diagram.new).scans ≡ n)) }
    ensures err { OnErr result ((chart diagram.new).scans ≡ (chart diagram.old).scans) }
    ensures scan { (chart diagram.new).scan ≡ (chart diagram.old).scan }
{
    let token = open_scan(diagram, records, signals)?;
    let number = token.number();
    diagram.settle(records, signals, token).unwrap();
    Ok(number)
}

// Solves, and says what becomes of the scan.
pub(crate) fn open_scan<F: Family>(
    diagram: &mut Diagram<F>,
    records: &[F::Record],
    signals: &mut [F::Signal],
) -> Result<ScanToken, Refusal>
    ensures ok { IfOk result (λ t. ((chart diagram.old).scan ≡ None) × ((chart diagram.new).scan ≡ Some t.number) × (t.number ≡ following (chart diagram.old).scans) × ((chart diagram.new).scans ≡ t.number) × (long records.now signals.old ≡ true)) }
    ensures err { OnErr result (((chart diagram.new).scan ≡ (chart diagram.old).scan) × ((chart diagram.new).scans ≡ (chart diagram.old).scans)) }
{
    diagram.solve(records, signals)
}
