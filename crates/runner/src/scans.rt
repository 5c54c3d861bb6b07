//! Scans: pairs of solve and settle.
ghost use Rattle.std.specs.Prelude.{◌≡◌, true, false, is_some};
ghost use Rattle.family.specs.Meaning.{meaning};
ghost use Rattle.passes.specs.Scan.{long};
ghost use Rattle.diagram.specs.View.{chart, lent};
ghost use Rattle.runner.specs.Scans.{ScanLine, OneScan};

use diagram::Diagram;
use family::Family;
use refusal::Refusal;

// A `scan` line.
pub(crate) fn scan<F: Family>(
    diagram: &mut Diagram<F>,
    records: &mut [F::Record],
    signals: &mut [F::Signal],
    times: u32,
) -> Result<(), Refusal>
    requires { long records.old signals.old ≡ true }
    ensures { ScanLine (meaning F.Family) (lent diagram.old records.old signals.old) times result (lent diagram.new records.new signals.new) }
{
    if diagram.is_open() {
        return Err(Refusal::DiagramOpen);
    }
    for _n in 0..times {
        scan_once(diagram, records, signals);
    }
    Ok(())
}

// A solve and its settle.
fn scan_once<F: Family>(
    diagram: &mut Diagram<F>,
    records: &mut [F::Record],
    signals: &mut [F::Signal],
)
    requires rows { long records.old signals.old ≡ true }
    requires shut { is_some (chart diagram.old).scan ≡ false }
    ensures scan { OneScan (meaning F.Family) (lent diagram.old records.old signals.old) (lent diagram.new records.new signals.new) }
    ensures shut { is_some (chart diagram.new).scan ≡ false }
{
    let token = diagram.solve(records, signals).unwrap();
    diagram.settle(records, signals, token).unwrap();
}
