//! A file is checked and run.
ghost use Rattle.std.specs.Prelude.{◌≡◌};
ghost use Rattle.family.specs.Meaning.{meaning};
ghost use Rattle.diagram.specs.View.{lent};
ghost use Rattle.console.specs.Served.{Served, stopped_by};

use diagram::Diagram;
use family::Family;
use loop_file::{CheckedFile, Stop};
use refusal::{Refusal, Told};
use runner::{Names, Report, run};

/// Checks a file, and runs it where the check accepts it.
pub fn serve<F: Family>(
    file: &[u8],
    diagram: &mut Diagram<F>,
    names: &mut Names,
    records: &mut [F::Record],
    signals: &mut [F::Signal],
    reply: &mut [u8],
) -> Report
    ensures { Served (meaning F.Family) file.now (lent diagram.old records.old signals.old) names.old reply.old result (lent diagram.new records.new signals.new) names.new reply.new }
{
    let mut checked = CheckedFile::empty();
    match checked.check(file) {
        Ok(()) => run(checked, diagram, names, records, signals, reply),
        Err(refusal) => Report {
            written: 0,
            outcome: Err(stopped_by(refusal)),
        },
    }
}

// Where a check stops a file that it refuses.
fn stopped_by(refusal: Refusal) -> Stop
    ensures { result ≡ stopped_by refusal }
{
    match refusal.told() {
        Told::Line(line) => Stop { line, refusal },
        _ => Stop { line: 0, refusal },
    }
}
