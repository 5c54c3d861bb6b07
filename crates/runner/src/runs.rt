//! A run of a checked file.
ghost use Rattle.std.specs.Prelude.{◌≡◌, true, length};
ghost use Rattle.family.specs.Meaning.{meaning};
ghost use Rattle.passes.specs.Scan.{long};
ghost use Rattle.words.specs.Parts.{lines_of};
ghost use Rattle.diagram.specs.View.{lent};
ghost use Rattle.words.specs.Left.{lines_left};
ghost use Rattle.runner.specs.Reports.{Reported, Worked};

use crate::names::Names;
use crate::obey::obey;
use crate::report::Report;
use diagram::Diagram;
use family::Family;
use loop_file::{CheckedFile, Commands, Stop};
use passes::are_long;
use refusal::Refusal;

/// Runs a checked file on a diagram, line by line, up to the first line that is refused.
pub fn run<F: Family>(
    file: CheckedFile<'_>,
    diagram: &mut Diagram<F>,
    names: &mut Names,
    records: &mut [F::Record],
    signals: &mut [F::Signal],
    reply: &mut [u8],
) -> Report
    ensures { Reported (meaning F.Family) (lines_of file.entry.bytes.now) (lent diagram.old records.old signals.old) names.old reply.old result (lent diagram.new records.new signals.new) names.new reply.new }
{
    if !are_long::<F>(records, signals) {
        return Report {
            written: 0,
            outcome: Err(Stop {
                line: 0,
                refusal: Refusal::RowTooShort,
            }),
        };
    }
    let lines = file.lines();
    follow(
        file.commands(),
        lines,
        diagram,
        names,
        records,
        signals,
        reply,
    )
}

// Runs the lines that are ahead.
fn follow<F: Family>(
    commands: Commands<'_>,
    lines: u32,
    diagram: &mut Diagram<F>,
    names: &mut Names,
    records: &mut [F::Record],
    signals: &mut [F::Signal],
    reply: &mut [u8],
) -> Report
    requires count { lines ≡ length (lines_left commands.lines) }
    requires rows { long records.old signals.old ≡ true }
    ensures { Worked (meaning F.Family) (lines_left commands.entry.lines) (lent diagram.old records.old signals.old) names.old reply.old result (lent diagram.new records.new signals.new) names.new reply.new }
{
    let mut written = 0;
    for (before, command) in commands.enumerate() {
        match obey(command, diagram, names, records, signals, reply, written) {
            Ok(on) => written = on,
            Err(refusal) => {
                let line = before as u32 + 1;
                return Report {
                    written,
                    outcome: Err(Stop { line, refusal }),
                };
            }
        }
    }
    Report {
        written,
        outcome: Ok(lines),
    }
}
