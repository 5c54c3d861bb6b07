//! One line of a run.
ghost use Rattle.std.specs.Prelude.{◌≡◌, ◌≤◌, true, length};
ghost use Rattle.family.specs.Meaning.{meaning};
ghost use Rattle.passes.specs.Scan.{long};
ghost use Rattle.diagram.specs.View.{lent};
ghost use Rattle.loop_file.specs.Lines.{order};
ghost use Rattle.runner.specs.Desks.{Short};
ghost use Rattle.runner.specs.Runs.{Obeyed};

use crate::lines::{block, cut, feed, remove, show, tune, wire};
use crate::names::Names;
use crate::scans::scan;
use diagram::Diagram;
use family::Family;
use loop_file::Command;
use refusal::Refusal;

// Does what a line says. The reply stands up to a place, and what comes back is the place after the line.
pub(crate) fn obey<F: Family>(
    command: Command<'_>,
    diagram: &mut Diagram<F>,
    names: &mut Names,
    records: &mut [F::Record],
    signals: &mut [F::Signal],
    reply: &mut [u8],
    at: usize,
) -> Result<usize, Refusal>
    requires rows { long records.old signals.old ≡ true }
    requires at { at ≤ length reply.old }
    requires short { Short (order command) }
    ensures { Obeyed (meaning F.Family) (order command.entry) (lent diagram.old records.old signals.old) names.old reply.old at result (lent diagram.new records.new signals.new) names.new reply.new }
{
    match command {
        Command::Nothing => Ok(at),
        Command::Block { name, kind, params } => {
            block(diagram, names, records, signals, name, kind, params).map(|_| at)
        }
        Command::Wire {
            target,
            port,
            source,
        } => wire(diagram, names, target, port, source).map(|()| at),
        Command::Cut { target, port } => cut(diagram, names, target, port).map(|()| at),
        Command::Drop { name } => remove(diagram, names, name).map(|()| at),
        Command::Tune { name, params } => {
            tune(diagram, names, records, name, params).map(|()| at)
        }
        Command::Feed { name, number } => feed(diagram, names, records, name, number).map(|()| at),
        Command::Scan { times } => scan(diagram, records, signals, times).map(|()| at),
        Command::Show { name } => show(diagram, names, signals, reply, at, name),
    }
}
