//! What each line does: one function to a command.
ghost use Rattle.std.specs.Prelude.{◌≡◌, ℕ, ◌≤◌, true, false, List, length, take, is_some, Some, MatchResult};
ghost use Rattle.family.specs.Meaning.{meaning};
ghost use Rattle.passes.specs.Rows.{row};
ghost use Rattle.diagram.specs.Chart.{names, slot};
ghost use Rattle.diagram.specs.Made.{answer};
ghost use Rattle.diagram.specs.View.{chart, lent};
ghost use Rattle.loop_file.specs.Orders.{block as block_line, wire as wire_line, cut as cut_line, remove as drop_line, tune as tune_line, feed as feed_line};
ghost use Rattle.runner.specs.Book.{found};
ghost use Rattle.runner.specs.Lines.{Tried, NotNamed, Entered, Showed};
ghost use Rattle.runner.specs.Desks.{desk};
ghost use Rattle.runner.specs.View.{book};

use crate::names::Names;
use diagram::Diagram;
use family::{Family, Params};
use loop_file::write_shown;
use refusal::Refusal;

// The handle that a name stands for, where no scan is open.
fn handle_of<F: Family>(diagram: &Diagram<F>, names: &Names, name: &[u8]) -> Result<u32, Refusal>
    ensures { MatchResult result (λ h. (is_some (chart diagram.now).scan ≡ false) × (found (chart diagram.now) (book names.now) name.now ≡ Some h)) (λ e. NotNamed (is_some (chart diagram.now).scan) (found (chart diagram.now) (book names.now) name.now) e) }
{
    if diagram.is_open() {
        return Err(Refusal::DiagramOpen);
    }
    let Some(handle) = names.find(diagram, name) else {
        return Err(Refusal::UnknownName);
    };
    Ok(handle)
}

// A `wire` line.
pub(crate) fn wire<F: Family>(
    diagram: &mut Diagram<F>,
    names: &Names,
    target: &[u8],
    port: u8,
    source: &[u8],
) -> Result<(), Refusal>
    ensures { (records : List F.Record) (signals : List F.Signal) (said : List ℕ) (room : ℕ) → Tried (meaning F.Family) (λ _. 0) (wire_line target.now port source.now) (desk diagram.old records signals names.now said room) result (lent diagram.new records signals) }
{
    let to = handle_of(diagram, names, target)?;
    let Some(from) = names.find(diagram, source) else {
        return Err(Refusal::UnknownName);
    };
    diagram.wire(to, port, from)
}

// A `cut` line.
pub(crate) fn cut<F: Family>(
    diagram: &mut Diagram<F>,
    names: &Names,
    target: &[u8],
    port: u8,
) -> Result<(), Refusal>
    ensures { (records : List F.Record) (signals : List F.Signal) (said : List ℕ) (room : ℕ) → Tried (meaning F.Family) (λ _. 0) (cut_line target.now port) (desk diagram.old records signals names.now said room) result (lent diagram.new records signals) }
{
    let handle = handle_of(diagram, names, target)?;
    diagram.cut(handle, port)
}

// A `drop` line.
pub(crate) fn remove<F: Family>(
    diagram: &mut Diagram<F>,
    names: &Names,
    name: &[u8],
) -> Result<(), Refusal>
    ensures { (records : List F.Record) (signals : List F.Signal) (said : List ℕ) (room : ℕ) → Tried (meaning F.Family) (λ _. 0) (drop_line name.now) (desk diagram.old records signals names.now said room) result (lent diagram.new records signals) }
{
    let handle = handle_of(diagram, names, name)?;
    diagram.remove(handle)
}

// A `tune` line.
pub(crate) fn tune<F: Family>(
    diagram: &Diagram<F>,
    names: &Names,
    records: &mut [F::Record],
    name: &[u8],
    params: Params,
) -> Result<(), Refusal>
    ensures { (signals : List F.Signal) (said : List ℕ) (room : ℕ) → Tried (meaning F.Family) (λ _. 0) (tune_line name.now params.p params.q params.r) (desk diagram.now records.old signals names.now said room) result (lent diagram.now records.new signals) }
{
    let handle = handle_of(diagram, names, name)?;
    diagram.tune(records, handle, params)
}

// A `feed` line.
pub(crate) fn feed<F: Family>(
    diagram: &Diagram<F>,
    names: &Names,
    records: &mut [F::Record],
    name: &[u8],
    number: i32,
) -> Result<(), Refusal>
    ensures { (signals : List F.Signal) (said : List ℕ) (room : ℕ) → Tried (meaning F.Family) (λ _. 0) (feed_line name.now number) (desk diagram.now records.old signals names.now said room) result (lent diagram.now records.new signals) }
{
    let handle = handle_of(diagram, names, name)?;
    diagram.feed(records, handle, number)
}

// A `block` line.
pub(crate) fn block<F: Family>(
    diagram: &mut Diagram<F>,
    names: &mut Names,
    records: &mut [F::Record],
    signals: &mut [F::Signal],
    name: &[u8],
    kind: &[u8],
    params: Params,
) -> Result<u32, Refusal>
    requires { length name.now ≤ 12 }
    ensures tried { (said : List ℕ) (room : ℕ) → Tried (meaning F.Family) (λ h. h) (block_line name.now kind.now params.p params.q params.r) (desk diagram.old records.old signals.old names.old said room) result (lent diagram.new records.new signals.new) }
    ensures entered { Entered name.now (answer (λ h. h) result) names.old names.new }
{
    if diagram.is_open() {
        return Err(Refusal::DiagramOpen);
    }
    if names.find(diagram, name).is_some() {
        return Err(Refusal::NameInUse);
    }
    let code = F::word(kind).ok_or(Refusal::UnknownKind)?;
    let handle = diagram.place(records, signals, code, params)?;
    names.keep(handle, name);
    Ok(handle)
}

// A `show` line: adds to the reply from a place on, and gives the place after it.
pub(crate) fn show<F: Family>(
    diagram: &Diagram<F>,
    names: &Names,
    signals: &[F::Signal],
    reply: &mut [u8],
    at: usize,
    name: &[u8],
) -> Result<usize, Refusal>
    requires signals { 256 ≤ length signals.now }
    requires at { at ≤ length reply.old }
    ensures { (records : List F.Record) → Showed (meaning F.Family) name.now (desk diagram.now records signals.now names.now (take at reply.old) (length reply.old)) reply.old at result reply.new }
{
    let Some(handle) = names.find(diagram, name) else {
        return Err(Refusal::UnknownName);
    };
    write_shown(reply, at, name, number_at(diagram, signals, handle))
}

// The number that a placed block shows.
fn number_at<F: Family>(diagram: &Diagram<F>, signals: &[F::Signal], handle: u32) -> i32
    requires placed { names (chart diagram.now) handle ≡ true }
    requires signals { 256 ≤ length signals.now }
    ensures { result ≡ (meaning F.Family).number (row (meaning F.Family) signals.now (slot handle)) }
{
    diagram.show(signals, handle).unwrap()
}
