//! The two halves of a scan, for any family: signals worked out by rank, and records brought on.
#![tactic(auto)]

ghost use Rattle.std.specs.Prelude.{◌≡◌, ◌<◌, ◌≤◌, true, false, length, None, OnOk, OnErr};
ghost use Rattle.family.specs.Meaning.{meaning};
ghost use Rattle.wiring.specs.View.{layout};
ghost use Rattle.passes.specs.Rows.{row};
ghost use Rattle.passes.specs.Scan.{long, carried, inputs_of, Solves, Settles};

mod row;

use family::{Family, Inputs};
pub use row::{Row, RowTooShort};
use wiring::Wiring;

/// Whether both rows have an entry for each slot.
pub fn are_long<F: Family>(records: &[F::Record], signals: &[F::Signal]) -> bool
    ensures value { result ≡ long records.now signals.now }
    ensures records { result ≡ true → 256 ≤ length records.now }
    ensures signals { result ≡ true → 256 ≤ length signals.now }
{
    (256 <= records.len()) & (256 <= signals.len())
}

/// Sets the signal of every placed block to its output, by rank, each on the signals that stand then.
/// Where a row has fewer than 256 entries nothing is done.
pub fn solve<F: Family>(
    wiring: &Wiring,
    records: &[F::Record],
    signals: &mut [F::Signal],
) -> Result<(), RowTooShort>
    ensures ok { OnOk result ((long records.now signals.old ≡ true) × Solves (meaning F.Family) (layout wiring.now) records.now signals.old signals.new) }
    ensures err { OnErr result ((long records.now signals.old ≡ false) × (signals.new ≡ signals.old)) }
{
    let records = Row::of(records)?;
    Row::of(signals)?;
    sweep::<F>(wiring, &records, signals);
    Ok(())
}

/// Replaces every placed block's record by its next one, on the inputs that the signal row gives.
/// Where a row has fewer than 256 entries nothing is done.
pub fn settle<F: Family>(
    wiring: &Wiring,
    records: &mut [F::Record],
    signals: &[F::Signal],
) -> Result<(), RowTooShort>
    ensures ok { OnOk result ((long records.old signals.now ≡ true) × Settles (meaning F.Family) (layout wiring.now) signals.now records.old records.new) }
    ensures err { OnErr result ((long records.old signals.now ≡ false) × (records.new ≡ records.old)) }
{
    let signals = Row::of(signals)?;
    Row::of(records)?;
    advance::<F>(wiring, records, &signals);
    Ok(())
}

// The signals of all placed blocks, by rank.
fn sweep<F: Family>(wiring: &Wiring, records: &Row<F::Record>, signals: &mut [F::Signal])
    requires { 256 ≤ length signals.old }
    ensures { Solves (meaning F.Family) (layout wiring.now) records.now.entries.now signals.old signals.new }
{
    for &slot in wiring.order() {
        let made = output_at::<F>(wiring, &Row { entries: signals }, slot, records.at(slot));
        signals[slot as usize] = made;
    }
}

// The output of the block at a slot.
fn output_at<F: Family>(
    wiring: &Wiring,
    signals: &Row<F::Signal>,
    slot: u8,
    block: F::Record,
) -> F::Signal
    ensures { result ≡ (meaning F.Family).output block (inputs_of (meaning F.Family) (row (meaning F.Family) signals.now.entries.now) ((layout wiring.now).source slot)) }
{
    F::output(block, inputs_at::<F>(wiring, signals, slot))
}

// The next records of all placed blocks.
fn advance<F: Family>(wiring: &Wiring, records: &mut [F::Record], signals: &Row<F::Signal>)
    requires { 256 ≤ length records.old }
    ensures { Settles (meaning F.Family) (layout wiring.now) signals.now.entries.now records.old records.new }
{
    for &slot in wiring.order() {
        let next = next_at::<F>(wiring, signals, slot, records[slot as usize]);
        records[slot as usize] = next;
    }
}

// The next record of the block at a slot.
fn next_at<F: Family>(
    wiring: &Wiring,
    signals: &Row<F::Signal>,
    slot: u8,
    block: F::Record,
) -> F::Record
    ensures { result ≡ (meaning F.Family).next block (inputs_of (meaning F.Family) (row (meaning F.Family) signals.now.entries.now) ((layout wiring.now).source slot)) }
{
    F::next(block, inputs_at::<F>(wiring, signals, slot))
}

// What the ports of the block at a slot carry.
fn inputs_at<F: Family>(wiring: &Wiring, signals: &Row<F::Signal>, slot: u8) -> Inputs<F::Signal>
    ensures { result ≡ inputs_of (meaning F.Family) (row (meaning F.Family) signals.now.entries.now) ((layout wiring.now).source slot) }
{
    let block = wiring.block(slot);
    Inputs {
        a: carried_from::<F>(signals, block.source[0]),
        b: carried_from::<F>(signals, block.source[1]),
        c: carried_from::<F>(signals, block.source[2]),
    }
}

// What comes from a source.
fn carried_from<F: Family>(signals: &Row<F::Signal>, source: Option<u8>) -> F::Signal
    ensures { result ≡ carried (meaning F.Family) (row (meaning F.Family) signals.now.entries.now) source }
{
    match source {
        Some(slot) => signals.at(slot),
        None => F::rest(),
    }
}
