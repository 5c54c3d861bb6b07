//! Calls and their answers, in tables.
ghost use Rattle.std.specs.Prelude.{◌≡◌};
ghost use Rattle.diagram.specs.View.{chart};

use crate::scan_once;
use diagram::Diagram;
use family::{Family, Params};
use refusal::Refusal;
use std::process::Abort;
use std::test::Fail;

// One call.
#[derive(Clone, Copy)]
pub(crate) enum Call {
    // A kind and its parameters.
    Place(u8, i32, i32, i32),
    Remove(u32),
    // Target, port and source.
    Wire(u32, u8, u32),
    // Target and port.
    Cut(u32, u8),
    // A block and its parameter p.
    Tune(u32, i32),
    Feed(u32, i32),
    // A solve and a settle.
    Scan,
    Rank(u32),
    Show(u32),
}

// Makes a call. Whether a scan is open, and which, stays.
pub(crate) fn made<F: Family>(
    diagram: &mut Diagram<F>,
    records: &mut [F::Record],
    signals: &mut [F::Signal],
    call: Call,
) -> Result<i64, Refusal>
    ensures { (chart diagram.new).scan ≡ (chart diagram.old).scan }
{
    match call {
        Call::Place(kind, p, q, r) => diagram
            .place(records, signals, kind, Params { p, q, r })
            .map(i64::from),
        Call::Remove(block) => diagram.remove(block).map(|()| 0),
        Call::Wire(target, port, source) => diagram.wire(target, port, source).map(|()| 0),
        Call::Cut(target, port) => diagram.cut(target, port).map(|()| 0),
        Call::Tune(block, p) => diagram
            .tune(records, block, Params { p, q: 0, r: 0 })
            .map(|()| 0),
        Call::Feed(block, n) => diagram.feed(records, block, n).map(|()| 0),
        Call::Scan => scan_once(diagram, records, signals).map(i64::from),
        Call::Rank(block) => diagram.rank(block).map(i64::from),
        Call::Show(block) => diagram.show(signals, block).map(i64::from),
    }
}

// Makes calls, each of which has its answer.
pub(crate) fn plays<F: Family>(
    rt: &impl Abort,
    diagram: &mut Diagram<F>,
    records: &mut [F::Record],
    signals: &mut [F::Signal],
    script: &[(Call, Result<i64, Refusal>)],
) -> Result<(), Fail>
    ensures { (chart diagram.new).scan ≡ (chart diagram.old).scan }
{
    for (call, answer) in script {
        assert_eq!(rt; made(diagram, records, signals, *call), *answer);
    }
    Ok(())
}
