//! Loops that are drawn: handles, slots, order and refusals.
use crate::table::{Call, made, plays};
use diagram::Diagram;
use family::{Family, Params};
use loop_blocks::{LoopRecord, Loops};
use refusal::Refusal;
use session::fresh_loops;
use std::process::Abort;
use std::test::Fail;

const IN: Call = Call::Place(1, 7, 0, 0);

const LAG: Call = Call::Place(6, 500, 0, 0);

const SUM: Call = Call::Place(10, 0, 0, 0);

// What no kind of block is kept as.
pub(crate) fn odd_record() -> LoopRecord {
    Loops::fresh(77, Params { p: 1, q: 2, r: 3 })
}

// Makes calls of a fresh diagram.
fn draws(rt: &impl Abort, script: &[(Call, Result<i64, Refusal>)]) -> Result<(), Fail> {
    let mut records = [odd_record(); 256];
    let mut signals = [5_000_000; 256];
    plays(rt, &mut fresh_loops(), &mut records, &mut signals, script)
}

#[test]
fn handles(rt: HostRuntime) -> Result<(), Fail> {
    draws(
        &rt,
        &[
            (IN, Ok(256)),
            (Call::Remove(256), Ok(0)),
            (IN, Ok(512)),
            (Call::Rank(256), Err(Refusal::UnknownHandle)),
            (Call::Show(256), Err(Refusal::UnknownHandle)),
            (SUM, Ok(257)),
            (SUM, Ok(258)),
            (Call::Remove(257), Ok(0)),
            (Call::Remove(512), Ok(0)),
            (Call::Rank(258), Ok(0)),
            (IN, Ok(768)),
            (IN, Ok(513)),
            (IN, Ok(259)),
            (Call::Rank(513), Ok(2)),
        ],
    )
}

// Fills the first slot and empties it until it is worn out.
fn wears_out(
    rt: &impl Abort,
    diagram: &mut Diagram<Loops>,
    records: &mut [LoopRecord],
    signals: &mut [i32],
) {
    for generation in 1..=65_535u32 {
        let handle = generation * 256;
        assert_eq!(rt; made(diagram, records, signals, IN), Ok(i64::from(handle)));
        assert_eq!(rt;
            made(diagram, records, signals, Call::Remove(handle)),
            Ok(0)
        );
    }
}

#[test]
fn worn_out(rt: HostRuntime) -> Result<(), Fail> {
    let mut diagram = fresh_loops();
    let mut records = [odd_record(); 256];
    let mut signals = [0; 256];
    wears_out(&rt, &mut diagram, &mut records, &mut signals);
    plays(
        &rt,
        &mut diagram,
        &mut records,
        &mut signals,
        &[(IN, Ok(257)), (IN, Ok(258)), (Call::Rank(257), Ok(0))],
    )
}

// Fills all slots.
fn fills(
    rt: &impl Abort,
    diagram: &mut Diagram<Loops>,
    records: &mut [LoopRecord],
    signals: &mut [i32],
) {
    for handle in 256..512u32 {
        assert_eq!(rt; made(diagram, records, signals, SUM), Ok(i64::from(handle)));
    }
}

#[test]
fn all_filled(rt: HostRuntime) -> Result<(), Fail> {
    let mut diagram = fresh_loops();
    let mut records = [odd_record(); 256];
    let mut signals = [0; 256];
    fills(&rt, &mut diagram, &mut records, &mut signals);
    plays(
        &rt,
        &mut diagram,
        &mut records,
        &mut signals,
        &[
            (IN, Err(Refusal::NoFreeSlot)),
            (Call::Place(77, 1, 1, 1), Err(Refusal::UnknownKind)),
            (Call::Place(6, 0, 0, 0), Err(Refusal::BadParameter(0))),
            (Call::Rank(511), Ok(255)),
            (Call::Remove(333), Ok(0)),
            (Call::Rank(511), Ok(254)),
            (IN, Ok(589)),
            (Call::Rank(589), Ok(255)),
            (IN, Err(Refusal::NoFreeSlot)),
        ],
    )
}

#[test]
fn order(rt: HostRuntime) -> Result<(), Fail> {
    draws(
        &rt,
        &[
            (SUM, Ok(256)),
            (SUM, Ok(257)),
            (SUM, Ok(258)),
            (SUM, Ok(259)),
            (SUM, Ok(260)),
            (Call::Wire(258, 0, 256), Ok(0)),
            (Call::Wire(257, 0, 259), Ok(0)),
            (Call::Rank(256), Ok(0)),
            (Call::Rank(258), Ok(1)),
            (Call::Rank(259), Ok(2)),
            (Call::Rank(257), Ok(3)),
            (Call::Rank(260), Ok(4)),
            (Call::Wire(259, 0, 257), Err(Refusal::MakesRing)),
            (Call::Wire(259, 0, 259), Err(Refusal::MakesRing)),
            (Call::Wire(256, 0, 260), Ok(0)),
            (Call::Rank(259), Ok(0)),
            (Call::Rank(257), Ok(1)),
            (Call::Rank(260), Ok(2)),
            (Call::Rank(256), Ok(3)),
            (Call::Rank(258), Ok(4)),
            (LAG, Ok(261)),
            (Call::Wire(261, 0, 261), Ok(0)),
            (Call::Cut(257, 0), Ok(0)),
            (Call::Wire(259, 0, 257), Ok(0)),
            (Call::Rank(257), Ok(0)),
        ],
    )
}

#[test]
fn refusals(rt: HostRuntime) -> Result<(), Fail> {
    draws(
        &rt,
        &[
            (Call::Place(0, 1, 1, 1), Err(Refusal::UnknownKind)),
            (Call::Place(10, 0, 1, 1), Err(Refusal::BadParameter(1))),
            (SUM, Ok(256)),
            (IN, Ok(257)),
            (Call::Remove(0), Err(Refusal::UnknownHandle)),
            (Call::Wire(9, 9, 256), Err(Refusal::UnknownHandle)),
            (Call::Wire(256, 9, 512), Err(Refusal::UnknownHandle)),
            (Call::Wire(256, 3, 256), Err(Refusal::NoSuchPort)),
            (Call::Wire(257, 0, 256), Err(Refusal::NoSuchPort)),
            (Call::Wire(256, 0, 257), Ok(0)),
            (Call::Wire(256, 0, 256), Err(Refusal::PortWired)),
            (Call::Wire(256, 1, 256), Err(Refusal::MakesRing)),
            (Call::Cut(513, 9), Err(Refusal::UnknownHandle)),
            (Call::Cut(256, 3), Err(Refusal::NoSuchPort)),
            (Call::Cut(256, 1), Err(Refusal::PortUnwired)),
            (Call::Cut(256, 0), Ok(0)),
            (Call::Cut(256, 0), Err(Refusal::PortUnwired)),
            (Call::Tune(9, 2_000_000), Err(Refusal::UnknownHandle)),
            (Call::Tune(257, 2_000_000), Err(Refusal::BadParameter(0))),
            (Call::Feed(512, 1), Err(Refusal::UnknownHandle)),
            (Call::Feed(256, 1), Err(Refusal::TakesNoFeed)),
        ],
    )
}

// Entries that nobody wrote.
fn untouched(rt: &impl Abort, records: &[LoopRecord], signals: &[i32]) {
    for block in records {
        assert_eq!(rt; *block, odd_record());
    }
    for signal in signals {
        assert_eq!(rt; *signal, 5_000_000);
    }
}

// Tunes and feeds change one record, and a record that is no block's counts as a fresh `in` of p 0.
#[test]
fn neighbours(rt: HostRuntime) -> Result<(), Fail> {
    let mut diagram = fresh_loops();
    let mut records = [odd_record(); 300];
    let mut signals = [5_000_000; 300];
    plays(
        &rt,
        &mut diagram,
        &mut records,
        &mut signals,
        &[
            (IN, Ok(256)),
            (IN, Ok(257)),
            (IN, Ok(258)),
            (Call::Tune(257, 8), Ok(0)),
            (Call::Feed(258, 9), Ok(0)),
        ],
    )?;
    let block = Loops::fresh(1, Params { p: 7, q: 0, r: 0 });
    assert_eq!(rt; records[0], block);
    assert_eq!(rt;
        records[1],
        Loops::tuned(block, Params { p: 8, q: 0, r: 0 })
    );
    assert_eq!(rt; records[2], Loops::fed(block, 9));
    records[0] = odd_record();
    plays(
        &rt,
        &mut diagram,
        &mut records,
        &mut signals,
        &[
            (Call::Scan, Ok(1)),
            (Call::Show(256), Ok(0)),
            (Call::Show(257), Ok(7)),
            (Call::Show(258), Ok(9)),
            (Call::Feed(256, 6), Ok(0)),
            (Call::Scan, Ok(2)),
            (Call::Show(256), Ok(6)),
        ],
    )?;
    signals[1] = 5_000_000;
    assert_eq!(rt;
        made(&mut diagram, &mut records, &mut signals, Call::Show(257)),
        Ok(0)
    );
    untouched(&rt, &records[3..300], &signals[3..300]);
    Ok(())
}
