//! Open scans and their tokens.
ghost use Rattle.std.specs.Prelude.{◌≡◌, true, Some, None, OnOk, IfErr};
ghost use Rattle.passes.specs.Scan.{long};
ghost use Rattle.diagram.specs.Chart.{is_scan};
ghost use Rattle.diagram.specs.View.{chart};

use crate::drawn::odd_record;
use crate::table::{Call, plays};
use crate::{open_scan, scan_once};
use diagram::{Diagram, ScanToken};
use family::{Family, Params};
use interlock_blocks::Interlocks;
use loop_blocks::{LoopRecord, Loops};
use refusal::Refusal;
use session::{fresh_interlocks, fresh_loops};
use std::process::Abort;
use std::test::Fail;

// Ends the open scan, whose token this is.
fn ended<F: Family>(
    diagram: &mut Diagram<F>,
    records: &mut [F::Record],
    signals: &[F::Signal],
    token: ScanToken,
)
    requires long { long records.old signals.now ≡ true }
    requires open { (chart diagram.old).scan ≡ Some token.number }
    ensures { (chart diagram.new).scan ≡ None }
{
    diagram.settle(records, signals, token).unwrap();
}

// Settles, and says what becomes of the scan.
fn offered<F: Family>(
    diagram: &mut Diagram<F>,
    records: &mut [F::Record],
    signals: &[F::Signal],
    token: ScanToken,
) -> Result<(), (ScanToken, Refusal)>
    ensures ok { OnOk result (is_scan (chart diagram.old).scan token.number ≡ true) }
    ensures err { IfErr result (λ e. (e.0 ≡ token) × ((chart diagram.new).scan ≡ (chart diagram.old).scan)) }
{
    diagram.settle(records, signals, token)
}

// Solves and settles on two rows, and between the two makes calls on two others.
fn plays_open(
    rt: &impl Abort,
    diagram: &mut Diagram<Loops>,
    records: &mut [LoopRecord],
    signals: &mut [i32],
    script: &[(Call, Result<i64, Refusal>)],
) -> Result<(), Fail> {
    let mut own_records = [odd_record(); 256];
    let mut own_signals = [0; 256];
    let token = open_scan(diagram, &own_records, &mut own_signals)?;
    let played = plays(rt, diagram, records, signals, script);
    ended(diagram, &mut own_records, &own_signals, token);
    played
}

const SHORT: [(Call, Result<i64, Refusal>); 5] = [
    (Call::Place(77, 1, 1, 1), Err(Refusal::RowTooShort)),
    (Call::Tune(9, 2_000_000), Err(Refusal::RowTooShort)),
    (Call::Feed(9, 1), Err(Refusal::RowTooShort)),
    (Call::Scan, Err(Refusal::RowTooShort)),
    (Call::Show(9), Err(Refusal::RowTooShort)),
];

#[test]
fn while_open(rt: HostRuntime) -> Result<(), Fail> {
    let mut diagram = fresh_loops();
    let mut records = [odd_record(); 256];
    let mut signals = [0; 256];
    plays(
        &rt,
        &mut diagram,
        &mut records,
        &mut signals,
        &[(Call::Place(1, 7, 0, 0), Ok(256)), (Call::Scan, Ok(1))],
    )?;
    plays_open(
        &rt,
        &mut diagram,
        &mut records,
        &mut signals,
        &[
            (Call::Place(77, 1, 1, 1), Err(Refusal::DiagramOpen)),
            (Call::Remove(9), Err(Refusal::DiagramOpen)),
            (Call::Wire(9, 9, 9), Err(Refusal::DiagramOpen)),
            (Call::Cut(9, 9), Err(Refusal::DiagramOpen)),
            (Call::Tune(256, 8), Err(Refusal::DiagramOpen)),
            (Call::Feed(9, 1), Err(Refusal::DiagramOpen)),
            (Call::Scan, Err(Refusal::DiagramOpen)),
            (Call::Rank(9), Err(Refusal::UnknownHandle)),
            (Call::Rank(256), Ok(0)),
            (Call::Show(256), Ok(7)),
        ],
    )
}

#[test]
fn short_rows(rt: HostRuntime) -> Result<(), Fail> {
    let mut diagram = fresh_loops();
    let mut none: [LoopRecord; 0] = [];
    let mut few = [odd_record(); 255];
    let mut signals = [0; 255];
    plays(&rt, &mut diagram, &mut none, &mut signals, &SHORT)?;
    plays(&rt, &mut diagram, &mut few, &mut signals, &SHORT)?;
    plays_open(&rt, &mut diagram, &mut few, &mut signals, &SHORT)
}

// A short row is told before a scan that is not open.
#[test]
fn settled_on_short_row(rt: HostRuntime) -> Result<(), Fail> {
    let mut diagram = fresh_loops();
    let mut other = fresh_loops();
    let mut records = [odd_record(); 256];
    let mut few = [odd_record(); 255];
    let mut signals = [0; 256];
    let token = open_scan(&mut diagram, &records, &mut signals)?;
    match offered(&mut other, &mut few, &signals, token) {
        Ok(()) => Err(Fail::new("settled by another")),
        Err((token, shut)) => match offered(&mut diagram, &mut few, &signals, token) {
            Ok(()) => Err(Fail::new("settled")),
            Err((token, open)) => {
                ended(&mut diagram, &mut records, &signals, token);
                assert_eq!(rt; (shut, open), (Refusal::RowTooShort, Refusal::RowTooShort));
                Ok(())
            }
        },
    }
}

// Opens a scan of each of two diagrams: the first refuses the token of the second, with its own scan open and with none.
fn crosses(
    rt: &impl Abort,
    first: &mut Diagram<Loops>,
    second: &mut Diagram<Loops>,
    records: &mut [LoopRecord],
    signals: &mut [i32],
) -> Result<(), Fail> {
    let token = open_scan(first, records, signals)?;
    match open_scan(second, records, signals) {
        Ok(other) => {
            if token.number() == other.number() {
                ended(first, records, signals, token);
                ended(second, records, signals, other);
                return Err(Fail::new("one number"));
            }
            let (other, open) = offered(first, records, signals, other).unwrap_err();
            ended(first, records, signals, token);
            let (other, shut) = offered(first, records, signals, other).unwrap_err();
            ended(second, records, signals, other);
            assert_eq!(rt; (open, shut), (Refusal::WrongScan, Refusal::WrongScan));
            Ok(())
        }
        Err(_) => {
            ended(first, records, signals, token);
            Err(Fail::new("not solved"))
        }
    }
}

#[test]
fn token_of_another(rt: HostRuntime) -> Result<(), Fail> {
    let mut first = fresh_loops();
    let mut second = fresh_loops();
    let mut records = [odd_record(); 256];
    let mut signals = [0; 256];
    assert_eq!(rt; scan_once(&mut second, &mut records, &mut signals), Ok(1));
    crosses(&rt, &mut first, &mut second, &mut records, &mut signals)?;
    assert_eq!(rt; scan_once(&mut first, &mut records, &mut signals), Ok(2));
    assert_eq!(rt; scan_once(&mut second, &mut records, &mut signals), Ok(3));
    Ok(())
}

// Scans as often as there are numbers.
fn counts(
    rt: &impl Abort,
    diagram: &mut Diagram<Loops>,
    records: &mut [LoopRecord],
    signals: &mut [i32],
) {
    for number in 1..=1_000_000u32 {
        assert_eq!(rt; scan_once(diagram, records, signals), Ok(number));
    }
    assert_eq!(rt; scan_once(diagram, records, signals), Ok(1));
}

#[test]
fn numbers_begin_again(rt: HostRuntime) {
    let mut records = [odd_record(); 256];
    let mut signals = [0; 256];
    counts(&rt, &mut fresh_loops(), &mut records, &mut signals);
}

#[test]
fn interlocks(rt: HostRuntime) -> Result<(), Fail> {
    let mut records = [Interlocks::fresh(77, Params { p: 0, q: 0, r: 0 }); 256];
    let mut signals = [true; 256];
    plays(
        &rt,
        &mut fresh_interlocks(),
        &mut records,
        &mut signals,
        &[
            (Call::Place(1, 1, 0, 0), Ok(256)),
            (Call::Place(4, 0, 0, 0), Ok(257)),
            (Call::Place(7, 1, 0, 0), Ok(258)),
            (Call::Wire(257, 0, 256), Ok(0)),
            (Call::Wire(258, 0, 256), Ok(0)),
            (Call::Show(258), Ok(0)),
            (Call::Scan, Ok(1)),
            (Call::Show(256), Ok(1)),
            (Call::Show(257), Ok(0)),
            (Call::Show(258), Ok(0)),
            (Call::Scan, Ok(2)),
            (Call::Show(258), Ok(1)),
            (Call::Feed(256, 0), Ok(0)),
            (Call::Scan, Ok(3)),
            (Call::Show(257), Ok(1)),
            (Call::Show(258), Ok(0)),
        ],
    )
}
