use crate::shared::judges;
use family::{Family, Inputs, Params};
use loop_blocks::{LoopRecord, Loops};
use std::process::Abort;

const IN: u8 = 1;

const PID: u8 = 2;

const PIDT: u8 = 3;

const LIM: u8 = 4;

const ROOT: u8 = 5;

const LAG: u8 = 6;

const HOLD: u8 = 7;

const LOW: u8 = 8;

const HIGH: u8 = 9;

const SUM: u8 = 10;

const GAIN: u8 = 11;

fn block(code: u8, p: i32, q: i32, r: i32) -> LoopRecord {
    Loops::fresh(code, Params { p, q, r })
}

fn inputs(a: i32, b: i32, c: i32) -> Inputs<i32> {
    Inputs { a, b, c }
}

// A fresh block's outputs, scan by scan, on steady inputs.
fn follows(rt: &impl Abort, mut k: LoopRecord, x: Inputs<i32>, outputs: &[i32]) {
    for y in outputs {
        assert_eq!(rt; Loops::output(k, x), *y);
        k = Loops::next(k, x);
    }
}

#[test]
fn controllers(rt: HostRuntime) {
    follows(
        &rt,
        block(PID, 1000, 100, 0),
        inputs(1000, 0, 0),
        &[1100, 1200],
    );
    follows(&rt, block(PID, 0, 1, 0), inputs(0, 1, 0), &[-1]);
    follows(&rt, block(PID, 0, 0, 500), inputs(0, 10, 0), &[-5, 0]);
    follows(
        &rt,
        block(PID, 100_000, 0, 0),
        inputs(1_000_000, -1_000_000, 0),
        &[1_000_000, 1_000_000],
    );
    follows(
        &rt,
        block(PID, -100_000, 0, 0),
        inputs(1_000_000, -1_000_000, 0),
        &[-1_000_000, -1_000_000],
    );
}

#[test]
fn tracking(rt: HostRuntime) {
    let mut k = block(PIDT, 0, 1000, 0);
    let limit = block(LIM, -100, 100, 0);
    let table = [(500, 500), (500, 600), (-500, -400)];
    for (asked, given) in table {
        let y = Loops::output(k, inputs(asked, 0, 0));
        assert_eq!(rt; y, given);
        let c = Loops::output(limit, inputs(y, 0, 0));
        k = Loops::next(k, inputs(asked, 0, c));
    }
}

#[test]
fn memories(rt: HostRuntime) {
    follows(&rt, block(LAG, 500, 0, 0), inputs(3, 0, 0), &[0, 1, 2, 2]);
    follows(&rt, block(LAG, 1000, 0, 0), inputs(-7, 0, 0), &[0, -7, -7]);
    follows(&rt, block(HOLD, 5, 0, 0), inputs(9, 0, 0), &[5, 9, 9]);
    follows(&rt, block(IN, -4, 0, 0), inputs(9, 9, 9), &[-4, -4]);
}

#[test]
fn roots(rt: HostRuntime) {
    let table = [
        (0, 0),
        (1, 1000),
        (2, 1414),
        (999_999, 999_999),
        (1_000_000, 1_000_000),
        (-1, 0),
        (1_000_001, 0),
    ];
    for (a, y) in table {
        assert_eq!(rt; Loops::output(block(ROOT, 0, 0, 0), inputs(a, 0, 0)), y);
    }
}

#[test]
fn outputs(rt: HostRuntime) {
    let table = [
        (block(LIM, -5, 5, 0), -6, 0, 0, -5),
        (block(LIM, -5, 5, 0), 6, 0, 0, 5),
        (block(LIM, -5, 5, 0), 4, 0, 0, 4),
        (block(LOW, 0, 0, 0), 3, -2, 0, -2),
        (block(HIGH, 0, 0, 0), 3, -2, 0, 3),
        (block(SUM, 0, 0, 0), 3, 4, 9, -2),
        (block(SUM, 0, 0, 0), 900_000, 900_000, 0, 1_000_000),
        (block(GAIN, 500, 0, 0), -3, 0, 0, -2),
        (block(GAIN, 100_000, 0, 0), 1_000_000, 0, 0, 1_000_000),
    ];
    for (k, a, b, c, y) in table {
        assert_eq!(rt; Loops::output(k, inputs(a, b, c)), y);
    }
}

#[test]
fn parameters(rt: HostRuntime) {
    let table = [
        (IN, 1_000_000, 0, 0, None),
        (IN, 1_000_001, 1, 1, Some(0)),
        (IN, 0, 1, 1, Some(1)),
        (IN, 0, 0, 1, Some(2)),
        (PID, -100_000, 100_000, -100_000, None),
        (PID, 100_001, 100_001, 0, Some(0)),
        (PID, 0, -100_001, 100_001, Some(1)),
        (PIDT, 0, 0, 100_001, Some(2)),
        (LIM, -1_000_000, 1_000_000, 0, None),
        (LIM, 1_000_001, 0, 0, Some(0)),
        (LIM, 0, 1_000_001, 0, Some(1)),
        (LIM, 1, 0, 1, Some(1)),
        (LIM, 1, 1, 1, Some(2)),
        (ROOT, 1, 0, 0, Some(0)),
        (LAG, 1, 0, 0, None),
        (LAG, 1000, 0, 0, None),
        (LAG, 0, 0, 0, Some(0)),
        (LAG, 1001, 0, 0, Some(0)),
        (HOLD, -1_000_001, 0, 0, Some(0)),
        (LOW, 0, 1, 0, Some(1)),
        (HIGH, 0, 0, 1, Some(2)),
        (SUM, -1, 0, 0, Some(0)),
        (GAIN, 100_000, 0, 0, None),
        (GAIN, 100_001, 0, 0, Some(0)),
    ];
    judges::<Loops>(&rt, &table);
}

#[test]
fn strays(rt: HostRuntime) {
    let lag = block(LAG, 500, 0, 0);
    let table = [
        block(0, 0, 0, 0),
        block(12, 0, 0, 0),
        block(LAG, 0, 0, 0),
        block(LIM, 1, 0, 0),
        LoopRecord {
            u: 1_000_000_001,
            ..lag
        },
        LoopRecord { v: 1, ..lag },
        LoopRecord {
            z: 1,
            ..block(SUM, 0, 0, 0)
        },
    ];
    for k in table {
        assert_eq!(rt; Loops::ports(k), 0);
        assert!(rt; Loops::takes(k));
        assert_eq!(rt; Loops::output(k, inputs(7, 7, 7)), 0);
        assert_eq!(rt; Loops::next(k, inputs(7, 7, 7)), block(IN, 0, 0, 0));
        assert_eq!(rt;
            Loops::fed(k, 2_000_000),
            LoopRecord {
                u: 1_000_000,
                ..block(IN, 0, 0, 0)
            }
        );
    }
}

#[test]
fn tunes(rt: HostRuntime) {
    let k = LoopRecord {
        u: 77,
        ..block(LAG, 500, 0, 0)
    };
    let params = Params { p: 20, q: 0, r: 0 };
    assert_eq!(rt; Loops::unfit(k, params), None);
    assert_eq!(rt; Loops::tuned(k, params), LoopRecord { params, ..k });
    assert_eq!(rt; Loops::unfit(k, Params { p: 0, q: 0, r: 0 }), Some(0));
    assert_eq!(rt; Loops::fed(k, 5), k);
    assert_eq!(rt; Loops::word(b"pidt"), Some(PIDT));
    assert_eq!(rt; Loops::word(b"pi"), None);
    assert_eq!(rt; Loops::number(1_000_001), Loops::rest());
}
