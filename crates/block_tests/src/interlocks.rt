use crate::shared::judges;
use family::{Family, Inputs, Params};
use interlock_blocks::{InterlockRecord, Interlocks};

const IN: u8 = 1;

const AND: u8 = 2;

const OR: u8 = 3;

const NOT: u8 = 4;

const LATCH: u8 = 5;

const HOLD: u8 = 6;

const TIMER: u8 = 7;

fn block(code: u8, p: i32) -> InterlockRecord {
    Interlocks::fresh(code, Params { p, q: 0, r: 0 })
}

fn inputs(a: bool, b: bool) -> Inputs<bool> {
    Inputs { a, b, c: false }
}

#[test]
fn timers(rt: HostRuntime) {
    let mut k = block(TIMER, 2);
    let table = [
        (true, false),
        (true, false),
        (true, true),
        (true, true),
        (false, false),
        (true, false),
    ];
    for (a, y) in table {
        assert_eq!(rt; Interlocks::output(k, inputs(a, false)), y);
        k = Interlocks::next(k, inputs(a, false));
    }
}

#[test]
fn memories(rt: HostRuntime) {
    let mut k = block(LATCH, 0);
    let table = [
        (false, false, false),
        (true, false, true),
        (false, false, true),
        (true, true, false),
        (false, false, false),
    ];
    for (a, b, y) in table {
        assert_eq!(rt; Interlocks::output(k, inputs(a, b)), y);
        k = Interlocks::next(k, inputs(a, b));
    }
    let hold = block(HOLD, 1);
    assert!(rt; Interlocks::output(hold, inputs(false, false)));
    assert_eq!(rt;
        Interlocks::next(hold, inputs(false, false)),
        InterlockRecord { u: 0, ..hold }
    );
}

#[test]
fn gates(rt: HostRuntime) {
    let table = [
        (AND, true, true, true),
        (AND, true, false, false),
        (OR, false, true, true),
        (OR, false, false, false),
        (NOT, false, true, true),
        (NOT, true, false, false),
    ];
    for (code, a, b, y) in table {
        assert_eq!(rt; Interlocks::output(block(code, 0), inputs(a, b)), y);
    }
    let k = block(IN, 0);
    assert_eq!(rt; Interlocks::fed(k, -3), InterlockRecord { u: 1, ..k });
    assert_eq!(rt;
        Interlocks::fed(block(IN, 1), 0),
        InterlockRecord {
            u: 0,
            ..block(IN, 1)
        }
    );
}

#[test]
fn parameters(rt: HostRuntime) {
    let table = [
        (IN, 0, 0, 0, None),
        (IN, 1, 0, 0, None),
        (IN, 2, 0, 0, Some(0)),
        (IN, -1, 0, 0, Some(0)),
        (AND, 0, 1, 1, Some(1)),
        (OR, 0, 0, 1, Some(2)),
        (NOT, 1, 0, 0, Some(0)),
        (LATCH, 0, 0, 0, None),
        (HOLD, 2, 0, 0, Some(0)),
        (TIMER, 1, 0, 0, None),
        (TIMER, 1_000_000, 0, 0, None),
        (TIMER, 0, 0, 0, Some(0)),
        (TIMER, 1_000_001, 0, 0, Some(0)),
    ];
    judges::<Interlocks>(&rt, &table);
}

#[test]
fn strays(rt: HostRuntime) {
    let table = [
        block(0, 0),
        block(8, 0),
        block(TIMER, 0),
        InterlockRecord {
            u: 2,
            ..block(LATCH, 0)
        },
        InterlockRecord {
            u: -1,
            ..block(TIMER, 5)
        },
        InterlockRecord {
            u: 1,
            ..block(AND, 0)
        },
    ];
    for k in table {
        assert_eq!(rt; Interlocks::ports(k), 0);
        assert!(rt; Interlocks::takes(k));
        assert!(rt; !Interlocks::output(k, inputs(true, true)));
        assert_eq!(rt; Interlocks::next(k, inputs(true, true)), block(IN, 0));
    }
    let late = InterlockRecord {
        u: 9,
        ..block(TIMER, 5)
    };
    assert_eq!(rt;
        Interlocks::next(late, inputs(true, false)),
        InterlockRecord { u: 5, ..late }
    );
    assert_eq!(rt; Interlocks::word(b"timer"), Some(TIMER));
    assert_eq!(rt; Interlocks::word(b"timers"), None);
}
