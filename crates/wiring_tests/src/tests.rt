use std::process::Abort;
use wiring::{Fault, Shape, Wiring};

// One edit of a wiring.
#[derive(Clone, Copy)]
enum Edit {
    // A block of three direct ports at a slot.
    Place(u8),
    // A block of some shape at a slot.
    PlaceShaped(u8, Shape),
    Remove(u8),
    // Target, port and source.
    Connect(u8, u8, u8),
    // Target and port.
    Disconnect(u8, u8),
}

// The wiring after an edit.
fn edited(wiring: Wiring, edit: Edit) -> Result<Wiring, Fault> {
    match edit {
        Edit::Place(slot) => wiring.insert(
            slot,
            Shape {
                ports: 3,
                late: [false; 3],
            },
        ),
        Edit::PlaceShaped(slot, shape) => wiring.insert(slot, shape),
        Edit::Remove(slot) => wiring.remove(slot),
        Edit::Connect(target, port, source) => wiring.connect(target, port, source),
        Edit::Disconnect(target, port) => wiring.disconnect(target, port),
    }
}

// Makes some edits, each of which has its answer.
fn played(rt: &impl Abort, wiring: &mut Wiring, script: &[(Edit, Option<Fault>)]) {
    for (edit, answer) in script {
        let result = edited(*wiring, *edit);
        assert_eq!(rt; result.err(), *answer);
        *wiring = result.unwrap_or(*wiring);
    }
}

// Plays a beginning and the rest of some edits, and checks the order.
fn plays(
    rt: &impl Abort,
    start: &[(Edit, Option<Fault>)],
    rest: &[(Edit, Option<Fault>)],
    order: &[u8],
) {
    let mut wiring = Wiring::empty();
    played(rt, &mut wiring, start);
    played(rt, &mut wiring, rest);
    assert!(rt; wiring.order() == order);
}

const FIVE: [(Edit, Option<Fault>); 7] = [
    (Edit::Place(0), None),
    (Edit::Place(1), None),
    (Edit::Place(2), None),
    (Edit::Place(3), None),
    (Edit::Place(4), None),
    (Edit::Connect(2, 0, 0), None),
    (Edit::Connect(1, 0, 3), None),
];

#[test]
fn those_ahead_move(rt: HostRuntime) {
    plays(&rt, &FIVE, &[], &[0, 2, 3, 1, 4]);
    plays(
        &rt,
        &FIVE,
        &[(Edit::Connect(0, 1, 4), None)],
        &[3, 1, 4, 0, 2],
    );
    plays(
        &rt,
        &FIVE,
        &[(Edit::Connect(3, 2, 1), Some(Fault::Ring))],
        &[0, 2, 3, 1, 4],
    );
}

#[test]
fn a_late_wire_to_itself(rt: HostRuntime) {
    let late_first = Shape {
        ports: 2,
        late: [true, false, false],
    };
    plays(
        &rt,
        &[(Edit::PlaceShaped(7, late_first), None)],
        &[
            (Edit::Connect(7, 1, 7), Some(Fault::Ring)),
            (Edit::Connect(7, 0, 7), None),
            (Edit::Connect(7, 2, 7), Some(Fault::NoPort)),
        ],
        &[7],
    );
}

const KILN: [(Edit, Option<Fault>); 12] = [
    (Edit::Place(10), None),
    (Edit::Place(20), None),
    (Edit::Place(30), None),
    (
        Edit::PlaceShaped(
            40,
            Shape {
                ports: 2,
                late: [true, false, false],
            },
        ),
        None,
    ),
    (
        Edit::PlaceShaped(
            50,
            Shape {
                ports: 1,
                late: [false; 3],
            },
        ),
        None,
    ),
    // 20 30 10 40 50
    (Edit::Connect(10, 0, 30), None),
    // 30 10 20 40 50
    (Edit::Connect(20, 1, 10), None),
    (Edit::Connect(30, 2, 20), Some(Fault::Ring)),
    (Edit::Connect(40, 0, 50), None),
    // 30 10 20 50 40
    (Edit::Connect(40, 1, 50), None),
    (Edit::Connect(50, 0, 40), Some(Fault::Ring)),
    (Edit::Disconnect(50, 0), Some(Fault::Unwired)),
];

#[test]
fn faults_in_their_order(rt: HostRuntime) {
    let four = Shape {
        ports: 4,
        late: [false; 3],
    };
    plays(
        &rt,
        &KILN,
        &[
            (Edit::PlaceShaped(10, four), Some(Fault::Occupied)),
            (Edit::PlaceShaped(60, four), Some(Fault::TooManyPorts)),
            (Edit::Remove(60), Some(Fault::NoBlock)),
            (Edit::Connect(60, 9, 61), Some(Fault::NoBlock)),
            (Edit::Connect(10, 0, 60), Some(Fault::NoBlock)),
            (Edit::Connect(50, 1, 40), Some(Fault::NoPort)),
            (Edit::Connect(40, 1, 40), Some(Fault::Wired)),
            (Edit::Disconnect(60, 9), Some(Fault::NoBlock)),
            (Edit::Disconnect(50, 1), Some(Fault::NoPort)),
        ],
        &[30, 10, 20, 50, 40],
    );
}

#[test]
fn longer_edits(rt: HostRuntime) {
    plays(
        &rt,
        &KILN,
        &[
            (Edit::Disconnect(40, 1), None),
            // 30 10 20 40 50: the late wire from 50 to 40 does not count
            (Edit::Connect(50, 0, 40), None),
            // 30 20 40 50
            (Edit::Remove(10), None),
            (Edit::Disconnect(20, 1), Some(Fault::Unwired)),
            // 20 30 40 50
            (Edit::Connect(30, 0, 20), None),
            // 20 30 40 50 10
            (Edit::Place(10), None),
            (Edit::Disconnect(10, 0), Some(Fault::Unwired)),
            // 40 50 10 20 30
            (Edit::Connect(20, 0, 10), None),
        ],
        &[40, 50, 10, 20, 30],
    );
}

#[test]
fn what_stands_there(rt: HostRuntime) {
    let mut wiring = Wiring::empty();
    played(&rt, &mut wiring, &KILN);
    assert!(rt; wiring.rank(50) == Some(3) && wiring.rank(60) == None);
    let block = wiring.block(40);
    assert!(rt; block.ports == 2 && block.late[0] && !block.late[1]);
    assert!(rt; block.source == [Some(50), Some(50), None]);
    assert!(rt; wiring.block(60).ports == 0);
}
