use crate::Slots;

#[test]
fn handles(rt: HostRuntime) {
    let mut slots = Slots::fresh();
    assert_eq!(rt; slots.take(), Some(0));
    assert_eq!(rt; slots.handle(0), 256);
    assert_eq!(rt; slots.slot(256), Some(0));
    assert!(rt; slots.release(0));
    assert!(rt; !slots.release(0));
    assert_eq!(rt; slots.slot(256), None);
    assert_eq!(rt; slots.take(), Some(0));
    assert_eq!(rt; slots.handle(0), 512);
    assert_eq!(rt; slots.slot(512), Some(0));
    assert_eq!(rt; slots.slot(513), None);
}

#[test]
fn freed_last_first(rt: HostRuntime) {
    let mut slots = Slots::fresh();
    for s in 0..5 {
        assert_eq!(rt; slots.take(), Some(s));
    }
    for s in [1, 3, 0] {
        assert!(rt; slots.release(s));
    }
    for s in [0, 3, 1, 5] {
        assert_eq!(rt; slots.free(), Some(s));
        assert_eq!(rt; slots.take(), Some(s));
    }
}

#[test]
fn all_taken(rt: HostRuntime) {
    let mut slots = Slots::fresh();
    for s in 0..=255u8 {
        assert_eq!(rt; slots.take(), Some(s));
    }
    assert_eq!(rt; slots.free(), None);
    assert_eq!(rt; slots.take(), None);
    assert!(rt; slots.release(77));
    assert_eq!(rt; slots.take(), Some(77));
}

#[test]
fn worn_out(rt: HostRuntime) {
    let mut slots = Slots::fresh();
    for _ in 0..65_534u32 {
        assert_eq!(rt; slots.take(), Some(0));
        assert!(rt; slots.release(0));
    }
    assert_eq!(rt; slots.take(), Some(0));
    assert_eq!(rt; slots.handle(0), 65_535 * 256);
    assert!(rt; slots.release(0));
    assert_eq!(rt; slots.take(), Some(1));
    assert_eq!(rt; slots.handle(1), 257);
}
