use family::Params;
use loop_file::{Command, command_of};
use std::process::Abort;

// Each line fits.
fn all_fit(rt: &impl Abort, lines: &[&[u8]]) {
    for line in lines {
        assert!(rt; command_of(line).is_some());
    }
}

// No line fits.
fn none_fits(rt: &impl Abort, lines: &[&[u8]]) {
    for line in lines {
        assert!(rt; command_of(line).is_none());
    }
}

#[test]
fn meanings(rt: HostRuntime) {
    assert_eq!(rt; command_of(b""), Some(Command::Nothing));
    assert_eq!(rt; command_of(b"#wire a 0 b"), Some(Command::Nothing));
    assert_eq!(rt;
        command_of(b"block a pid -1 2"),
        Some(Command::Block {
            name: b"a",
            kind: b"pid",
            params: Params { p: -1, q: 2, r: 0 },
        })
    );
    assert_eq!(rt;
        command_of(b"wire t1 2 s1"),
        Some(Command::Wire {
            target: b"t1",
            port: 2,
            source: b"s1",
        })
    );
    assert_eq!(rt;
        command_of(b"cut t 0"),
        Some(Command::Cut {
            target: b"t",
            port: 0,
        })
    );
    assert_eq!(rt; command_of(b"drop a"), Some(Command::Drop { name: b"a" }));
    assert_eq!(rt;
        command_of(b"tune a 1 -2 9999999"),
        Some(Command::Tune {
            name: b"a",
            params: Params {
                p: 1,
                q: -2,
                r: 9_999_999,
            },
        })
    );
    assert_eq!(rt;
        command_of(b"feed a -9999999"),
        Some(Command::Feed {
            name: b"a",
            number: -9_999_999,
        })
    );
    assert_eq!(rt;
        command_of(b"scan 1000"),
        Some(Command::Scan { times: 1000 })
    );
    assert_eq!(rt;
        command_of(b"show show"),
        Some(Command::Show { name: b"show" })
    );
}

#[test]
fn commands(rt: HostRuntime) {
    all_fit(
        &rt,
        &[
            b"block a b",
            b"block a b 0",
            b"block a b 0 0 0",
            b"wire a 0 b",
            b"cut a 1",
            b"scan 1",
        ],
    );
    none_fits(
        &rt,
        &[
            b"block a",
            b"block a b 1 2 3 4",
            b"wire a 3 b",
            b"wire a -1 b",
            b"wire a 00 b",
        ],
    );
    none_fits(
        &rt,
        &[
            b"wire a 0",
            b"wire a 0 b c",
            b"cut a",
            b"cut a 3",
            b"cut a 1 1",
            b"drop",
        ],
    );
    none_fits(
        &rt,
        &[
            b"drop a b",
            b"tune a 1 2",
            b"tune a 1 2 3 4",
            b"feed a",
            b"feed a b",
            b"feed a 1 2",
        ],
    );
    none_fits(
        &rt,
        &[
            b"scan",
            b"scan 0",
            b"scan 1001",
            b"scan -1",
            b"scan 1 1",
            b"show",
            b"show a b",
        ],
    );
    none_fits(&rt, &[b"a", b"shows a", b"sho a", b"Show a", b"SHOW a"]);
}

#[test]
fn names_and_numbers(rt: HostRuntime) {
    all_fit(
        &rt,
        &[
            b"show a",
            b"show z9",
            b"show abcdefghijkl",
            b"feed a 0",
            b"feed a 1234567",
        ],
    );
    none_fits(
        &rt,
        &[
            b"show abcdefghijklm",
            b"show 1a",
            b"show A",
            b"show a-b",
            b"block a 1",
        ],
    );
    none_fits(
        &rt,
        &[
            b"feed a -0",
            b"feed a 00",
            b"feed a 01",
            b"feed a -01",
            b"feed a -",
            b"feed a +1",
        ],
    );
    none_fits(
        &rt,
        &[
            b"feed a 12345678",
            b"feed a -12345678",
            b"feed a 1-",
            b"feed a 1a",
        ],
    );
}

#[test]
fn spaces_and_bytes(rt: HostRuntime) {
    none_fits(
        &rt,
        &[
            b" show a",
            b"show a ",
            b"show  a",
            b" ",
            b" #",
            b"show\ta",
            b"\tshow a",
        ],
    );
    none_fits(
        &rt,
        &[
            b"show a\r",
            b"show a\0",
            b"show \x80",
            b"show a\xff",
            b"\xffshow a",
        ],
    );
    all_fit(&rt, &[b"#  \t\r\0\x80\xff ", &[b'#'; 80]]);
    none_fits(&rt, &[&[b'#'; 81], &[b'a'; 80], &[b' '; 81]]);
}
