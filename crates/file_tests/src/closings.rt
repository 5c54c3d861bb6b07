use loop_file::{Stop, close};
use refusal::Refusal;
use std::process::Abort;

// The line goes into the buffer, whose bytes past it stay 7.
fn fills(rt: &impl Abort, outcome: Result<u32, Stop>, buffer: &mut [u8], line: &[u8]) {
    let n = line.len();
    assert_eq!(rt; close(outcome, buffer), Ok(n));
    assert!(rt; n <= buffer.len());
    assert!(rt; &buffer[0..n] == line);
    for byte in &buffer[n..] {
        assert_eq!(rt; *byte, 7);
    }
}

// The line goes into a buffer of its length and into a longer one, and not into one that is a byte shorter.
fn closes(rt: &impl Abort, outcome: Result<u32, Stop>, line: &[u8]) {
    let n = line.len();
    assert!(rt; 0 < n && n < 32);
    let mut short = [7u8; 32];
    assert_eq!(rt;
        close(outcome, &mut short[0..n - 1]),
        Err(Refusal::BufferTooShort)
    );
    assert!(rt; short == [7; 32]);
    let mut exact = [7u8; 32];
    fills(rt, outcome, &mut exact[0..n], line);
    let mut long = [7u8; 32];
    fills(rt, outcome, &mut long, line);
}

#[test]
fn closing_lines(rt: HostRuntime) {
    closes(&rt, Ok(0), b"end 0\n");
    closes(&rt, Ok(16_384), b"end 16384\n");
    closes(&rt, Ok(u32::MAX), b"end 4294967295\n");
    closes(
        &rt,
        Err(Stop {
            line: 0,
            refusal: Refusal::FileTooLong,
        }),
        b"stop 0 1\n",
    );
    closes(
        &rt,
        Err(Stop {
            line: 10,
            refusal: Refusal::BadLine(10),
        }),
        b"stop 10 2\n",
    );
    closes(
        &rt,
        Err(Stop {
            line: u32::MAX,
            refusal: Refusal::BufferTooShort,
        }),
        b"stop 4294967295 17\n",
    );
}

#[test]
fn no_buffer(rt: HostRuntime) {
    assert_eq!(rt; close(Ok(1), &mut []), Err(Refusal::BufferTooShort));
}
