use loop_file::{CheckedFile, Command};
use refusal::Refusal;

// The number of lines of a file, or its refusal.
fn lines_of(file: &[u8]) -> Result<u32, Refusal> {
    let mut checked = CheckedFile::empty();
    checked.check(file)?;
    Ok(checked.lines())
}

#[test]
fn accepted(rt: HostRuntime) {
    assert_eq!(rt; lines_of(b""), Ok(0));
    assert_eq!(rt; lines_of(b"\n"), Ok(1));
    assert_eq!(rt; lines_of(b"#"), Ok(1));
    assert_eq!(rt; lines_of(b"show a"), Ok(1));
    assert_eq!(rt; lines_of(b"show a\n"), Ok(1));
    assert_eq!(rt; lines_of(b"show a\n\n#\nscan 1"), Ok(4));
    assert_eq!(rt; lines_of(&[b'\n'; 16_384]), Ok(16_384));
}

#[test]
fn refused(rt: HostRuntime) {
    assert_eq!(rt; lines_of(&[b'\n'; 16_385]), Err(Refusal::FileTooLong));
    assert_eq!(rt; lines_of(&[b'#'; 16_385]), Err(Refusal::FileTooLong));
    assert_eq!(rt; lines_of(&[b'#'; 16_384]), Err(Refusal::BadLine(1)));
    assert_eq!(rt; lines_of(b" "), Err(Refusal::BadLine(1)));
    assert_eq!(rt;
        lines_of(b"show a\n\nshow\nscan 0"),
        Err(Refusal::BadLine(3))
    );
    assert_eq!(rt; lines_of(b"show a\r\n"), Err(Refusal::BadLine(1)));
}

#[test]
fn checked_again(rt: HostRuntime) {
    let mut checked = CheckedFile::empty();
    assert_eq!(rt; checked.lines(), 0);
    assert_eq!(rt; checked.check(b"show a\n\nshow b"), Ok(()));
    assert_eq!(rt; checked.check(b"show\n"), Err(Refusal::BadLine(1)));
    assert_eq!(rt; checked.lines(), 3);
    assert_eq!(rt; checked.check(b"show c"), Ok(()));
    assert_eq!(rt; checked.lines(), 1);
    assert_eq!(rt; checked.check(&[0; 16_385]), Err(Refusal::FileTooLong));
    let mut commands = checked.commands();
    assert_eq!(rt; commands.next(), Some(Command::Show { name: b"c" }));
    assert_eq!(rt; commands.next(), None);
}

#[test]
fn line_by_line(rt: HostRuntime) {
    let mut checked = CheckedFile::empty();
    assert_eq!(rt; checked.check(b"show a\n\n# b\nscan 7\n"), Ok(()));
    let mut commands = checked.commands();
    assert_eq!(rt; commands.next(), Some(Command::Show { name: b"a" }));
    assert_eq!(rt; commands.next(), Some(Command::Nothing));
    assert_eq!(rt; commands.next(), Some(Command::Nothing));
    assert_eq!(rt; commands.next(), Some(Command::Scan { times: 7 }));
    assert_eq!(rt; commands.next(), None);
    assert_eq!(rt; commands.next(), None);
}
