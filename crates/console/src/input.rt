//! Standard input, standard output, and a word to the person at the terminal.
ghost use Rattle.std.specs.Prelude.{◌≤◌, length, IfOk};

use crate::service::serve;
use diagram::Diagram;
use family::Family;
use loop_file::{Stop, close};
use runner::{Names, Report};
use std::io;
use std::io::{Read, Write};

/// Reads a file from standard input, checks and runs it on a diagram, and writes the reply and the closing line to standard output.
/// Why a run stopped goes to standard error, in words.
pub fn answer<F: Family>(
    rt: HostRuntime,
    diagram: &mut Diagram<F>,
    records: &mut [F::Record],
    signals: &mut [F::Signal],
    file: &mut [u8],
    reply: &mut [u8],
) -> io::Result<()> {
    let size = fill(&mut rt.stdin(), file)?;
    let mut names = Names::empty();
    let Report { written, outcome } = serve(
        &file[..size],
        diagram,
        &mut names,
        records,
        signals,
        reply,
    );
    let mut output = rt.stdout();
    output.write_all(&reply[..written])?;
    let mut line = [0u8; 32];
    if let Ok(length) = close(outcome, &mut line) {
        output.write_all(&line[..length])?;
    }
    explain(rt, outcome)
}

// Says why a run stopped.
fn explain(rt: HostRuntime, outcome: Result<u32, Stop>) -> io::Result<()> {
    match outcome {
        Ok(_) => Ok(()),
        Err(stop) => eprintln!(rt; "{stop}"),
    }
}

// Reads to the end of the input, or until the buffer is full.
fn fill<R: Read>(input: &mut R, buffer: &mut [u8]) -> io::Result<usize>
    ensures { IfOk result (λ n. n ≤ length buffer.new) }
{
    let mut size = 0;
    while size < buffer.len() {
        let got = input.read(&mut buffer[size..])?;
        if got == 0 {
            break;
        }
        size += got;
    }
    Ok(size)
}
