//! The closing line.
ghost use Rattle.std.specs.Prelude.{◌≡◌, ◌<◌, length, Ok, Err, MatchResult};
ghost use Rattle.refusal.specs.declared.refusals.Refusal.TheVariants.{BufferTooShort};
ghost use Rattle.loop_file.specs.Closing.{closing, Wrote};

use crate::put::{add, put};
use crate::stop::Stop;
use arrayvec::ArrayVec;
use itoa::Buffer;
use refusal::Refusal;

/// Writes the closing line at the start of a buffer, and gives its length.
pub fn close(outcome: Result<u32, Stop>, buffer: &mut [u8]) -> Result<usize, Refusal>
    ensures { MatchResult result (λ n. Wrote buffer.old 0 (closing outcome) buffer.new n) (λ e. (e ≡ BufferTooShort) × (length buffer.old < length (closing outcome)) × (buffer.new ≡ buffer.old)) }
{
    let line = closing_line(outcome);
    if line.len() > buffer.len() {
        return Err(Refusal::BufferTooShort);
    }
    Ok(put(buffer, 0, line.as_slice()))
}

// The line.
fn closing_line(outcome: Result<u32, Stop>) -> ArrayVec<u8, 20>
    ensures { result.items ≡ closing outcome }
{
    match outcome {
        Ok(lines) => end_line(lines),
        Err(stop) => stop_line(stop),
    }
}

fn end_line(lines: u32) -> ArrayVec<u8, 20>
    ensures { result.items ≡ closing (Ok lines) }
{
    let mut line = ArrayVec::new();
    add(&mut line, b"end ");
    add(&mut line, Buffer::new().format(lines).as_bytes());
    add(&mut line, b"\n");
    line
}

fn stop_line(stop: Stop) -> ArrayVec<u8, 20>
    ensures { result.items ≡ closing (Err stop) }
{
    let mut line = ArrayVec::new();
    add(&mut line, b"stop ");
    add(&mut line, Buffer::new().format(stop.line).as_bytes());
    add(&mut line, b" ");
    add(
        &mut line,
        Buffer::new().format(stop.refusal.number()).as_bytes(),
    );
    add(&mut line, b"\n");
    line
}
