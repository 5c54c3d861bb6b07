//! The line that a `show` adds to the reply.
ghost use Rattle.std.specs.Prelude.{◌≡◌, ◌+◌, ◌<◌, length, nat_le, MatchResult};
ghost use Rattle.refusal.specs.declared.refusals.Refusal.TheVariants.{BufferTooShort};
ghost use Rattle.loop_file.specs.Closing.{Wrote};
ghost use Rattle.loop_file.specs.Shown.{shown, numbered};

use crate::put::{add, put};
use arrayvec::ArrayVec;
use itoa::Buffer;
use refusal::Refusal;

/// Adds a name and its number to a reply from a place on, and gives the place after them.
pub fn write_shown(reply: &mut [u8], at: usize, name: &[u8], number: i32) -> Result<usize, Refusal>
    ensures { MatchResult result (λ on. Wrote reply.old at (shown name.now number) reply.new on) (λ e. (e ≡ BufferTooShort) × (length reply.old < at + length (shown name.now number)) × (reply.new ≡ reply.old)) }
{
    let end = numbered(number);
    if !has_room(reply.len(), at, name.len(), end.len()) {
        return Err(Refusal::BufferTooShort);
    }
    let on = put(reply, at, name);
    Ok(put(reply, on, end.as_slice()))
}

// Whether `a` bytes and then `b` bytes have room from a place on.
fn has_room(room: usize, at: usize, a: usize, b: usize) -> bool
    ensures { result ≡ nat_le (at + a + b) room }
{
    at <= room && a <= room - at && b <= room - at - a
}

// A space, a number and the end of the line.
fn numbered(number: i32) -> ArrayVec<u8, 13>
    ensures { result.items ≡ numbered number }
{
    let mut end = ArrayVec::new();
    add(&mut end, b" ");
    add(&mut end, Buffer::new().format(number).as_bytes());
    add(&mut end, b"\n");
    end
}
