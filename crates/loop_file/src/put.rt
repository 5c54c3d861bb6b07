//! Writes into a lent buffer.
ghost use Rattle.std.specs.Prelude.{◌≡◌, ◌+◌, ◌≤◌, ◌++◌, length};
ghost use Rattle.arrayvec.specs.ArrayVec.{array_vec_len};
ghost use Rattle.loop_file.specs.Closing.{Wrote};

use arrayvec::ArrayVec;

// Writes bytes from a place on, and gives the place after them.
pub(crate) fn put(buffer: &mut [u8], at: usize, bytes: &[u8]) -> usize
    requires { at + length bytes.now ≤ length buffer.old }
    ensures { Wrote buffer.old at bytes.now buffer.new result }
{
    let on = at + bytes.len();
    buffer[at..on].copy_from_slice(bytes);
    on
}

// Adds bytes to a line that has room for them.
pub(crate) fn add<const N: usize>(line: &mut ArrayVec<u8, N>, bytes: &[u8])
    requires { array_vec_len line.old + length bytes.now ≤ N }
    ensures items { line.new.items ≡ line.old.items ++ bytes.now }
    ensures len { array_vec_len line.new ≡ array_vec_len line.old + length bytes.now }
{
    line.try_extend_from_slice(bytes).unwrap();
}
