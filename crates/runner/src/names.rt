//! The names of blocks.
ghost use Rattle.std.specs.Prelude.{◌≤◌};

mod calls;

// A name of at most 12 bytes, and a handle.
#[derive(Clone, Copy, Drop)]
pub(crate) struct Entry {
    bytes: [u8; 12],
    size: usize,
    handle: u32,
    ghost short: { size ≤ 12 },
}

/// One name and one handle for each of the 256 slots.
/// A name is in use while its handle names a placed block.
#[derive(Clone, Copy, Drop)]
pub struct Names {
    entries: [Entry; 256],
}
