//! One slot.
ghost use Rattle.std.specs.Prelude.{◌≡◌, ◌+◌, ◌≤◌, false};

// Whether a block stands at the slot, and how often it was emptied.
#[derive(Clone, Copy)]
pub(crate) struct Slot {
    pub(crate) placed: bool,
    pub(crate) emptied: u16,
}

impl Slot {
    // A slot that was never used.
    pub(crate) fn unused() -> Slot
        ensures placed { result.placed ≡ false }
        ensures emptied { result.emptied ≡ 0 }
    {
        Slot {
            placed: false,
            emptied: 0,
        }
    }

    // The generation of the block that stands there, or of the next one.
    pub(crate) fn generation(self) -> u32
        ensures value { result ≡ self.emptied + 1 }
        ensures bound { result ≤ 65536 }
    {
        u32::from(self.emptied) + 1
    }
}
