//! One block: its ports, which of them are late, and what feeds each.
ghost use Rattle.std.specs.Prelude.{◌≡◌, ℕ, ◌<◌, ◌≤◌, true, false, length, replicate, if◌then◌else◌, Some, None, Decides, nat_eq, slice_index_or};
ghost use Rattle.wiring.specs.Layout.{ports_at, late_at, source_at};
ghost use Rattle.wiring.specs.Change.{off};
ghost use Rattle.wiring.specs.Pass.{Fed};

/// How many ports a block is to have, and which of them are late.
#[derive(Clone, Copy)]
pub struct Shape {
    pub ports: u8,
    pub late: [bool; 3],
}

/// The block at a slot: its ports, and the slot that feeds each of them.
#[derive(Clone, Copy)]
pub struct Block {
    pub ports: u8,
    pub late: [bool; 3],
    pub source: [Option<u8>; 3],
}

impl Block {
    // A block with no wires.
    pub(crate) fn open(shape: Shape) -> Block
        ensures ports { result.ports ≡ shape.ports }
        ensures late { result.late ≡ shape.late }
        ensures source { result.source ≡ replicate 3 None }
    {
        let Shape { ports, late } = shape;
        let source = [None; 3];
        Block {
            ports,
            late,
            source,
        }
    }

    // What stands for a block where there is none.
    pub(crate) fn none() -> Block
        ensures ports { result.ports ≡ 0 }
        ensures late { result.late ≡ replicate 3 false }
        ensures source { result.source ≡ replicate 3 None }
    {
        Block::open(Shape {
            ports: 0,
            late: [false; 3],
        })
    }

    // Feeds one port from another slot, or from none.
    pub(crate) fn feed(&mut self, port: usize, from: Option<u8>)
        requires { port < 3 }
        ensures ports { self.new.ports ≡ self.old.ports }
        ensures late { self.new.late ≡ self.old.late }
        ensures source { (q : ℕ) → slice_index_or self.new.source q None ≡ (if nat_eq q port then from else slice_index_or self.old.source q None) }
    {
        self.source[port] = from;
    }

    // Whether a direct port is fed from a slot that is marked.
    pub(crate) fn fed(&self, marks: &[bool; 256]) -> bool
        requires { self.now.ports ≤ 3 }
        ensures { Decides result (Fed self.now marks.now) }
    {
        let ports = self.ports as usize;
        self.source[..ports].iter().zip(&self.late[..ports]).any(|(source, late)| !*late
            && source.is_some_and(|s| marks[s as usize]))
    }

    // No port fed from `slot`.
    pub(crate) fn cut(&mut self, slot: u8)
        ensures ports { self.new.ports ≡ self.old.ports }
        ensures late { self.new.late ≡ self.old.late }
        ensures source { (p : ℕ) → slice_index_or self.new.source p None ≡ off slot (slice_index_or self.old.source p None) }
    {
        for source in &mut self.source {
            if *source == Some(slot) {
                *source = None;
            }
        }
    }
}

// No wire from `slot` into any block.
pub(crate) fn cut_off(slots: &mut [Block; 256], slot: u8)
    ensures size { length slots.new ≡ 256 }
    ensures ports { (t : ℕ) → ports_at slots.new t ≡ ports_at slots.old t }
    ensures late { (t p : ℕ) → late_at slots.new t p ≡ late_at slots.old t p }
    ensures source { (t p : ℕ) → source_at slots.new t p ≡ off slot (source_at slots.old t p) }
{
    for block in slots {
        block.cut(slot);
    }
}
