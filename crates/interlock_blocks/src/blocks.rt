//! What a block does, by its kind.
ghost use Rattle.std.specs.Prelude.{◌≡◌, not, ◌&&◌, ◌||◌, pos, ◌+ℤ◌, ◌≤ℤ◌, if◌then◌else◌};
ghost use Rattle.std.specs.Int.{int_min};
ghost use Rattle.interlock_blocks.specs.Interlocks.{is_on, output_of, next_u, with_u};

use crate::record::{InterlockRecord, Kind};
use family::{BlockKind, Counted, Inputs};

// A state of 0 or 1 as true or false.
fn is_on(u: i32) -> bool
    ensures { result ≡ is_on u }
{
    0 < u
}

// A latch: set by a, held, and reset by b.
fn latched(a: bool, u: i32, b: bool) -> bool
    ensures { result ≡ ((a || is_on u) && not b) }
{
    (a | is_on(u)) & !b
}

// A timer's next count.
fn counted_on(a: bool, p: i32, u: i32) -> i32
    requires { u ≤ℤ pos 1000000 }
    ensures { result ≡ (if a then int_min (u +ℤ pos 1) p else pos 0) }
{
    if a { (u + 1).min(p) } else { 0 }
}

// The block's output.
pub(crate) fn output(k: Counted<Kind>, x: Inputs<bool>) -> bool
    ensures { result ≡ output_of k.kind k.block x }
{
    let block = k.block;
    match k.kind {
        Kind::In | Kind::Hold => is_on(block.u),
        Kind::And => x.a & x.b,
        Kind::Or => x.a | x.b,
        Kind::Not => !x.a,
        Kind::Latch => latched(x.a, block.u, x.b),
        Kind::Timer => x.a & (block.params.p <= block.u),
    }
}

// The block's next record.
pub(crate) fn next(k: Counted<Kind>, x: Inputs<bool>) -> InterlockRecord
    ensures { result ≡ with_u k.block (next_u k.kind k.block x) }
{
    let block = k.block;
    match k.kind {
        Kind::Latch => Kind::with_u(block, i32::from(latched(x.a, block.u, x.b))),
        Kind::Hold => Kind::with_u(block, i32::from(x.a)),
        Kind::Timer => Kind::with_u(block, counted_on(x.a, block.params.p, block.u)),
        _ => block,
    }
}
