//! What a block does, by its kind.
ghost use Rattle.std.specs.Prelude.{◌≡◌};
ghost use Rattle.loop_blocks.specs.Loops.{output_of, next_of};

use crate::lag::Lag;
use crate::leaves::{gained, root, summed};
use crate::pid::Controller;
use crate::record::{Kind, LoopRecord};
use crate::whole::{Signal, State, Within};
use family::{BlockKind, Counted, Inputs};

// The block's output.
#[tactic(auto, using(crate::specs::Laws::pid_ranges, crate::specs::Laws::lag_ranges, crate::specs::Laws::lim_order))]
pub(crate) fn output(k: Counted<Kind>, x: Inputs<Signal>) -> i32
    ensures { result ≡ output_of k.kind k.block (record { a = x.a.n; b = x.b.n; c = x.c.n }) }
{
    let block = k.block;
    match k.kind {
        Kind::In | Kind::Hold => block.u,
        Kind::Pid => Controller { block }.output(x.a, x.b).n,
        Kind::Pidt => Controller { block }.output(x.a, x.b).n,
        Kind::Lim => x.a.n.clamp(block.params.p, block.params.q),
        Kind::Root => root(x.a),
        Kind::Lag => State { n: block.u }.signal().n,
        Kind::Low => x.a.n.min(x.b.n),
        Kind::High => x.a.n.max(x.b.n),
        Kind::Sum => summed(x.a, x.b, x.c).n,
        Kind::Gain => gained(Within { n: block.params.p }, x.a).n,
    }
}

// The block's next record.
#[tactic(auto, using(crate::specs::Laws::pid_ranges, crate::specs::Laws::lag_ranges))]
pub(crate) fn next(k: Counted<Kind>, x: Inputs<Signal>) -> LoopRecord
    ensures { result ≡ next_of k.kind k.block (record { a = x.a.n; b = x.b.n; c = x.c.n }) }
{
    let block = k.block;
    match k.kind {
        Kind::Pid => Controller { block }.next(x.a, x.b),
        Kind::Pidt => Controller { block }.tracked(x.a, x.b, x.c),
        Kind::Lag => Kind::with_u(block, Lag { block }.next(x.a).n),
        Kind::Hold => Kind::with_u(block, x.a.n),
        _ => block,
    }
}
