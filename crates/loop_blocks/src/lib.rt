//! The family of loop blocks: whole numbers.
#![tactic(auto)]

ghost use Rattle.std.specs.Prelude.{◌≡◌};
ghost use Rattle.loop_blocks.specs.Loops.{loops};
ghost use Rattle.loop_blocks.specs.Steady.{LagSettles, RootExact};
ghost use Rattle.loop_blocks.specs.Laws.{kind_law as kinds_kept, at_most_three, late_law};

mod blocks;
mod kinds;
mod lag;
mod leaves;
mod pid;
mod record;
mod signals;
mod whole;

use family::{BlockKind, Counted, Family, Inputs, Params};
use record::Kind;
pub use record::LoopRecord;
use signals::{hear, hear_all};

// A record as it counts.
type Block = Counted<Kind>;

/// The loops. A signal is a whole number from −1,000,000 to 1,000,000; 0 is the signal at rest.
pub struct Loops;

impl Family for Loops {
    type Record = LoopRecord;

    type Signal = i32;

    ghost word = { loops.word };

    ghost exists = { loops.exists };

    ghost bad = { loops.bad };

    ghost fresh = { loops.fresh };

    ghost ports = { loops.ports };

    ghost late = { loops.late };

    ghost takes = { loops.takes };

    ghost fed = { loops.fed };

    ghost unfit = { loops.unfit };

    ghost tuned = { loops.tuned };

    ghost output = { loops.output };

    ghost next = { loops.next };

    ghost number = { loops.number };

    ghost rest = { loops.rest };

    ghost few = { at_most_three };

    ghost lateness = { late_law };

    ghost kind = { kinds_kept };

    fn word(text: &[u8]) -> Option<u8> {
        Kind::named(text).map(Kind::code)
    }

    fn exists(kind: u8) -> bool {
        Kind::of_code(kind).is_some()
    }

    fn bad(kind: u8, params: Params) -> Option<u8> {
        Kind::bad_for(kind, params)
    }

    fn fresh(kind: u8, params: Params) -> LoopRecord {
        Kind::fresh(kind, params)
    }

    fn ports(block: LoopRecord) -> u8 {
        Block::read(block).kind.ports()
    }

    fn late(block: LoopRecord, port: u8) -> bool {
        Block::read(block).kind.late(port)
    }

    fn takes(block: LoopRecord) -> bool {
        Block::read(block).kind.takes()
    }

    fn fed(block: LoopRecord, n: i32) -> LoopRecord {
        Block::read(block).fed(n)
    }

    fn unfit(block: LoopRecord, params: Params) -> Option<u8> {
        Block::read(block).kind.bad(params)
    }

    fn tuned(block: LoopRecord, params: Params) -> LoopRecord {
        Block::read(block).tuned(params)
    }

    fn output(block: LoopRecord, inputs: Inputs<i32>) -> i32
        ensures value { result ≡ loops.output block inputs }
        ensures root { RootExact block inputs result }
    {
        blocks::output(Block::read(block), hear_all(inputs))
    }

    fn next(block: LoopRecord, inputs: Inputs<i32>) -> LoopRecord
        ensures { result ≡ loops.next block inputs }
    {
        blocks::next(Block::read(block), hear_all(inputs))
    }

    fn number(signal: i32) -> i32 {
        hear(signal).n
    }

    fn rest() -> i32 {
        0
    }
}

/// How many scans of a steady input bring a lag's output to its input or one unit below it, for good.
pub fn lag_scans() -> u32
    ensures value { result ≡ 2000000000 }
    ensures settled { LagSettles result }
{
    lag_settles();
    2_000_000_000
}

// The bound of the lag.
#[tactic(auto, using(crate::proofs::Settling::settles))]
fn lag_settles()
    ensures { LagSettles 2000000000 }
{}
