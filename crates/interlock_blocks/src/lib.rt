//! The family of interlock blocks: true and false.
#![tactic(auto)]

ghost use Rattle.std.specs.Prelude.{◌≡◌};
ghost use Rattle.interlock_blocks.specs.Interlocks.{interlocks};
ghost use Rattle.interlock_blocks.specs.Laws.{kind_law as kinds_kept, at_most_three, late_law};

mod blocks;
mod kinds;
mod record;

use family::{BlockKind, Counted, Family, Inputs, Params};
pub use record::InterlockRecord;
use record::Kind;

// A record as it counts.
type Block = Counted<Kind>;

/// The interlocks. A signal is true or false; false is the signal at rest.
pub struct Interlocks;

impl Family for Interlocks {
    type Record = InterlockRecord;

    type Signal = bool;

    ghost word = { interlocks.word };

    ghost exists = { interlocks.exists };

    ghost bad = { interlocks.bad };

    ghost fresh = { interlocks.fresh };

    ghost ports = { interlocks.ports };

    ghost late = { interlocks.late };

    ghost takes = { interlocks.takes };

    ghost fed = { interlocks.fed };

    ghost unfit = { interlocks.unfit };

    ghost tuned = { interlocks.tuned };

    ghost output = { interlocks.output };

    ghost next = { interlocks.next };

    ghost number = { interlocks.number };

    ghost rest = { interlocks.rest };

    ghost few = { at_most_three };

    ghost lateness = { late_law };

    ghost kind = { kinds_kept };

    fn word(text: &[u8]) -> Option<u8> {
        Kind::named(text).map(Kind::code)
    }

    fn exists(kind: u8) -> bool {
        Kind::of_code(kind).is_some()
    }

    fn bad(kind: u8, params: Params) -> Option<u8> {
        Kind::bad_for(kind, params)
    }

    fn fresh(kind: u8, params: Params) -> InterlockRecord {
        Kind::fresh(kind, params)
    }

    fn ports(block: InterlockRecord) -> u8 {
        Block::read(block).kind.ports()
    }

    fn late(block: InterlockRecord, port: u8) -> bool {
        Block::read(block).kind.late(port)
    }

    fn takes(block: InterlockRecord) -> bool {
        Block::read(block).kind.takes()
    }

    fn fed(block: InterlockRecord, n: i32) -> InterlockRecord {
        Block::read(block).fed(n)
    }

    fn unfit(block: InterlockRecord, params: Params) -> Option<u8> {
        Block::read(block).kind.bad(params)
    }

    fn tuned(block: InterlockRecord, params: Params) -> InterlockRecord {
        Block::read(block).tuned(params)
    }

    fn output(block: InterlockRecord, inputs: Inputs<bool>) -> bool
        ensures { result ≡ interlocks.output block inputs }
    {
        blocks::output(Block::read(block), inputs)
    }

    fn next(block: InterlockRecord, inputs: Inputs<bool>) -> InterlockRecord
        ensures { result ≡ interlocks.next block inputs }
    {
        blocks::next(Block::read(block), inputs)
    }

    fn number(signal: bool) -> i32 {
        i32::from(signal)
    }

    fn rest() -> bool {
        false
    }
}
