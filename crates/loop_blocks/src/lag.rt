//! The lag.
ghost use Rattle.std.specs.Prelude.{◌≡◌, ◌≤◌, unsigned_abs};
ghost use Rattle.loop_blocks.specs.Lag.{gap, lag_next};
ghost use Rattle.loop_blocks.specs.Ranges.{LagRanges};

use crate::record::LoopRecord;
use crate::whole::{Signal, State, Within, times};

// A lag, by its record.
#[derive(Clone, Copy, Drop)]
pub(crate) struct Lag {
    pub(crate) block: LoopRecord,
    pub(crate) ghost ranges: { LagRanges block },
}

impl Lag {
    // How far the state is from a thousand times the input.
    fn gap(self, a: Signal) -> Within<2_000_000_000>
        ensures { result.n ≡ gap a.n self.block.u }
    {
        Within {
            n: 1000 * a.n - self.block.u,
        }
    }

    // The next state: it does not pass the input, so that it stays a state.
    fn moved(self, a: Signal) -> i64
        ensures value { result ≡ lag_next self.block.params.p a.n self.block.u }
        ensures bound { unsigned_abs result ≤ 1000000000 }
    {
        let p = Within::<1000> {
            n: self.block.params.p,
        };
        i64::from(self.block.u) + times(p, self.gap(a)).thousandth()
    }

    // The next state.
    pub(crate) fn next(self, a: Signal) -> State
        ensures { result.n ≡ lag_next self.block.params.p a.n self.block.u }
    {
        State {
            n: self.moved(a) as i32,
        }
    }
}
