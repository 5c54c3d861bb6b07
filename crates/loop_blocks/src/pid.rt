//! The controllers, in velocity form.
ghost use Rattle.std.specs.Prelude.{◌≡◌, pos, ◌+ℤ◌, ◌-ℤ◌, ◌*ℤ◌};
ghost use Rattle.loop_blocks.specs.Pid.{error_of, bend_of, moved_of, sum_of, pid_out, shifted, pid_next, pidt_next};
ghost use Rattle.loop_blocks.specs.Ranges.{PidRanges};

use crate::record::LoopRecord;
use crate::whole::{Product, Signal, State, Within, times};
use family::Params;

// A gain in thousandths.
type Gain = Within<100_000>;

// A controller, by its record.
#[derive(Clone, Copy, Drop)]
pub(crate) struct Controller {
    pub(crate) block: LoopRecord,
    pub(crate) ghost ranges: { PidRanges block },
}

// The error.
fn error(a: Signal, b: Signal) -> Within<2_000_000>
    ensures { result.n ≡ error_of a.n b.n }
{
    Within { n: a.n - b.n }
}

// The sum of the state and the three terms.
fn total(u: i32, x: Product, y: Product, d: Product) -> i64
    ensures { result ≡ u +ℤ x.n +ℤ y.n -ℤ d.n }
{
    i64::from(u) + x.n + y.n - d.n
}

// The state s, moved by a thousand times what c lies off y.
fn tracking(s: State, c: Signal, y: Signal) -> i64
    ensures { result ≡ s.n +ℤ pos 1000 *ℤ (c.n -ℤ y.n) }
{
    i64::from(s.n) + 1000 * i64::from(c.n - y.n)
}

impl Controller {
    // By how much the error has changed.
    fn change(self, e: Within<2_000_000>) -> Within<4_000_000>
        ensures { result.n ≡ e.n -ℤ self.block.v }
    {
        Within {
            n: e.n - self.block.v,
        }
    }

    // By how much the measurement's change has changed.
    fn bend(self, b: Signal) -> Within<4_000_000>
        ensures { result.n ≡ bend_of self.block b.n }
    {
        let LoopRecord { w, z, .. } = self.block;
        Within { n: b.n - 2 * w + z }
    }

    // The state, moved by the three terms.
    fn moved(self, a: Signal, b: Signal) -> i64
        ensures { result ≡ moved_of self.block a.n b.n }
    {
        let Params { p, q, r } = self.block.params;
        let e = error(a, b);
        let x = times(Gain { n: p }, self.change(e));
        let y = times(Gain { n: q }, e);
        let d = times(Gain { n: r }, self.bend(b));
        total(self.block.u, x, y, d)
    }

    // The output in thousandths.
    fn sum(self, a: Signal, b: Signal) -> State
        ensures { result.n ≡ sum_of self.block a.n b.n }
    {
        State::limited(self.moved(a, b))
    }

    // The output of either controller.
    pub(crate) fn output(self, a: Signal, b: Signal) -> Signal
        ensures { result.n ≡ pid_out self.block a.n b.n }
    {
        self.sum(a, b).signal()
    }

    // The next record, with its state u given.
    fn shifted(self, a: Signal, b: Signal, u: State) -> LoopRecord
        ensures { result ≡ shifted self.block a.n b.n u.n }
    {
        let k = self.block;
        LoopRecord {
            u: u.n,
            v: error(a, b).n,
            w: b.n,
            z: k.w,
            ..k
        }
    }

    // The next record without tracking.
    pub(crate) fn next(self, a: Signal, b: Signal) -> LoopRecord
        ensures { result ≡ pid_next self.block a.n b.n }
    {
        self.shifted(a, b, self.sum(a, b))
    }

    // The next record with tracking: the state is moved by a thousand times what c lies off the output.
    pub(crate) fn tracked(self, a: Signal, b: Signal, c: Signal) -> LoopRecord
        ensures { result ≡ pidt_next self.block a.n b.n c.n }
    {
        let s = self.sum(a, b);
        self.shifted(a, b, State::limited(tracking(s, c, s.signal())))
    }
}
