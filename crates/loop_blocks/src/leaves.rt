//! The blocks without a state of their own.
ghost use Rattle.std.specs.Prelude.{◌≡◌, ◌≤◌, ◌+ℤ◌, ◌-ℤ◌, ◌*ℤ◌, unsigned_abs};
ghost use Rattle.loop_blocks.specs.Whole.{span, thousandth};
ghost use Rattle.loop_blocks.specs.Root.{root_of, root_out};

use crate::whole::{Signal, Within, times};

// The square root, rounded down.
#[tactic(auto, using(crate::proofs::Squares::is_root, crate::proofs::Squares::square_le))]
fn sqrt(n: u64) -> u64
    ensures value { result ≡ root_of n }
    ensures bound { n ≤ 1000000000000 → result ≤ 1000000 }
{
    n.isqrt()
}

// The root of 1,000,000 times the input; 0 below 0.
pub(crate) fn root(a: Signal) -> i32
    ensures { result ≡ root_out a.n }
{
    if a.n < 0 {
        0
    } else {
        sqrt(1_000_000 * u64::from(a.n.unsigned_abs())) as i32
    }
}

// a + b − c.
fn total(a: Signal, b: Signal, c: Signal) -> i64
    ensures { result ≡ a.n +ℤ b.n -ℤ c.n }
{
    i64::from(a.n + b.n - c.n)
}

// a + b − c, limited.
pub(crate) fn summed(a: Signal, b: Signal, c: Signal) -> Signal
    ensures { result.n ≡ span (a.n +ℤ b.n -ℤ c.n) }
{
    Signal::limited(total(a, b, c))
}

// p thousandths of the input, rounded down and limited.
pub(crate) fn gained(p: Within<100_000>, a: Signal) -> Signal
    ensures { result.n ≡ span (thousandth (p.n *ℤ a.n)) }
{
    Signal::limited(times(p, a).thousandth())
}
