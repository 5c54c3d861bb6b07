//! Signals as they count.
ghost use Rattle.std.specs.Prelude.{◌≡◌};
ghost use Rattle.loop_blocks.specs.Counts.{heard};

use crate::whole::Signal;
use family::{Inputs, is_within};

// A signal as it counts: one out of range is at rest.
pub(crate) fn hear(s: i32) -> Signal
    ensures { result.n ≡ heard s }
{
    if is_within(s, 1_000_000) {
        Signal { n: s }
    } else {
        Signal { n: 0 }
    }
}

// Three inputs as they count.
pub(crate) fn hear_all(x: Inputs<i32>) -> Inputs<Signal>
    ensures a { result.a.n ≡ heard x.a }
    ensures b { result.b.n ≡ heard x.b }
    ensures c { result.c.n ≡ heard x.c }
{
    Inputs {
        a: hear(x.a),
        b: hear(x.b),
        c: hear(x.c),
    }
}
