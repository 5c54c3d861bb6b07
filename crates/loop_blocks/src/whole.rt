//! Whole numbers with a bound.
ghost use Rattle.std.specs.Prelude.{◌≡◌, ◌≤◌, ◌<◌, ◌^◌, ◌*◌, pos, neg_ℤ, ◌*ℤ◌, unsigned_abs};
ghost use Rattle.loop_blocks.specs.Whole.{limit, thousandth};

// A whole number from −N to N.
#[derive(Clone, Copy, Drop)]
pub(crate) struct Within<const N: u32> {
    pub(crate) n: i32,
    pub(crate) ghost within: { unsigned_abs n ≤ N },
}

// What a signal can be, and a state in thousandths.
pub(crate) type Signal = Within<1_000_000>;

pub(crate) type State = Within<1_000_000_000>;

impl<const N: u32> Within<N> {
    // The number, limited to −N to N.
    pub(crate) fn limited(n: i64) -> Within<N>
        requires { N < 2 ^ 31 }
        ensures { result.n ≡ limit (neg_ℤ (pos N)) (pos N) n }
    {
        let most = i64::from(N);
        Within {
            n: n.clamp(-most, most) as i32,
        }
    }
}

impl State {
    // The signal that a state in thousandths stands for, rounded down.
    pub(crate) fn signal(self) -> Signal
        ensures { result.n ≡ thousandth self.n }
    {
        Within {
            n: self.n.div_euclid(1000),
        }
    }
}

// A product of bounded numbers, in 64 bits.
#[derive(Clone, Copy, Drop)]
pub(crate) struct Product {
    pub(crate) n: i64,
    pub(crate) ghost within: { unsigned_abs n ≤ 2000000000000000 },
}

impl Product {
    // A thousandth, rounded down.
    pub(crate) fn thousandth(self) -> i64
        ensures value { result ≡ thousandth self.n }
        ensures bound { unsigned_abs result ≤ unsigned_abs self.n }
    {
        self.n.div_euclid(1000)
    }
}

// The product of two numbers.
#[tactic(auto, using(crate::proofs::Products::product_fits))]
fn exact_product(a: i32, b: i32) -> i64
    ensures { result ≡ a *ℤ b }
{
    i64::from(a) * i64::from(b)
}

// The product of a number from −A to A and one from −B to B.
#[tactic(auto, using(crate::proofs::Products::small_product))]
pub(crate) fn times<const A: u32, const B: u32>(a: Within<A>, b: Within<B>) -> Product
    requires { A * B ≤ 2000000000000000 }
    ensures { result.n ≡ a.entry.n *ℤ b.entry.n }
{
    Product {
        n: exact_product(a.n, b.n),
    }
}
