//! A family of blocks, by what its records and signals mean.
ghost use Rattle.std.specs.Prelude.{◌≡◌, ℕ, ◌≤◌, Bool, List, ℤ, Option};
ghost use Rattle.family.specs.declared.values.Params.{Params as Three};
ghost use Rattle.family.specs.declared.values.Inputs.{Inputs as Heard};
ghost use Rattle.family.specs.Laws.{LateLaw, KindLaw};

use crate::values::{Inputs, Params};

pub trait Family {
    type Record: Copy;

    type Signal: Copy;

    // the kind that a word names, by its code
    ghost word: { List ℕ → Option ℕ };

    // whether there is a kind of this code
    ghost exists: { ℕ → Bool };

    // the first parameter that a kind does not accept
    ghost bad: { ℕ → Three → Option ℕ };

    // the record of a new block
    ghost fresh: { ℕ → Three → Self.Record };

    // how many ports a block has
    ghost ports: { Self.Record → ℕ };

    // whether a port is late: its input tells in the next scan only
    ghost late: { Self.Record → ℕ → Bool };

    // whether a block takes feeds
    ghost takes: { Self.Record → Bool };

    // the record after a feed
    ghost fed: { Self.Record → ℤ → Self.Record };

    // the first parameter that a block does not accept in a tune
    ghost unfit: { Self.Record → Three → Option ℕ };

    // the record after a tune
    ghost tuned: { Self.Record → Three → Self.Record };

    // what a block puts out
    ghost output: { Self.Record → Heard Self.Signal → Self.Signal };

    // the record after the scan
    ghost next: { Self.Record → Heard Self.Signal → Self.Record };

    // a signal as a number
    ghost number: { Self.Signal → ℤ };

    // what an unwired port carries
    ghost rest: { Self.Signal };

    fn word(text: &[u8]) -> Option<u8>
        ensures { result ≡ word text.now };

    fn exists(kind: u8) -> bool
        ensures { result ≡ exists kind };

    fn bad(kind: u8, params: Params) -> Option<u8>
        ensures { result ≡ bad kind params };

    fn fresh(kind: u8, params: Params) -> Self::Record
        ensures { result ≡ fresh kind params };

    fn ports(block: Self::Record) -> u8
        ensures { result ≡ ports block };

    fn late(block: Self::Record, port: u8) -> bool
        ensures { result ≡ late block port };

    fn takes(block: Self::Record) -> bool
        ensures { result ≡ takes block };

    fn fed(block: Self::Record, n: i32) -> Self::Record
        ensures { result ≡ fed block n };

    fn unfit(block: Self::Record, params: Params) -> Option<u8>
        ensures { result ≡ unfit block params };

    fn tuned(block: Self::Record, params: Params) -> Self::Record
        ensures { result ≡ tuned block params };

    fn output(block: Self::Record, inputs: Inputs<Self::Signal>) -> Self::Signal
        ensures { result ≡ output block inputs };

    fn next(block: Self::Record, inputs: Inputs<Self::Signal>) -> Self::Record
        ensures { result ≡ next block inputs };

    fn number(signal: Self::Signal) -> i32
        ensures { result ≡ number signal };

    fn rest() -> Self::Signal
        ensures { result ≡ rest };

    // a block has at most three ports
    ghost few: { (r : Self.Record) → ports r ≤ 3 };

    // the output depends on the direct ports alone
    ghost lateness: { LateLaw ports late output };

    // a block keeps its ports and its late ports
    ghost kind: { KindLaw ports late next fed unfit tuned };
}
