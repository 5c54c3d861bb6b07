//! Families whose blocks are of kinds: what a kind says, and what its family's records are.
ghost use Rattle.std.specs.Prelude.{◌≡◌};
ghost use Rattle.family.specs.Rules.{Rules, Lawful, bad_for, meaning_of};

use crate::values::Params;

/// A kind of blocks. A record bears the code of its kind, three parameters, a state, and whatever else its family keeps.
pub trait BlockKind: Copy {
    type Record: Copy;

    type Signal: Copy;

    // all that the kinds of the family say
    ghost rules: { Rules Self Self.Record Self.Signal };

    /// The kind that a word names.
    fn named(text: &[u8]) -> Option<Self>
        ensures { result ≡ rules.named text.now };

    /// The kind of a code.
    fn of_code(code: u8) -> Option<Self>
        ensures { result ≡ rules.of_code code };

    /// The code of the kind.
    fn code(self) -> u8
        ensures { result ≡ rules.code self };

    /// The kind of an idle block.
    fn plain() -> Self
        ensures { result ≡ rules.plain };

    /// How many ports the kind has.
    fn ports(self) -> u8
        ensures { result ≡ rules.ports self };

    /// Whether a port is late.
    fn late(self, port: u8) -> bool
        ensures { result ≡ rules.late self port };

    /// Whether the kind takes feeds.
    fn takes(self) -> bool
        ensures { result ≡ rules.takes self };

    /// The state that a number that is fed comes to.
    fn told(n: i32) -> i32
        ensures { result ≡ rules.told n };

    /// Whether a new block of the kind starts with p as its state.
    fn starts(self) -> bool
        ensures { result ≡ rules.starts self };

    /// The first parameter that the kind does not accept.
    fn bad(self, params: Params) -> Option<u8>
        ensures { result ≡ rules.bad self params };

    /// Whether a block of the kind can have the record's states.
    fn holds(self, block: Self::Record) -> bool
        ensures { result ≡ rules.holds self block };

    /// A new record, with its state.
    fn made(code: u8, params: Params, u: i32) -> Self::Record
        ensures { result ≡ rules.made code params u };

    /// A record's code.
    fn code_in(block: Self::Record) -> u8
        ensures { result ≡ rules.code_in block };

    /// A record's parameters.
    fn params_in(block: Self::Record) -> Params
        ensures { result ≡ rules.params_in block };

    /// The record with other parameters.
    fn retuned(block: Self::Record, params: Params) -> Self::Record
        ensures { result ≡ rules.retuned block params };

    /// The record with another state.
    fn with_u(block: Self::Record, u: i32) -> Self::Record
        ensures { result ≡ rules.with_u block u };

    /// The first parameter that the kind of a code does not accept; none where there is no such kind.
    final fn bad_for(code: u8, params: Params) -> Option<u8>
        ensures { result ≡ bad_for rules (rules.of_code code) params }
    {
        Self::of_code(code)?.bad(params)
    }

    /// The record of a new block.
    final fn fresh(code: u8, params: Params) -> Self::Record
        ensures { result ≡ (meaning_of rules).fresh code params }
    {
        let u = match Self::of_code(code) {
            Some(kind) if kind.starts() => params.p,
            _ => 0,
        };
        Self::made(code, params, u)
    }

    // what a family owes of its kinds
    ghost lawful: { Lawful rules };
}
