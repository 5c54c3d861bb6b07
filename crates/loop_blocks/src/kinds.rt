//! The kinds by code and word, what each asks of its parameters and its states, and their record.
ghost use Rattle.std.specs.Prelude.{◌≡◌};
ghost use Rattle.loop_blocks.specs.Counts.{limits_of, states_fit};
ghost use Rattle.loop_blocks.specs.Kinds.{bad_gains, bad_limits};
ghost use Rattle.loop_blocks.specs.Laws.{lawful as kinds_lawful};
ghost use Rattle.loop_blocks.specs.Loops.{kinds};

use crate::record::{Kind, Limits, LoopRecord};
use crate::whole::Signal;
use family::{BlockKind, Params, bad_but, first_bad, is_among, is_within};

impl BlockKind for Kind {
    type Record = LoopRecord;

    type Signal = i32;

    ghost rules = { kinds };

    ghost lawful = { kinds_lawful };

    fn named(text: &[u8]) -> Option<Kind> {
        match text {
            b"in" => Some(Kind::In),
            b"pid" => Some(Kind::Pid),
            b"pidt" => Some(Kind::Pidt),
            b"lim" => Some(Kind::Lim),
            b"root" => Some(Kind::Root),
            b"lag" => Some(Kind::Lag),
            b"hold" => Some(Kind::Hold),
            b"low" => Some(Kind::Low),
            b"high" => Some(Kind::High),
            b"sum" => Some(Kind::Sum),
            b"gain" => Some(Kind::Gain),
            _ => None,
        }
    }

    fn of_code(code: u8) -> Option<Kind> {
        match code {
            1 => Some(Kind::In),
            2 => Some(Kind::Pid),
            3 => Some(Kind::Pidt),
            4 => Some(Kind::Lim),
            5 => Some(Kind::Root),
            6 => Some(Kind::Lag),
            7 => Some(Kind::Hold),
            8 => Some(Kind::Low),
            9 => Some(Kind::High),
            10 => Some(Kind::Sum),
            11 => Some(Kind::Gain),
            _ => None,
        }
    }

    fn code(self) -> u8 {
        self as u8
    }

    fn plain() -> Kind {
        Kind::In
    }

    fn ports(self) -> u8 {
        match self {
            Kind::In => 0,
            Kind::Lim | Kind::Root | Kind::Lag | Kind::Hold | Kind::Gain => 1,
            Kind::Pid | Kind::Low | Kind::High => 2,
            Kind::Pidt | Kind::Sum => 3,
        }
    }

    fn late(self, port: u8) -> bool {
        match self {
            Kind::Lag | Kind::Hold => port == 0,
            Kind::Pidt => port == 2,
            _ => false,
        }
    }

    fn takes(self) -> bool {
        self == Kind::In
    }

    fn told(n: i32) -> i32 {
        Signal::limited(i64::from(n)).n
    }

    fn starts(self) -> bool {
        matches!(self, Kind::In | Kind::Hold)
    }

    fn bad(self, x: Params) -> Option<u8> {
        match self {
            Kind::In | Kind::Hold => bad_but(is_within(x.p, 1_000_000), x),
            Kind::Pid | Kind::Pidt => bad_gains(x),
            Kind::Lim => bad_limits(x),
            Kind::Lag => bad_but(is_among(1, x.p, 1000), x),
            Kind::Gain => bad_but(is_within(x.p, 100_000), x),
            Kind::Root | Kind::Low | Kind::High | Kind::Sum => bad_but(is_within(x.p, 0), x),
        }
    }

    fn holds(self, k: LoopRecord) -> bool {
        states_fit(limits(self), k)
    }

    fn made(code: u8, params: Params, u: i32) -> LoopRecord {
        LoopRecord {
            code,
            params,
            u,
            v: 0,
            w: 0,
            z: 0,
        }
    }

    fn code_in(k: LoopRecord) -> u8 {
        k.code
    }

    fn params_in(k: LoopRecord) -> Params {
        k.params
    }

    fn retuned(k: LoopRecord, params: Params) -> LoopRecord {
        LoopRecord { params, ..k }
    }

    fn with_u(k: LoopRecord, u: i32) -> LoopRecord {
        LoopRecord { u, ..k }
    }
}

// The first bad parameter of a controller.
fn bad_gains(x: Params) -> Option<u8>
    ensures { result ≡ bad_gains x }
{
    first_bad(
        is_within(x.p, 100_000),
        is_within(x.q, 100_000),
        is_within(x.r, 100_000),
    )
}

// The first bad parameter of a limiter.
fn bad_limits(x: Params) -> Option<u8>
    ensures { result ≡ bad_limits x }
{
    let above = x.p <= x.q;
    first_bad(
        is_within(x.p, 1_000_000),
        is_within(x.q, 1_000_000) & above,
        is_within(x.r, 0),
    )
}

// How large each state of a kind can be.
fn limits(kind: Kind) -> Limits
    ensures { result ≡ limits_of kind }
{
    let (u, v, w, z) = match kind {
        Kind::In | Kind::Hold => (1_000_000, 0, 0, 0),
        Kind::Pid | Kind::Pidt => (1_000_000_000, 2_000_000, 1_000_000, 1_000_000),
        Kind::Lag => (1_000_000_000, 0, 0, 0),
        _ => (0, 0, 0, 0),
    };
    Limits { u, v, w, z }
}

// Whether each state is within its limit.
fn states_fit(m: Limits, k: LoopRecord) -> bool
    ensures { result ≡ states_fit m k }
{
    is_within(k.u, m.u) & is_within(k.v, m.v) & is_within(k.w, m.w) & is_within(k.z, m.z)
}
