//! The kinds by code and word, what each asks of its parameters and its state, and their record.
ghost use Rattle.interlock_blocks.specs.Interlocks.{kinds};
ghost use Rattle.interlock_blocks.specs.Laws.{lawful as kinds_lawful};

use crate::record::{InterlockRecord, Kind};
use family::{BlockKind, Params, bad_but, is_among, is_within};

impl BlockKind for Kind {
    type Record = InterlockRecord;

    type Signal = bool;

    ghost rules = { kinds };

    ghost lawful = { kinds_lawful };

    fn named(text: &[u8]) -> Option<Kind> {
        match text {
            b"in" => Some(Kind::In),
            b"and" => Some(Kind::And),
            b"or" => Some(Kind::Or),
            b"not" => Some(Kind::Not),
            b"latch" => Some(Kind::Latch),
            b"hold" => Some(Kind::Hold),
            b"timer" => Some(Kind::Timer),
            _ => None,
        }
    }

    fn of_code(code: u8) -> Option<Kind> {
        match code {
            1 => Some(Kind::In),
            2 => Some(Kind::And),
            3 => Some(Kind::Or),
            4 => Some(Kind::Not),
            5 => Some(Kind::Latch),
            6 => Some(Kind::Hold),
            7 => Some(Kind::Timer),
            _ => None,
        }
    }

    fn code(self) -> u8 {
        self as u8
    }

    fn plain() -> Kind {
        Kind::In
    }

    fn ports(self) -> u8 {
        match self {
            Kind::In => 0,
            Kind::Not | Kind::Hold | Kind::Timer => 1,
            Kind::And | Kind::Or | Kind::Latch => 2,
        }
    }

    fn late(self, port: u8) -> bool {
        (self == Kind::Hold) & (port == 0)
    }

    fn takes(self) -> bool {
        self == Kind::In
    }

    fn told(n: i32) -> i32 {
        i32::from(n != 0)
    }

    fn starts(self) -> bool {
        matches!(self, Kind::In | Kind::Hold)
    }

    fn bad(self, x: Params) -> Option<u8> {
        match self {
            Kind::In | Kind::Hold => bad_but(is_among(0, x.p, 1), x),
            Kind::Timer => bad_but(is_among(1, x.p, 1_000_000), x),
            Kind::And | Kind::Or | Kind::Not | Kind::Latch => bad_but(is_within(x.p, 0), x),
        }
    }

    fn holds(self, k: InterlockRecord) -> bool {
        match self {
            Kind::In | Kind::Latch | Kind::Hold => is_among(0, k.u, 1),
            Kind::And | Kind::Or | Kind::Not => is_among(0, k.u, 0),
            Kind::Timer => is_among(0, k.u, 1_000_000),
        }
    }

    fn made(code: u8, params: Params, u: i32) -> InterlockRecord {
        InterlockRecord { code, params, u }
    }

    fn code_in(k: InterlockRecord) -> u8 {
        k.code
    }

    fn params_in(k: InterlockRecord) -> Params {
        k.params
    }

    fn retuned(k: InterlockRecord, params: Params) -> InterlockRecord {
        InterlockRecord { params, ..k }
    }

    fn with_u(k: InterlockRecord, u: i32) -> InterlockRecord {
        InterlockRecord { u, ..k }
    }
}
