//! The refusals, each by its number, with what it tells.
#![tactic(auto)]

ghost use Rattle.std.specs.Prelude.{◌≡◌};
ghost use Rattle.refusal.specs.Numbers.{meaning};

mod refusals;
mod words;

pub use refusals::{Refusal, Told};

impl Refusal {
    /// The refusal's number, from 1 to 17.
    pub fn number(self) -> u8
        ensures { result ≡ (meaning self).0 }
    {
        match self {
            Refusal::FileTooLong => 1,
            Refusal::BadLine(_) => 2,
            Refusal::RowTooShort => 3,
            Refusal::DiagramOpen => 4,
            Refusal::WrongScan => 5,
            Refusal::UnknownName => 6,
            Refusal::NameInUse => 7,
            Refusal::UnknownHandle => 8,
            Refusal::UnknownKind => 9,
            Refusal::BadParameter(_) => 10,
            Refusal::NoSuchPort => 11,
            Refusal::PortWired => 12,
            Refusal::PortUnwired => 13,
            Refusal::TakesNoFeed => 14,
            Refusal::NoFreeSlot => 15,
            Refusal::MakesRing => 16,
            Refusal::BufferTooShort => 17,
        }
    }

    /// What the refusal tells beside its number.
    pub fn told(self) -> Told
        ensures { result ≡ (meaning self).1 }
    {
        match self {
            Refusal::BadLine(line) => Told::Line(line),
            Refusal::BadParameter(parameter) => Told::Parameter(parameter),
            _ => Told::Nothing,
        }
    }
}
