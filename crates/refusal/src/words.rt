//! The refusals in words, for people.
ghost use Rattle.std.specs.Prelude.{◌≡◌, Some};
ghost use Rattle.refusal.specs.Sentences.{words};

use crate::refusals::Refusal;
use std::error::Error;
use std::fmt;

impl fmt::Display for Refusal {
    ghost output = { λ refusal. Some (words refusal) };

    fn fmt<W: fmt::Write>(&self, f: &mut fmt::Formatter<W>) -> fmt::Result {
        f.write_str(words(*self))
    }
}

impl Error for Refusal {}

// A refusal in words.
fn words(refusal: Refusal) -> &'static str
    ensures { result.now ≡ words refusal }
{
    match refusal {
        Refusal::FileTooLong => "the file has more than 16,384 bytes",
        Refusal::BadLine(_) => "the line does not fit the grammar",
        Refusal::RowTooShort => "a row has fewer than 256 entries",
        Refusal::DiagramOpen => "a scan is open",
        Refusal::WrongScan => "the token is not that of the open scan",
        Refusal::UnknownName => "there is no block of that name",
        Refusal::NameInUse => "the name is in use",
        Refusal::UnknownHandle => "the handle names no block",
        Refusal::UnknownKind => "there is no such kind of block",
        Refusal::BadParameter(0) => "the first parameter is not acceptable",
        Refusal::BadParameter(1) => "the second parameter is not acceptable",
        Refusal::BadParameter(_) => "the third parameter is not acceptable",
        Refusal::NoSuchPort => "the block has no such port",
        Refusal::PortWired => "the port is wired already",
        Refusal::PortUnwired => "the port is not wired",
        Refusal::TakesNoFeed => "the block takes no feed",
        Refusal::NoFreeSlot => "every slot is filled or worn out",
        Refusal::MakesRing => "the wire would close a ring",
        Refusal::BufferTooShort => "the reply is full",
    }
}
