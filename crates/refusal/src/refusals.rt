//! Why a call is refused, and what a refusal tells.

/// Why a call is refused.
#[derive(Clone, Copy, PartialEq, Eq, Debug)]
pub enum Refusal {
    /// The file has more than 16,384 bytes.
    FileTooLong,
    /// A line does not fit the grammar; lines are counted from 1.
    BadLine(u32),
    /// A row that the call takes has fewer than 256 entries.
    RowTooShort,
    /// The diagram is open.
    DiagramOpen,
    /// The token does not bear the open scan's number, or no scan is open.
    WrongScan,
    /// A line names a block by a name that no placed block has.
    UnknownName,
    /// A `block` line gives a name in use.
    NameInUse,
    /// A handle names no placed block.
    UnknownHandle,
    /// There is no such kind, or no such word for one.
    UnknownKind,
    /// A parameter is not acceptable: the first such, from 0 to 2.
    BadParameter(u8),
    /// The port is not below the block's number of ports.
    NoSuchPort,
    /// The port is wired already.
    PortWired,
    /// The port is not wired.
    PortUnwired,
    /// The block takes no feed.
    TakesNoFeed,
    /// Every slot is filled or worn out.
    NoFreeSlot,
    /// The wire makes a ring.
    MakesRing,
    /// The buffer is shorter than what is to be in it.
    BufferTooShort,
}

/// What a refusal tells beside its number.
#[derive(Clone, Copy, PartialEq, Eq, Debug)]
pub enum Told {
    Nothing,
    Line(u32),
    Parameter(u8),
}
