//! How a run of a board ends, and what one cycle did.

#[derive(Clone, Copy, Debug, PartialEq, Eq)]
pub enum End {
    Halt,
    Err,
    /// At a boundary the cycles were at least the bound.
    Bound,
    /// A write beyond the stack.
    StackLimit,
    /// The source failed.
    ReadFault,
    /// The sink failed.
    WriteFault,
    /// An access at this word address, where nothing is.
    OutOfMap(u32),
    /// 1,024 cycles without a boundary.
    Adrift,
}

/// What a cycle did.
#[derive(Clone, Copy, Debug, PartialEq, Eq)]
pub enum Tick {
    Clocked,
    Stalled,
    Ended(End),
}
