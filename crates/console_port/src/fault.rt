//! Why an access is refused or fails.

#[derive(Clone, Copy, Debug, PartialEq, Eq)]
pub enum BusFault {
    /// The source failed.
    ReadFault,
    /// The sink failed.
    WriteFault,
    /// A write past the end of the memory, at this word address below `STACK_SIDE`.
    StackLimit(u32),
    /// No memory and no console at this word address.
    OutOfMap(u32),
}
