//! This profile's memory map: where the memory ends, what it holds, and where the console is.

/// The word address of the console.
pub const CONSOLE: u32 = 0xFFFF_FFFD;

/// A write past the end of the memory and below this word address goes beyond the stack.
pub const STACK_SIDE: u32 = 0x8000_0000;

/// The most bytes of a text, which stands in memory from byte 0.
pub const MOST_TEXT: usize = 65_536;

/// The word address of the constant pool.
pub const POOL: u32 = 0x4000;

/// The most words of a pool.
pub const MOST_POOL: usize = 16_384;

/// The word address of main's frame.
pub const FRAME: u32 = 0x8000;

#[derive(Clone, Copy, Debug, PartialEq, Eq)]
pub struct MemoryMap {
    /// The number of memory words: the stack ends before this word address.
    pub stack_end: u32,
}

impl MemoryMap {
    pub const STANDARD: MemoryMap = MemoryMap { stack_end: 0x10000 };

    pub const LARGE: MemoryMap = MemoryMap { stack_end: 0x20000 };
}
