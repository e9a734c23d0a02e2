//! What a command clocks, as it was asked for.

use console_port::MemoryMap;

/// A program that is clocked by a microprogram, as far as a bound.
#[derive(Clone, Copy)]
pub struct Job<T> {
    /// The program's file.
    pub file: T,
    /// The file of a person's own microprogram; where none is named, the one that ships is clocked.
    pub own: Option<T>,
    /// The most cycles.
    pub bound: u64,
    pub map: MemoryMap,
}
