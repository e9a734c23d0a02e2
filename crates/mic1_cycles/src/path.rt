//! Where a symbolic run stands.
use crate::question::Answer;
use crate::symbols::{Symbols, Write};

/// A run since its start, under the answers that it was given. Words are named by number.
#[derive(Drop)]
pub struct Path {
    pub symbols: Symbols,
    /// What was written to memory, the oldest first.
    pub writes: Vec<Write>,
    /// How many bytes were taken from the console.
    pub taken: u32,
    /// What was given to the console, the oldest first.
    pub given: Vec<u32>,
    pub answers: Vec<Answer>,
}
