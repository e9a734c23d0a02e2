//! What is kept of a clocked cycle.

use crate::moment::Moment;
use mic_clock::Tick;

/// A memory word that a cycle may have written: its word address, and its value before the cycle and after it.
#[derive(Clone, Copy, Debug, PartialEq, Eq)]
pub struct WrittenWord {
    pub at: u32,
    pub old: u32,
    pub new: u32,
}

/// A clocked cycle: where it led, and what it takes to undo it and to repeat it. It began where the one before it led.
#[derive(Debug, Drop)]
pub struct KeptCycle {
    pub after: Moment,
    pub tick: Tick,
    /// The memory word at MAR, where there is one.
    pub written: Option<WrittenWord>,
}
