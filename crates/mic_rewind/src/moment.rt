//! Where a machine stands between two cycles, apart from its memory.

use mic_clock::{Counts, Registers};

/// The registers and the counts between two cycles.
#[derive(Debug, Drop)]
pub struct Moment {
    pub registers: Registers,
    pub counts: Counts,
}
