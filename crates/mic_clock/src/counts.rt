//! What a board counts: cycles, stalls, completed instructions, and where the last boundary was.

/// Where the last instruction boundary was.
#[derive(Clone, Copy, Debug, PartialEq, Eq)]
pub struct Boundary {
    /// The cycles that were clocked when it was reached.
    pub cycles: u64,
    /// The byte address of the instruction there.
    pub at: u32,
    pub sp: u32,
    pub lv: u32,
}

#[derive(Clone, Copy, Debug, PartialEq, Eq)]
pub struct Counts {
    /// Clocked cycles, stalls included.
    pub cycles: u64,
    /// Completed instructions.
    pub instructions: u64,
    pub stalls: u64,
    pub boundary: Option<Boundary>,
}
