//! The control lines as they reach the slices of the ALU.

/// F0 and F1 open the same gate in each slice. The others have a bit for each slice.
#[derive(Clone, Copy)]
pub struct Wires {
    pub f0: bool,
    pub f1: bool,
    pub ena: u32,
    pub enb: u32,
    pub inva: u32,
}
