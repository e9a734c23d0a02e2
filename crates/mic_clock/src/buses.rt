//! The values on a machine's buses in one cycle.

use mic_alu::AluOut;

/// What drives the operand buses. In a stalled cycle nothing does, and both are 0.
#[derive(Clone, Copy, Debug, PartialEq, Eq)]
pub struct Drive {
    pub a: u32,
    pub b: u32,
    pub stalled: bool,
}

/// What leaves the ALU, and what the C bus carries from the shifter.
#[derive(Clone, Copy, Debug, PartialEq, Eq)]
pub struct Computed {
    pub alu: AluOut,
    pub c: u32,
}

impl Drive {
    /// Nothing drives the buses.
    pub const ZERO: Drive = Drive {
        a: 0,
        b: 0,
        stalled: false,
    };

    /// So in a stall.
    pub const STALLED: Drive = Drive {
        a: 0,
        b: 0,
        stalled: true,
    };
}

impl Computed {
    pub const ZERO: Computed = Computed {
        alu: AluOut {
            value: 0,
            n: false,
            z: false,
        },
        c: 0,
    };
}
