//! The control lines of the ALU.
ghost use Rattle.std.specs.Prelude.{◌≡◌};

/// The six control lines of the ALU.
#[derive(Clone, Copy, Debug, PartialEq, Eq)]
pub struct Controls {
    pub f0: bool,
    pub f1: bool,
    pub ena: bool,
    pub enb: bool,
    pub inva: bool,
    pub inc: bool,
}

impl Controls {
    ghost use Rattle.mic_alu.specs.Gates.{controls_of};

    /// The lines of the lowest six bits: F0, F1, ENA, ENB, INVA, INC.
    pub fn from_bits(bits: u8) -> Controls
        ensures { result ≡ controls_of bits }
    {
        Controls {
            f0: bits / 32 % 2 == 1,
            f1: bits / 16 % 2 == 1,
            ena: bits / 8 % 2 == 1,
            enb: bits / 4 % 2 == 1,
            inva: bits / 2 % 2 == 1,
            inc: bits % 2 == 1,
        }
    }
}
