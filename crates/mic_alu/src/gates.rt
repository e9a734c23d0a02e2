//! The gates of the ALU.
ghost use Rattle.std.specs.Prelude.{◌≡◌, ◌/◌, ◌%◌, ◌==◌};
ghost use Rattle.mic_words.specs.Prelude.{is_negative};
ghost use Rattle.mic_alu.specs.Gates.{enabled, gates, controls_of};

use crate::controls::Controls;
use crate::slices::{EACH, gated};
use crate::wires::Wires;

/// What leaves the ALU, before the shifter.
#[derive(Clone, Copy, Debug, PartialEq, Eq)]
pub struct AluOut {
    pub value: u32,
    /// The value is negative as a signed word.
    pub n: bool,
    /// The value is 0.
    pub z: bool,
}

/// A control line, as it reaches each slice.
fn spread(on: bool) -> u32
    ensures { result ≡ enabled on 0xFFFFFFFF }
{
    if on { EACH } else { 0 }
}

/// What the gates give for H or the A bus, `a`, and the B bus, `b`.
pub fn alu(controls: Controls, a: u32, b: u32) -> AluOut
    ensures value { result.value ≡ gates controls a b }
    ensures n { result.n ≡ is_negative result.value }
    ensures z { result.z ≡ (result.value == 0) }
{
    let wires = Wires {
        f0: controls.f0,
        f1: controls.f1,
        ena: spread(controls.ena),
        enb: spread(controls.enb),
        inva: spread(controls.inva),
    };
    let value = gated(wires, controls.inc, a, b);
    AluOut {
        value,
        n: value >= 0x8000_0000,
        z: value == 0,
    }
}

/// What `alu` gives for these six bits, where ENA and INVA reach each bit of a word and B is 0 when ENB is off.
pub fn alu_by_lines(bits: u8, ena: u32, inva: u32, a: u32, b: u32) -> u32
    requires ena { ena ≡ enabled (bits / 8 % 2 == 1) 0xFFFFFFFF }
    requires inva { inva ≡ enabled (bits / 2 % 2 == 1) 0xFFFFFFFF }
    requires b { enabled (bits / 4 % 2 == 1) b ≡ b }
    ensures { result ≡ gates (controls_of bits) a b }
{
    let wires = Wires {
        f0: bits / 32 % 2 == 1,
        f1: bits / 16 % 2 == 1,
        ena,
        enb: EACH,
        inva,
    };
    gated(wires, bits % 2 == 1, a, b)
}
