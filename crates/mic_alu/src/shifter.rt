//! The shifter after the ALU.
ghost use Rattle.std.specs.Prelude.{◌≡◌};
ghost use Rattle.micro_word.specs.Prelude.{shifted};

use micro_word::Shift;

const SIGN: u32 = 0x8000_0000;

/// What leaves the shifter. A right shift keeps the sign.
#[tactic(auto, unfolding(mic_words::specs::Arithmetic::wrap, mic_words::specs::Arithmetic::half))]
pub fn shift(shift: Shift, value: u32) -> u32
    ensures { result ≡ shifted shift value }
{
    match shift {
        Shift::None => value,
        Shift::Left8 => value << 8,
        Shift::Right1 => {
            if value < SIGN {
                value / 2
            } else {
                value / 2 + SIGN
            }
        }
    }
}
