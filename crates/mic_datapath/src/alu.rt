//! What the ALU and the shifter do for a word's control bits.

ghost use Rattle.std.specs.Prelude.{◌≡◌, ◌/◌, ◌%◌, ◌==◌};
ghost use Rattle.micro_word.specs.declared.statement.AluOp.{AluOp};
ghost use Rattle.micro_word.specs.Prelude.{row, shift_of, alu, shifted, on_each_bit};
ghost use Rattle.mic_alu.specs.Prelude.{enabled};

use mic_alu::{alu_by_lines, each_row_computes, shift};
use micro_word::{Lines, Shift};

/// What the gates give for two buses. The B bus of an operation that does not use it has 0.
pub fn operate(bits: u8, lines: &Lines, a: u32, b: u32) -> u32
    requires ena { lines.now.ena ≡ on_each_bit (bits / 8 % 2 == 1) }
    requires inva { lines.now.inva ≡ on_each_bit (bits / 2 % 2 == 1) }
    requires b { enabled (bits / 4 % 2 == 1) b ≡ b }
    ensures { (op : AluOp) → (row op).gates ≡ bits → result ≡ alu op a b }
{
    each_row_computes();
    alu_by_lines(bits, lines.ena, lines.inva, a, b)
}

/// What the shifter puts on the C bus.
pub fn shift_by(bits: u8, value: u32) -> u32
    ensures { result ≡ shifted (shift_of bits) value }
{
    // Most words do not shift.
    if bits == 0 {
        value
    } else {
        shift(Shift::of_bits(bits), value)
    }
}
