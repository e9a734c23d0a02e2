//! What is on the buses in a cycle of a word.

ghost use Rattle.std.specs.Prelude.{◌≡◌, IsTrue};
ghost use Rattle.mic1_datapath.specs.Common.{Mic1, shift_of, statement_of, fields_of, shifted, is_canonical, IsDecoded};
ghost use Rattle.mic1_datapath.specs.Latches.{AreLatches, micro_in};
ghost use Rattle.mic1_datapath.specs.Mic1.{computed, computed_on, driven};
ghost use Rattle.mic1_datapath.specs.Microstep.{source};

use crate::latches::Latches;
use mic_alu::{AluOut, Controls, alu, each_row_computes};
use mic_clock::{Computed, Drive};
use mic_datapath::{operate, shift_by, side_law};
use micro_word::{Lines, Machine, bits, statement_law, word_law};

pub const H: usize = 8;

/// The lower bit of the field SLL8 SRA1.
const SHIFT: u64 = 0x40_0000;

/// What the shifter puts on the C bus for a word.
#[inline(always)]
fn shift_for(word: u64, value: u32) -> u32
    ensures { result ≡ shifted (shift_of (fields_of Mic1 word).shift) value }
{
    // Most words do not shift. The word itself shows it faster than its field does.
    let still = word / SHIFT % 4 == 0;
    if still {
        return value;
    }
    shift_by(bits::shift(Machine::Mic1, word), value)
}

/// What the ALU and the shifter give for these operands of a word.
pub fn computed_of(word: u64, a: u32, b: u32) -> Computed
    requires { IsTrue (is_canonical Mic1 word) }
    ensures { result ≡ computed_on word a b }
{
    word_law(Machine::Mic1);
    each_row_computes();
    let controls = Controls::from_bits(bits::gates(Machine::Mic1, word));
    let alu = alu(controls, a, b);
    Computed {
        alu,
        c: shift_for(word, alu.value),
    }
}

/// What drives the operand buses.
#[inline(always)]
pub fn driven_by(latches: &Latches, _word: u64, lines: &Lines) -> Drive
    requires latches { AreLatches latches.now }
    requires decoded { IsDecoded Mic1 _word lines.now }
    ensures { result ≡ driven _word (micro_in latches.now) }
{
    word_law(Machine::Mic1);
    statement_law(Machine::Mic1);
    Drive {
        a: latches.places[H],
        b: latches.places[lines.b as usize],
        stalled: false,
    }
}

/// What the ALU and the shifter give for what is on the B bus.
#[inline(always)]
pub fn computed_by(latches: &Latches, word: u64, lines: &Lines, b: u32) -> Computed
    requires decoded { IsDecoded Mic1 word lines.now }
    requires b { b ≡ source (statement_of Mic1 word).part.b (micro_in latches.now) }
    ensures { result ≡ computed word (micro_in latches.now) }
{
    word_law(Machine::Mic1);
    statement_law(Machine::Mic1);
    side_law();
    let gates = bits::gates(Machine::Mic1, word);
    let value = operate(gates, lines, latches.places[H], b);
    let c = shift_for(word, value);
    Computed {
        alu: AluOut {
            value,
            n: value >= 0x8000_0000,
            z: value == 0,
        },
        c,
    }
}
