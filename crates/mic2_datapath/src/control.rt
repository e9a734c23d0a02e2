//! The word that is clocked.

ghost use Rattle.std.specs.Prelude.{◌≡◌, ◌≢◌, ◌≤◌, ◌<◌, IsTrue, None, true, false};
ghost use Rattle.mic2_datapath.specs.Common.{Mic2, is_canonical, addr_bits, jam_bits, mem_of, statement_of, fields_of, AreLines, AreSlots, names, alu, shifted};
ghost use Rattle.mic2_datapath.specs.Common.{IsDecoded as IsDecodedFor, next_address};
ghost use Rattle.mic2_datapath.specs.Latches.{IsDecoded, access_by, jam_in};
ghost use Rattle.mic2_datapath.specs.Mic2.{flagged, value_of};
ghost use Rattle.mic2_datapath.specs.Microstep.{demand};

use mic_alu::{AluOut, Controls, alu, each_row_computes};
use mic_clock::Computed;
use mic_datapath::{next_address, operate, shift_by, side_law};
use micro_word::{Lines, Machine, Mem, bits, statement_law, word_law};

/// JMPC.
pub const JMPC: u8 = 4;

/// A word with its control lines, which have the number of bytes of the queue that it demands.
#[derive(Clone, Copy, Debug, PartialEq, Eq)]
pub struct Control {
    pub word: u64,
    pub lines: Lines,
    ghost canonical: { IsTrue (is_canonical Mic2 word) },
    ghost decoded: { AreLines Mic2 (fields_of Mic2 word) lines },
    ghost demands: { lines.takes ≡ demand (statement_of Mic2 word) },
}

/// The lower bit of the field SLL8 SRA1, the lowest of JMPC JAMN JAMZ, and JMPC.
const SHIFT: u64 = 0x200_0000;

const JAM: u64 = 0x800_0000;

const DISPATCH: u64 = 0x2000_0000;

/// The bits of MAR, MDR and PC in the field C.
const MAR: u64 = 0x400;

const MDR: u64 = 0x800;

const PC: u64 = 0x1000;

/// The lines of a decoded word have the number of bytes that it demands.
#[inline(always)]
pub fn demand_law(_word: u64, _lines: &Lines)
    requires { IsDecodedFor Mic2 _word _lines.now }
    ensures { IsDecoded _word _lines.now }
{
    word_law(Machine::Mic2);
    statement_law(Machine::Mic2);
}

/// What leaves the ALU for the words on both sides.
#[inline(always)]
pub fn operate_for(word: u64, lines: &Lines, a: u32, b: u32) -> u32
    requires decoded { IsDecoded word lines.now }
    requires b { (statement_of Mic2 word).part.b ≡ None → b ≡ 0 }
    ensures { result ≡ alu (statement_of Mic2 word).part.op a b }
{
    word_law(Machine::Mic2);
    statement_law(Machine::Mic2);
    side_law();
    operate(bits::gates(Machine::Mic2, word), lines, a, b)
}

/// What the shifter puts on the C bus for a word.
#[inline(always)]
#[tactic(auto, unfolding(micro_word::specs::Coding::statement_of))]
pub fn shift_for(word: u64, value: u32) -> u32
    ensures { result ≡ shifted (statement_of Mic2 word).part.shift value }
{
    // Most words do not shift. The word itself shows it faster than its field does.
    let still = word / SHIFT % 4 == 0;
    if still {
        return value;
    }
    shift_by(bits::shift(Machine::Mic2, word), value)
}

/// The result with N and Z, and the shifted result.
#[inline(always)]
pub fn flagged(value: u32, c: u32) -> Computed
    ensures { result ≡ flagged value c }
{
    let n = value >= 0x8000_0000;
    let z = value == 0;
    let alu = AluOut { value, n, z };
    Computed { alu, c }
}

/// A word's access of memory.
#[inline(always)]
#[tactic(auto, unfolding(micro_word::specs::Coding::statement_of))]
pub fn mem_for(word: u64) -> Mem
    ensures { result ≡ (statement_of Mic2 word).part.mem }
{
    Mem::of_bits(bits::mem(Machine::Mic2, word))
}

/// Whether a word accesses nothing.
pub fn is_quiet(word: u64) -> bool
    ensures quiet { result ≡ true → mem_of (fields_of Mic2 word).mem ≡ Mem.None }
    ensures accesses { result ≡ false → (fields_of Mic2 word).mem ≢ 0 }
{
    bits::mem(Machine::Mic2, word) == 0
}

/// Whether a word that accesses memory reads. Any other writes.
pub fn reads(word: u64) -> bool
    requires canonical { IsTrue (is_canonical Mic2 word) }
    requires accesses { (fields_of Mic2 word).mem ≢ 0 }
    ensures { mem_of (fields_of Mic2 word).mem ≡ access_by result }
{
    word_law(Machine::Mic2);
    bits::mem(Machine::Mic2, word) % 2 == 1
}

/// Whether a word loads MAR. The word itself shows it faster than its field does, here and below.
pub fn loads_mar(word: u64) -> bool
    ensures { result ≡ names (fields_of Mic2 word).c 0 }
{
    word / MAR % 2 == 1
}

/// Whether a word loads MDR.
pub fn loads_mdr(word: u64) -> bool
    ensures { result ≡ names (fields_of Mic2 word).c 1 }
{
    word / MDR % 2 == 1
}

/// Whether a word loads PC.
pub fn loads_pc(word: u64) -> bool
    ensures { result ≡ names (fields_of Mic2 word).c 2 }
{
    word / PC % 2 == 1
}

/// Whether a word goes on to Addr, as most words do.
pub fn is_plain(word: u64) -> bool
    ensures { result ≡ true → jam_in word ≡ 0 }
{
    word / JAM % 8 == 0
}

/// Whether a word dispatches.
pub fn dispatches(word: u64) -> bool
    ensures yes { result ≡ true → 4 ≤ jam_in word }
    ensures no { result ≡ false → jam_in word < 4 }
{
    word / DISPATCH % 2 == 1
}

/// What left the ALU and the shifter for a word with this on its sides.
pub fn computed_of(word: u64, a: u32, b: u32) -> Computed
    requires { IsTrue (is_canonical Mic2 word) }
    ensures { result ≡ value_of (statement_of Mic2 word) (alu (statement_of Mic2 word).part.op a b) }
{
    word_law(Machine::Mic2);
    each_row_computes();
    let controls = Controls::from_bits(bits::gates(Machine::Mic2, word));
    let value = alu(controls, a, b).value;
    flagged(value, shift_for(word, value))
}

impl Control {
    /// Its word, with its control lines.
    pub fn is_decoded(&self)
        ensures { IsDecoded self.now.word self.now.lines }
    {}

    /// Its destinations, a bit for each register.
    #[inline(always)]
    #[tactic(auto, unfolding(micro_word::specs::Coding::statement_of))]
    pub fn destinations(&self) -> u16
        ensures value { result ≡ (statement_of Mic2 self.now.word).part.dests }
        ensures within { result < 512 }
        ensures slots { AreSlots result self.now.lines.first self.now.lines.second self.now.lines.further }
    {
        bits::destinations(Machine::Mic2, self.word)
    }

    /// JMPC JAMN JAMZ
    #[inline(always)]
    pub fn jam(&self) -> u8
        ensures value { result ≡ jam_bits (statement_of Mic2 self.now.word).next }
        ensures addr { self.now.lines.addr ≡ addr_bits (statement_of Mic2 self.now.word).next }
    {
        word_law(Machine::Mic2);
        bits::jam(Machine::Mic2, self.word)
    }

    /// Where it goes next, with this value out of the ALU and this byte for a dispatch.
    #[inline(always)]
    pub fn target(&self, value: u32, byte: u8) -> u16
        ensures next { result ≡ next_address (statement_of Mic2 self.now.word).next value byte }
        ensures small { result < 512 }
    {
        word_law(Machine::Mic2);
        statement_law(Machine::Mic2);
        next_address(self.lines.addr, self.jam(), value, byte)
    }
}
