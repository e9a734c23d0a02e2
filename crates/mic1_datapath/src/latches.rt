//! What Mic-1 keeps between cycles.

ghost use Rattle.std.specs.Prelude.{◌≡◌, ◌≢◌, ◌<◌, ℕ, IsTrue, is_some, slice_index, unwrap_or, true, false};
ghost use Rattle.mic1_datapath.specs.Common.{Mic1, is_canonical, mem_of, statement_of, fields_of, AreLines, shifted, GoesTo, arrived as arrived_of};
ghost use Rattle.mic1_datapath.specs.Mic1.{initial as initial_of};
ghost use Rattle.mic1_datapath.specs.Cycle.{IsLast, moved_on, ports_at};
ghost use Rattle.mic1_datapath.specs.Microstep.{result_of};
ghost use Rattle.mic1_datapath.specs.Latches.{AreLatches, HasSignedMbr, access_by, micro_in, reads, fetches, under_way};

use mic_clock::Start;
use mic_datapath::{
    Places, Ports, Sampled, arrive, arrived, next_address, port, settle, sign_extended,
};
use micro_word::{Lines, Machine, Mem, bits, statement_law, word_law};

/// The word of `goto 0x000`, which reads and fetches nothing.
const IDLE: u64 = 0x10_0009;

/// The places of the registers that the memory's ports are given, and of the two forms of MBR.
const MAR: u8 = 0;

const MDR: u8 = 1;

const PC: u8 = 2;

const MBR: usize = 9;

const MBRU: usize = 10;

#[derive(Clone, Copy, Debug, PartialEq, Eq)]
pub struct Latches {
    pub places: Places,
    /// The microinstruction that was clocked last. It decides whether `word` and `byte` arrive at the next edge.
    pub before: u64,
    pub word: u32,
    pub byte: u8,
    pub mpc: u16,
    /// The address of Main1, where instructions begin. No microstep changes it.
    pub entry: u16,
    /// Whether a cycle was clocked since the reset.
    pub clocked: bool,
}

/// Whether a word reads. No canonical word reads and writes, so one bit decides.
pub fn is_read(word: u64) -> bool
    requires { IsTrue (is_canonical Mic1 word) }
    ensures reads { result ≡ reads word }
    ensures mem { (fields_of Mic1 word).mem ≢ 0 → mem_of (fields_of Mic1 word).mem ≡ access_by result }
{
    word_law(Machine::Mic1);
    bits::mem(Machine::Mic1, word) % 2 == 1
}

fn taken(is: bool, word: u32) -> Option<u32>
    ensures { result ≡ under_way is word }
{
    if is { Some(word) } else { None }
}

fn taken_byte(is: bool, byte: u8) -> Option<u8>
    ensures { result ≡ under_way is byte }
{
    if is { Some(byte) } else { None }
}

/// Keeps what was sampled, if something was.
fn take(sampled: Option<u32>, kept: &mut u32)
    ensures { kept.new ≡ unwrap_or sampled kept.old }
{
    if let Some(word) = sampled {
        *kept = word;
    }
}

fn take_byte(sampled: Option<u8>, kept: &mut u8)
    ensures { kept.new ≡ unwrap_or sampled kept.old }
{
    if let Some(byte) = sampled {
        *kept = byte;
    }
}

/// A byte that arrives becomes MBR, in both its forms.
fn load_mbr(byte: Option<u8>, places: &mut Places)
    ensures mbru { slice_index places.new 10 ≡ arrived_of byte (slice_index places.old 10) }
    ensures mbr { HasSignedMbr places.old → HasSignedMbr places.new }
    ensures byte { slice_index places.old 10 < 256 → slice_index places.new 10 < 256 }
    ensures others { (k : ℕ) → k ≢ 9 → k ≢ 10 → slice_index places.new k ≡ slice_index places.old k }
{
    if let Some(byte) = byte {
        places[MBR] = sign_extended(byte);
        places[MBRU] = byte as u32;
    }
}

/// Whether a word neither reads nor fetches, so that nothing arrives after it.
fn brings_nothing(word: u64) -> bool
    ensures { result ≡ true → (reads word ≡ false) × (fetches word ≡ false) }
{
    word / 16 % 4 == 0
}

/// What the word before brings becomes MDR, whatever the C bus put there, and MBR.
#[inline(always)]
fn arrive_after(before: u64, word: u32, byte: u8, places: &mut Places)
    requires { IsTrue (is_canonical Mic1 before) }
    ensures mdr { slice_index places.new 1 ≡ arrived_of (under_way (reads before) word) (slice_index places.old 1) }
    ensures mbru { slice_index places.new 10 ≡ arrived_of (under_way (fetches before) byte) (slice_index places.old 10) }
    ensures mbr { HasSignedMbr places.old → HasSignedMbr places.new }
    ensures byte { slice_index places.old 10 < 256 → slice_index places.new 10 < 256 }
    ensures others { (k : ℕ) → k ≢ 1 → k ≢ 9 → k ≢ 10 → slice_index places.new k ≡ slice_index places.old k }
{
    // Most words bring nothing.
    if brings_nothing(before) {
        return;
    }
    arrive(taken(is_read(before), word), places);
    let fetches = bits::fetch(Machine::Mic1, before);
    load_mbr(taken_byte(fetches, byte), places);
}

/// The lowest bit of the field JMPC JAMN JAMZ.
const JAM: u64 = 0x100_0000;

/// Where a word goes on, with this value out of the ALU and this byte for a dispatch.
#[inline(always)]
fn goes_on(word: u64, addr: u16, value: u32, byte: u8) -> u16
    requires { addr < 512 }
    ensures next { GoesTo addr (fields_of Mic1 word).jam value byte result }
    ensures small { result < 512 }
{
    // Most words go on to Addr. The word itself shows it faster than its field does.
    let plain = word / JAM % 8 == 0;
    if plain {
        return next_address(addr, 0, value, byte);
    }
    next_address(addr, bits::jam(Machine::Mic1, word), value, byte)
}

impl Latches {
    /// As a reset leaves them.
    #[tactic(auto, unfolding(mic_words::specs::Arithmetic::signed_byte, micro_word::specs::Words::is_canonical, micro_word::specs::Coding::statement_of))]
    pub fn initial(start: &Start) -> Latches
        requires { start.now.entry < 512 }
        ensures micro { micro_in result ≡ initial_of start.now }
        ensures latches { AreLatches result }
    {
        Latches {
            places: [
                0,
                0,
                0xFFFF_FFFF,
                start.sp,
                0x8000,
                0x4000,
                0,
                0,
                0,
                0,
                0,
                0,
                0,
                0,
                0,
                0,
            ],
            before: IDLE,
            word: 0,
            byte: 0,
            mpc: start.entry,
            entry: start.entry,
            clocked: false,
        }
    }

    /// The word that arrives at this edge.
    fn arriving(&self) -> Option<u32>
        requires { AreLatches self.now }
        ensures { result ≡ under_way (reads self.now.before) self.now.word }
    {
        taken(is_read(self.before), self.word)
    }

    /// What the memory's ports are given at the edge of a word: their registers as they become.
    pub fn ports(&self, word: u64, c: u32) -> Ports
        requires { AreLatches self.now }
        ensures { result ≡ ports_at word c (micro_in self.now) }
    {
        let mar = self.mar_port(word, c);
        let mdr = self.mdr_port(word, c);
        let pc = self.pc_port(word, c);
        Ports { mar, mdr, pc }
    }

    /// The address that the word port is given.
    pub fn mar_port(&self, word: u64, c: u32) -> u32
        ensures { result ≡ (ports_at word c (micro_in self.now)).mar }
    {
        port(
            bits::destinations(Machine::Mic1, word),
            MAR,
            c,
            &self.places,
        )
    }

    /// The word that the word port is given.
    pub fn mdr_port(&self, word: u64, c: u32) -> u32
        requires { AreLatches self.now }
        ensures { result ≡ (ports_at word c (micro_in self.now)).mdr }
    {
        let there = port(
            bits::destinations(Machine::Mic1, word),
            MDR,
            c,
            &self.places,
        );
        arrived(self.arriving(), there)
    }

    /// The address that the byte port is given.
    pub fn pc_port(&self, word: u64, c: u32) -> u32
        ensures { result ≡ (ports_at word c (micro_in self.now)).pc }
    {
        port(bits::destinations(Machine::Mic1, word), PC, c, &self.places)
    }

    /// Moves the registers and MPC on after a clocked word, with what its accesses sampled under way.
    #[inline(always)]
    pub fn advance(&mut self, word: u64, lines: &Lines, value: u32, c: u32, sampled: Sampled)
        requires latches { AreLatches self.old }
        requires word { IsTrue (is_canonical Mic1 word) }
        requires lines { AreLines Mic1 (fields_of Mic1 word) lines.now }
        requires value { value ≡ result_of (statement_of Mic1 word).part (micro_in self.old) }
        requires c { c ≡ shifted (statement_of Mic1 word).part.shift value }
        requires sampled { (is_some sampled.word ≡ reads word) × (is_some sampled.byte ≡ fetches word) }
        ensures latches { AreLatches self.new }
        ensures micro { micro_in self.new ≡ moved_on word value (micro_in self.old) sampled.word sampled.byte }
        ensures last { IsLast word self.new }
    {
        word_law(Machine::Mic1);
        statement_law(Machine::Mic1);
        settle(
            bits::destinations(Machine::Mic1, word),
            lines,
            c,
            None,
            &mut self.places,
        );
        arrive_after(self.before, self.word, self.byte, &mut self.places);
        self.mpc = goes_on(word, lines.addr, value, self.places[MBRU] as u8);
        take(sampled.word, &mut self.word);
        take_byte(sampled.byte, &mut self.byte);
        self.before = word;
        self.clocked = true;
    }

    /// Stores once more that a cycle was clocked. Where all ways of an edge have met, what follows then has no need to load it.
    #[inline(always)]
    pub fn stay_clocked(&mut self)
        requires { self.old.clocked ≡ true }
        ensures { self.new ≡ self.old }
    {
        self.clocked = true;
    }
}
