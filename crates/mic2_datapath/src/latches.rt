//! What Mic-2 keeps between cycles.

ghost use Rattle.std.specs.Prelude.{◌≡◌, ◌≢◌, ◌≤◌, ◌<◌, ◌*◌, ◌+◌, ℕ, None, OnOk, OnErr, IfNone, IfSome, IsTrue, length, slice_index, true};
ghost use Rattle.mic2_datapath.specs.Common.{before, signed_byte, signed_pair, Mic2, PlacedNext, addr_bits, jam_bits, statement_of, fields_of, is_canonical};
ghost use Rattle.mic2_datapath.specs.Common.{is_next, AreSlots, shifted, ChangesOnly, FailsAsRefused, GoesTo, next_address, registers_at, loaded, ports_given};
ghost use Rattle.mic2_datapath.specs.Common.{edge_refusal, sample_refusal};
ghost use Rattle.mic2_datapath.specs.Mic2.{initial as initial_of, registers_of};
ghost use Rattle.mic2_datapath.specs.Microstep.{HasUnitEdge, advanced, byte_at, dispatch_bytes, is_to_instruction, moved_on, past, result_of, source, stalled, unit_refusal, unit_refused, unit_samples};
ghost use Rattle.mic2_datapath.specs.Latches.{AreLatches, HasFront, IsDecoded, IsInside, jam_in, loaded_in, micro_in};

use crate::accesses::is_there;
use crate::control::{JMPC, dispatches, is_plain, loads_mar, loads_mdr, loads_pc, reads};
use console_port::{Bus, BusFault};
use mic_clock::{Registers, Start, Tail};
use mic_datapath::{
    Places, Ports, arrived, next_address, port, read_alone, settle, sign_extended, write_alone,
};
use mic2_fetch_unit::FetchUnit;
use micro_word::{Lines, Machine, Mem, bits, is_named, statement_law, word_law};

/// The places of the registers that the memory's ports are given, and of the front of the queue in its four forms.
const MAR: u8 = 0;

const MDR: u8 = 1;

pub const PC: u8 = 2;

const MBR1: usize = 9;

const MBR1U: usize = 10;

const MBR2: usize = 11;

const MBR2U: usize = 12;

#[derive(Drop)]
pub struct Latches {
    pub unit: FetchUnit,
    /// The memory word that the next edge loads into MDR.
    pub word: Option<u32>,
    pub mpc: u16,
    /// Whether the cycle before went to an instruction's first word.
    pub begins: bool,
    /// Last, so that what is reached by index stands apart from the rest.
    pub places: Places,
}

/// The words on the sides A and B.
#[derive(Clone, Copy, Debug, PartialEq, Eq)]
pub struct Operands {
    pub a: u32,
    pub b: u32,
}

#[tactic(auto, unfolding(mic_words::specs::Arithmetic::signed_pair))]
fn sign_extended_pair(pair: u16) -> u32
    ensures { (high low : ℕ) → low < 256 → pair ≡ 256 * high + low → result ≡ signed_pair high low }
{
    (pair.wrapping_add(0x8000) as u32).wrapping_sub(0x8000)
}

/// Puts the first byte of the queue on its two places.
fn show_byte(first: u8, places: &mut Places)
    ensures byte { slice_index places.new 9 ≡ signed_byte first }
    ensures unsigned { slice_index places.new 10 ≡ first }
    ensures others { (k : ℕ) → k ≢ 9 → k ≢ 10 → slice_index places.new k ≡ slice_index places.old k }
{
    places[MBR1] = sign_extended(first);
    places[MBR1U] = first as u32;
}

/// Puts the number of the first two bytes on its two places.
fn show_pair(pair: u16, places: &mut Places)
    ensures pair { (high low : ℕ) → low < 256 → pair ≡ 256 * high + low → slice_index places.new 11 ≡ signed_pair high low }
    ensures unsigned { slice_index places.new 12 ≡ pair }
    ensures others { (k : ℕ) → k ≢ 11 → k ≢ 12 → slice_index places.new k ≡ slice_index places.old k }
{
    places[MBR2] = sign_extended_pair(pair);
    places[MBR2U] = pair as u32;
}

/// PC past the bytes that are taken.
#[tactic(auto, unfolding(mic_words::specs::Arithmetic::wrap))]
pub fn pc_after(pc: u32, taken: u8) -> u32
    ensures { result ≡ advanced taken pc }
{
    pc.wrapping_add(taken as u32)
}

/// PC goes on past the bytes that are taken.
pub fn go_past(taken: u8, places: &mut Places)
    ensures registers { registers_at places.new ≡ past taken (registers_at places.old) }
    ensures others { (k : ℕ) → 9 ≤ k → slice_index places.new k ≡ slice_index places.old k }
{
    places[PC as usize] = pc_after(places[PC as usize], taken);
}

/// The registers at a clock edge: PC goes on, those that are named become the value on the C bus, and then a word that was read arrives.
pub fn load(
    destinations: u16,
    lines: &Lines,
    c: u32,
    taken: u8,
    arriving: Option<u32>,
    places: &mut Places,
)
    requires { AreSlots destinations lines.now.first lines.now.second lines.now.further }
    ensures registers { registers_at places.new ≡ loaded destinations c arriving (past taken (registers_at places.old)) }
    ensures others { (k : ℕ) → 9 ≤ k → k < 15 → slice_index places.new k ≡ slice_index places.old k }
{
    go_past(taken, places);
    settle(destinations, lines, c, arriving, places);
}

/// The fetch unit at a clock edge: it jumps to PC, or this many bytes are taken. An Err leaves it as it was.
#[inline(always)]
#[tactic(auto, unfolding(mic2_fetch_unit::specs::FetchUnit::edge_refusal))]
pub fn go(jumps: bool, pc: u32, taken: u8, bus: &Bus, unit: &mut FetchUnit) -> Result<(), BusFault>
    requires there { taken ≤ length unit.old.bytes }
    ensures { HasUnitEdge jumps bus.now.words pc taken unit.old unit.new result }
{
    if jumps {
        unit.jump(pc, bus)
    } else {
        unit.edge(taken, bus)
    }
}

/// Whether a statement with these bits goes to an instruction's first word.
fn is_first(jam: u8, addr: u16) -> bool
    ensures { (n : PlacedNext) → jam ≡ jam_bits n → addr ≡ addr_bits n → result ≡ is_to_instruction n }
{
    jam == JMPC && addr == 0
}

/// Where a cycle goes on.
#[derive(Clone, Copy, Debug, PartialEq, Eq)]
struct Onward {
    mpc: u16,
    begins: bool,
}

/// Where a word goes on that dispatches nothing.
fn straight_on(jam: u8, addr: u16, value: u32) -> Onward
    requires addr { addr < 512 }
    requires jam { jam ≢ JMPC }
    ensures mpc { (byte : ℕ) → GoesTo addr jam value byte result.mpc }
    ensures small { result.mpc < 512 }
    ensures begins { (n : PlacedNext) → jam ≡ jam_bits n → addr ≡ addr_bits n → result.begins ≡ is_to_instruction n }
{
    let mpc = next_address(addr, jam, value, 0);
    let begins = is_first(jam, addr);
    Onward { mpc, begins }
}

impl Latches {
    /// As a reset leaves them.
    pub fn initial(start: &Start) -> Latches
        requires { start.now.entry < 512 }
        ensures micro { micro_in result ≡ initial_of start.now }
        ensures latches { AreLatches result }
    {
        Latches {
            places: [
                0, 0, 0, start.sp, 0x8000, 0x4000, 0, 0, 0, 0, 0, 0, 0, 0, 0, 0,
            ],
            unit: FetchUnit::new(start.first),
            word: None,
            mpc: start.entry,
            begins: false,
        }
    }

    #[inline(always)]
    pub fn registers(&self) -> Registers
        requires { AreLatches self.now }
        ensures value { result ≡ registers_of (micro_in self.now) }
        ensures mpc { result.mpc < 512 }
    {
        let places = self.places;
        Registers {
            mar: places[0],
            mdr: places[1],
            pc: places[2],
            sp: places[3],
            lv: places[4],
            cpp: places[5],
            tos: places[6],
            opc: places[7],
            h: places[8],
            mpc: self.mpc,
            tail: Tail::Queue {
                bytes: self.unit.bytes(),
                imar: self.unit.imar(),
            },
        }
    }

    /// The byte address of the instruction at a boundary.
    #[tactic(auto, unfolding(mic_words::specs::Arithmetic::wrap))]
    pub fn instruction_address(&self) -> u32
        ensures { result ≡ before (micro_in self.now).pc }
    {
        self.places[PC as usize].wrapping_sub(1)
    }

    /// Shows the front of the queue on its places: one byte where at least one is taken, and two where more are.
    #[inline(always)]
    pub fn show_front(&mut self, takes: u8)
        requires latches { AreLatches self.old }
        requires there { takes ≤ length self.old.unit.bytes }
        ensures latches { AreLatches self.new }
        ensures micro { micro_in self.new ≡ micro_in self.old }
        ensures front { HasFront takes self.new }
    {
        if takes == 0 {
            return;
        }
        show_byte(self.unit.one(), &mut self.places);
        let two = takes > 1;
        if two {
            show_pair(self.unit.two(), &mut self.places);
        }
    }

    /// What is on both sides of a word that finds the bytes that it takes.
    #[inline(always)]
    pub fn operands(&mut self, _word: u64, lines: &Lines) -> Operands
        requires latches { AreLatches self.old }
        requires decoded { IsDecoded _word lines.now }
        requires there { lines.now.takes ≤ length self.old.unit.bytes }
        ensures latches { AreLatches self.new }
        ensures micro { micro_in self.new ≡ micro_in self.old }
        ensures a { result.a ≡ source (statement_of Mic2 _word).part.a (micro_in self.old) }
        ensures b { result.b ≡ source (statement_of Mic2 _word).part.b (micro_in self.old) }
    {
        word_law(Machine::Mic2);
        statement_law(Machine::Mic2);
        self.show_front(lines.takes);
        Operands {
            a: self.places[lines.a as usize],
            b: self.places[lines.b as usize],
        }
    }

    /// What the memory's ports are given: their registers as they become.
    pub fn ports(&self, c: u16, value: u32, taken: u8) -> Ports
        ensures { result ≡ ports_given (loaded c value self.now.word (past taken (registers_at self.now.places))) }
    {
        let mar = self.mar_port(c, value);
        let mdr = self.mdr_port(c, value);
        let pc = if is_named(c, PC) {
            value
        } else {
            pc_after(self.places[PC as usize], taken)
        };
        Ports { mar, mdr, pc }
    }

    /// The address that the word port is given.
    pub fn mar_port(&self, c: u16, value: u32) -> u32
        ensures { result ≡ (loaded c value self.now.word (registers_at self.now.places)).mar }
    {
        port(c, MAR, value, &self.places)
    }

    /// The word that the word port is given.
    pub fn mdr_port(&self, c: u16, value: u32) -> u32
        ensures { result ≡ (loaded c value self.now.word (registers_at self.now.places)).mdr }
    {
        let there = port(c, MDR, value, &self.places);
        arrived(self.word, there)
    }

    /// The address that the word port is given for a word.
    #[inline(always)]
    fn mar_for(&self, word: u64, value: u32) -> u32
        ensures { result ≡ (loaded_in word value self.now).mar }
    {
        if loads_mar(word) {
            value
        } else {
            self.places[MAR as usize]
        }
    }

    /// The word that the word port is given for a word.
    #[inline(always)]
    fn mdr_for(&self, word: u64, value: u32) -> u32
        ensures { result ≡ (loaded_in word value self.now).mdr }
    {
        let there = if loads_mdr(word) {
            value
        } else {
            self.places[MDR as usize]
        };
        arrived(self.word, there)
    }

    /// The word address that the fetch unit samples, if it samples one: where it jumps, that of the new PC.
    #[tactic(auto, unfolding(mic2_fetch_unit::specs::FetchUnit::edge_refusal))]
    pub fn will_fetch(&self, jumps: bool, pc: u32, taken: u8) -> Option<u32>
        requires { taken ≤ length self.now.unit.bytes }
        ensures value { result ≡ unit_samples jumps pc taken self.now.unit }
        ensures refusal { (n : ℕ) → sample_refusal n result ≡ unit_refusal jumps n pc taken self.now.unit }
    {
        if jumps {
            Some(pc / 4)
        } else {
            self.unit.will_fetch(taken)
        }
    }

    /// Whether what the unit samples is in memory, if it samples something.
    #[inline(always)]
    fn samples_memory(&self, jumps: bool, pc: u32, taken: u8, bus: &Bus) -> bool
        requires { taken ≤ length self.now.unit.bytes }
        ensures { result ≡ true → sample_refusal (length bus.now.words) (unit_samples jumps pc taken self.now.unit) ≡ None }
    {
        if jumps {
            return is_there(Some(pc / 4), bus);
        }
        // Most edges sample nothing.
        self.unit.is_full(taken) || is_there(self.unit.will_fetch(taken), bus)
    }

    /// The access of a word that has one, where it reaches only memory or is a write to a console that has room, and what a
    /// read samples; else nothing is done.
    #[inline(always)]
    pub fn access_inside(&self, word: u64, c: u32, taken: u8, bus: &mut Bus) -> Option<Option<u32>>
        requires canonical { IsTrue (is_canonical Mic2 word) }
        requires accesses { (fields_of Mic2 word).mem ≢ 0 }
        requires there { taken ≤ length self.now.unit.bytes }
        ensures inside { IfSome result (IsInside word c taken self.now bus.old bus.new) }
        ensures none { IfNone result (bus.new ≡ bus.old) }
        ensures others { ChangesOnly (loaded_in word c self.now).mar bus.old.words bus.new.words }
        ensures ended { bus.new.console.ended ≡ bus.old.console.ended }
    {
        let mar = self.mar_for(word, c);
        if reads(word) {
            if !bus.has(mar) {
                return None;
            }
            let sampled = read_alone(mar, bus);
            return Some(sampled.word);
        }
        if !self.samples_memory(loads_pc(word), c, taken, bus) {
            return None;
        }
        let mdr = self.mdr_for(word, c);
        if !write_alone(mar, mdr, bus) {
            return None;
        }
        Some(None)
    }

    /// A cycle in which the machine waits for bytes. An Err leaves everything as it was.
    pub fn stall(&mut self, bus: &Bus) -> Result<(), BusFault>
        requires { AreLatches self.old }
        ensures latches { AreLatches self.new }
        ensures ok { OnOk result (micro_in self.new ≡ stalled bus.now.words (micro_in self.old)) }
        ensures allowed { OnOk result (edge_refusal (length bus.now.words) 0 self.old.unit ≡ None) }
        ensures err { FailsAsRefused (edge_refusal (length bus.now.words) 0 self.old.unit) result }
        ensures state { OnErr result (micro_in self.new ≡ micro_in self.old) }
    {
        self.unit.edge(0, bus)?;
        self.begins = false;
        Ok(())
    }

    /// Where a word goes on. A dispatch takes the last of the bytes that its word takes.
    #[inline(always)]
    fn goes_on(&self, word: u64, addr: u16, takes: u8, value: u32) -> Onward
        requires addr { addr < 512 }
        requires there { takes ≤ length self.now.unit.bytes }
        requires some { 4 ≤ jam_in word → 1 ≤ takes }
        ensures mpc { (n : PlacedNext) (operands : ℕ) → IsTrue (is_next n) → addr ≡ addr_bits n → jam_in word ≡ jam_bits n →
            takes ≡ operands + dispatch_bytes n → result.mpc ≡ next_address n value (byte_at self.now.unit operands) }
        ensures small { result.mpc < 512 }
        ensures begins { (n : PlacedNext) → jam_in word ≡ jam_bits n → addr ≡ addr_bits n → result.begins ≡ is_to_instruction n }
    {
        if is_plain(word) {
            return straight_on(0, addr, value);
        }
        if dispatches(word) {
            let byte = self.unit.byte_at(takes - 1);
            let mpc = next_address(addr, JMPC, value, byte);
            let begins = is_first(JMPC, addr);
            return Onward { mpc, begins };
        }
        straight_on(bits::jam(Machine::Mic2, word), addr, value)
    }

    /// The edge of a cycle that does not stall, after its accesses, with what they read under way. An Err leaves all as is.
    #[inline(always)]
    pub fn advance(
        &mut self,
        word: u64,
        lines: &Lines,
        value: u32,
        c: u32,
        sampled: Option<u32>,
        bus: &Bus,
    ) -> Result<(), BusFault>
        requires latches { AreLatches self.old × (lines.now.takes ≤ length self.old.unit.bytes) }
        requires decoded { IsDecoded word lines.now }
        requires value { value ≡ result_of (statement_of Mic2 word).part (micro_in self.old) }
        requires c { c ≡ shifted (statement_of Mic2 word).part.shift value }
        ensures latches { AreLatches self.new }
        ensures ok { OnOk result (micro_in self.new ≡ moved_on (statement_of Mic2 word) (micro_in self.old) value bus.now.words sampled) }
        ensures allowed { OnOk result (unit_refused (length bus.now.words) (statement_of Mic2 word) (micro_in self.old) ≡ None) }
        ensures err { FailsAsRefused (unit_refused (length bus.now.words) (statement_of Mic2 word) (micro_in self.old)) result }
        ensures state { OnErr result (micro_in self.new ≡ micro_in self.old) }
    {
        word_law(Machine::Mic2);
        statement_law(Machine::Mic2);
        let takes = lines.takes;
        let next = self.goes_on(word, lines.addr, takes, value);
        go(loads_pc(word), c, takes, bus, &mut self.unit)?;
        let destinations = bits::destinations(Machine::Mic2, word);
        load(destinations, lines, c, takes, self.word, &mut self.places);
        self.mpc = next.mpc;
        self.word = sampled;
        self.begins = next.begins;
        Ok(())
    }
}
