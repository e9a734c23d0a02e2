//! What Mic-3 keeps between cycles.

ghost use Rattle.std.specs.Prelude.{◌≡◌, ◌<◌, ◌≤◌, ℕ, OnOk, OnErr, length, slice_index};
ghost use Rattle.mic3_datapath.specs.Common.{FailsAsRefused, Mic2, statement_of, IsDecoded, registers_at, ports_given};
ghost use Rattle.mic2_datapath.specs.Prelude.{AreLatches, demand, past, unit_after, spelled};
ghost use Rattle.mic3_datapath.specs.Cycle.{begins, bytes_leaving, computed, dispatched_from, from_computed, from_issued, from_retired, is_jump_coming, issued, mem_in, mpc_after, retired, settled, waits};
ghost use Rattle.mic3_datapath.specs.Mic3.{driven, driven_by, initial as initial_of, values_of};
ghost use Rattle.mic3_datapath.specs.Slots.{IsAsked, edged, in_operand, in_result, pipeline_in, retired_in, retiring, unit_refused, word_held};

use crate::hazards::{is_branch, is_held_up, is_to_instruction, jumps_now};
use crate::slots::{OperandSlot, ResultSlot};
use console_port::{Bus, BusFault};
use mic_clock::{Computed, Drive, Start};
use mic_datapath::{Places, Ports};
use mic2_datapath::{
    Control, Latches, Operands, demand_law, flagged, go, go_past, load, mem_for, operate_for,
    pc_after, shift_for,
};
use mic2_fetch_unit::FetchUnit;
use micro_word::{Lines, Mem};

/// JMPC
const JMPC: u8 = 4;

/// The places of the registers that the memory's ports are given.
const MAR: usize = 0;

const MDR: usize = 1;

const PC: usize = 2;

/// The registers and the fetch unit of Mic-2, and the two slots.
#[derive(Drop)]
pub struct Pipeline {
    pub operand: Option<OperandSlot>,
    pub result: Option<ResultSlot>,
    pub latches: Latches,
}

/// What a cycle asks of the bus: the access of the word that retires, and the word address that the fetch unit samples.
#[derive(Clone, Copy)]
pub struct Asked {
    pub mem: Mem,
    pub ports: Ports,
    pub at: Option<u32>,
}

/// How many bytes leave the queue.
#[inline(always)]
fn bytes_leaving(to_issue: Option<OperandSlot>) -> u8
    ensures { result ≡ bytes_leaving (in_operand to_issue) }
{
    match to_issue {
        Some(slot) => slot.control.lines.takes,
        None => 0,
    }
}

/// The access of the word that retires.
#[inline(always)]
fn mem_in(slot: Option<ResultSlot>) -> Mem
    ensures { result ≡ mem_in (in_result slot) }
{
    match slot {
        Some(slot) => mem_for(slot.control.word),
        None => Mem::None,
    }
}

/// Whether a word waits.
#[inline(always)]
fn waits(control: &Control, pipeline: &Pipeline) -> bool
    ensures { result ≡ waits (spelled control.now) (pipeline_in pipeline.now) }
{
    is_held_up(
        control,
        pipeline.latches.word,
        pipeline.operand,
        pipeline.result,
    ) || pipeline.latches.unit.have() < control.lines.takes
}

/// The byte that a word dispatches to: the last of those that it takes.
#[inline(always)]
fn dispatched(control: &Control, unit: &FetchUnit) -> u8
    requires { demand (spelled control.now) ≤ length unit.now.bytes }
    ensures { result ≡ dispatched_from (spelled control.now) unit.now }
{
    let dispatches = control.jam() == JMPC;
    if dispatches {
        unit.byte_at(control.lines.takes - 1)
    } else {
        0
    }
}

/// The registers after the edge: PC goes on by this many bytes, and the word in the result slot retires.
#[inline(always)]
fn retire(slot: Option<ResultSlot>, taken: u8, arriving: Option<u32>, places: &mut Places)
    ensures registers { registers_at places.new ≡ retired (in_result slot) arriving (past taken (registers_at places.old)) }
    ensures others { (k : ℕ) → 9 ≤ k → k < 15 → slice_index places.new k ≡ slice_index places.old k }
{
    match slot {
        Some(slot) => load(
            slot.control.destinations(),
            &slot.control.lines,
            slot.value,
            taken,
            arriving,
            places,
        ),
        None => go_past(taken, places),
    }
}

/// The fetch unit jumps where the word in the result slot loads PC, and has its edge otherwise. An Err leaves it.
#[inline(always)]
fn clock_unit(
    slot: Option<ResultSlot>,
    pc: u32,
    taken: u8,
    bus: &Bus,
    unit: &mut FetchUnit,
) -> Result<(), BusFault>
    requires { taken ≤ length unit.old.bytes }
    ensures ok { OnOk result (unit.new ≡ unit_after (is_jump_coming (retiring slot)) bus.now.words pc taken unit.old) }
    ensures err { FailsAsRefused (unit_refused (length bus.now.words) slot pc taken unit.old) result }
    ensures stays { OnErr result (unit.new ≡ unit.old) }
{
    let jumps = jumps_now(slot);
    go(jumps, pc, taken, bus, unit)
}

/// The word under way after an edge whose access sampled this.
#[inline(always)]
fn held(slot: Option<ResultSlot>, word: Option<u32>, sampled: Option<u32>) -> Option<u32>
    ensures { result ≡ word_held (in_result slot) word sampled }
{
    match slot {
        Some(_) => sampled,
        None => word,
    }
}

/// The word in the operand slot moves on, with what is on the C bus.
#[inline(always)]
fn moved_on(operand: Option<OperandSlot>, c: u32) -> Option<ResultSlot>
    requires { c ≡ (values_of (in_operand operand)).c }
    ensures { in_result result ≡ computed (in_operand operand) }
{
    match operand {
        Some(slot) => Some(ResultSlot {
            control: slot.control,
            value: c,
            byte: slot.byte,
        }),
        None => None,
    }
}

#[inline(always)]
fn from_retired(slot: Option<ResultSlot>, mpc: u16) -> u16
    requires { mpc < 512 }
    ensures value { result ≡ from_retired (in_result slot) mpc }
    ensures small { result < 512 }
{
    match slot {
        Some(slot) => {
            if is_to_instruction(&slot.control) {
                slot.control.target(0, slot.byte)
            } else {
                mpc
            }
        }
        None => mpc,
    }
}

#[inline(always)]
fn from_computed(operand: Option<OperandSlot>, value: u32, mpc: u16) -> u16
    requires mpc { mpc < 512 }
    requires value { value ≡ (values_of (in_operand operand)).alu.value }
    ensures value { result ≡ from_computed (in_operand operand) mpc }
    ensures small { result < 512 }
{
    match operand {
        Some(slot) => {
            if is_branch(&slot.control) {
                slot.control.target(value, 0)
            } else {
                mpc
            }
        }
        None => mpc,
    }
}

#[inline(always)]
fn from_issued(to_issue: Option<OperandSlot>, mpc: u16) -> u16
    requires { mpc < 512 }
    ensures value { result ≡ from_issued (in_operand to_issue) mpc }
    ensures small { result < 512 }
{
    match to_issue {
        Some(slot) => {
            if is_branch(&slot.control) || is_to_instruction(&slot.control) {
                mpc
            } else {
                slot.control.target(0, slot.byte)
            }
        }
        None => mpc,
    }
}

/// Whether an instruction begins.
#[inline(always)]
fn begins(slot: Option<ResultSlot>) -> bool
    ensures { result ≡ begins (in_result slot) }
{
    match slot {
        Some(slot) => is_to_instruction(&slot.control),
        None => false,
    }
}

/// MPC after the edge.
#[inline(always)]
fn mpc_after(to_issue: Option<OperandSlot>, pipeline: &Pipeline, value: u32) -> u16
    requires mpc { pipeline.now.latches.mpc < 512 }
    requires value { value ≡ (values_of (in_operand pipeline.now.operand)).alu.value }
    ensures value { result ≡ mpc_after (in_operand to_issue) (pipeline_in pipeline.now) }
    ensures small { result < 512 }
{
    let mpc = from_retired(pipeline.result, pipeline.latches.mpc);
    let mpc = from_computed(pipeline.operand, value, mpc);
    from_issued(to_issue, mpc)
}

/// What is on the operand buses for the word that issues.
#[inline(always)]
pub fn driven_by(to_issue: Option<OperandSlot>) -> Drive
    ensures { result ≡ driven_by (in_operand to_issue) }
{
    match to_issue {
        Some(slot) => Drive {
            a: slot.a,
            b: slot.b,
            stalled: false,
        },
        None => Drive::STALLED,
    }
}

/// What leaves the ALU and the shifter for the word in the operand slot.
#[inline(always)]
pub fn values_of(operand: Option<OperandSlot>) -> Computed
    ensures { result ≡ values_of (in_operand operand) }
{
    match operand {
        Some(slot) => {
            let Control { word, lines } = slot.control;
            slot.control.is_decoded();
            let value = operate_for(word, &lines, slot.a, slot.b);
            flagged(value, shift_for(word, value))
        }
        None => Computed::ZERO,
    }
}

impl Pipeline {
    /// As a reset leaves it.
    pub fn initial(start: &Start) -> Pipeline
        requires { start.now.entry < 512 }
        ensures pipeline { pipeline_in result ≡ initial_of start.now }
        ensures latches { AreLatches result.latches }
    {
        Pipeline {
            operand: None,
            result: None,
            latches: Latches::initial(start),
        }
    }

    /// What is on the operand buses: the words on the sides of a word that issues.
    #[inline(always)]
    pub fn drive(&mut self, word: u64, lines: &Lines) -> Drive
        requires latches { AreLatches self.old.latches }
        requires decoded { IsDecoded Mic2 word lines.now }
        ensures value { result ≡ driven word (pipeline_in self.old) }
        ensures pipeline { pipeline_in self.new ≡ pipeline_in self.old }
        ensures latches { AreLatches self.new.latches }
    {
        demand_law(word, lines);
        let control = Control {
            word,
            lines: *lines,
        };
        let waits = waits(&control, self);
        if waits {
            return Drive::STALLED;
        }
        let Operands { a, b } = self.latches.operands(word, lines);
        Drive {
            a,
            b,
            stalled: false,
        }
    }

    /// A word that has driven this issues, unless it waits.
    #[inline(always)]
    pub fn issue(&self, word: u64, lines: &Lines, drive: Drive) -> Option<OperandSlot>
        requires decoded { IsDecoded Mic2 word lines.now }
        requires drive { drive ≡ driven word (pipeline_in self.now) }
        ensures value { in_operand result ≡ issued (statement_of Mic2 word) (pipeline_in self.now) }
        ensures there { bytes_leaving (in_operand result) ≤ length self.now.latches.unit.bytes }
    {
        if drive.stalled {
            return None;
        }
        demand_law(word, lines);
        let control = Control {
            word,
            lines: *lines,
        };
        let byte = dispatched(&control, &self.latches.unit);
        Some(OperandSlot {
            control,
            a: drive.a,
            b: drive.b,
            byte,
        })
    }

    /// What the memory's ports are given, where this many bytes are taken.
    #[inline(always)]
    pub fn ports(&self, taken: u8) -> Ports
        ensures { result ≡ ports_given (retired_in self.now taken) }
    {
        match self.result {
            Some(slot) => self
                .latches
                .ports(slot.control.destinations(), slot.value, taken),
            None => Ports {
                mar: self.latches.places[MAR],
                mdr: self.latches.places[MDR],
                pc: pc_after(self.latches.places[PC], taken),
            },
        }
    }

    /// What the cycle asks of the bus in which this issues.
    #[inline(always)]
    pub fn asked(&self, to_issue: Option<OperandSlot>) -> Asked
        requires { bytes_leaving (in_operand to_issue) ≤ length self.now.latches.unit.bytes }
        ensures { IsAsked (in_operand to_issue) (pipeline_in self.now) result }
    {
        let taken = bytes_leaving(to_issue);
        let mem = mem_in(self.result);
        let jumps = jumps_now(self.result);
        let ports = self.ports(taken);
        let at = self.latches.will_fetch(jumps, ports.pc, taken);
        Asked { mem, ports, at }
    }

    /// The edge after its access, which sampled this word if it read. An Err leaves everything as it was.
    #[inline(always)]
    pub fn advance(
        &mut self,
        to_issue: Option<OperandSlot>,
        values: &Computed,
        pc: u32,
        sampled: Option<u32>,
        bus: &Bus,
    ) -> Result<(), BusFault>
        requires latches { AreLatches self.old.latches }
        requires there { bytes_leaving (in_operand to_issue) ≤ length self.old.latches.unit.bytes }
        requires values { values.now ≡ values_of (in_operand self.old.operand) }
        requires pc { pc ≡ (settled (in_operand to_issue) (pipeline_in self.old)).pc }
        ensures latches { AreLatches self.new.latches }
        ensures ok { OnOk result (pipeline_in self.new ≡ edged (in_operand to_issue) (pipeline_in self.old) bus.now.words sampled) }
        ensures err { FailsAsRefused (unit_refused (length bus.now.words)
            self.old.result pc (bytes_leaving (in_operand to_issue)) self.old.latches.unit) result }
        ensures state { OnErr result (pipeline_in self.new ≡ pipeline_in self.old) }
    {
        let taken = bytes_leaving(to_issue);
        let mpc = mpc_after(to_issue, self, values.alu.value);
        clock_unit(self.result, pc, taken, bus, &mut self.latches.unit)?;
        retire(
            self.result,
            taken,
            self.latches.word,
            &mut self.latches.places,
        );
        self.latches.mpc = mpc;
        self.latches.begins = begins(self.result);
        self.latches.word = held(self.result, self.latches.word, sampled);
        self.result = moved_on(self.operand, values.c);
        self.operand = to_issue;
        Ok(())
    }
}
