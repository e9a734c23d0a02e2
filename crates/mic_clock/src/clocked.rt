//! What is asked of a machine: its state, and the parts of its cycle.

ghost use Rattle.std.specs.Prelude.{◌≡◌, ◌<◌, OnOk, OnErr, ℕ, List, true, false};
ghost use Rattle.console_port.specs.Prelude.{StreamsGoOn, World};
ghost use Rattle.mic_clock.specs.Cycle.{IsAtEdge, IsDecoded};
ghost use Rattle.mic_clock.specs.Edge.{IsEdgeOver, IsTried};
ghost use Rattle.mic_clock.specs.Meaning.{Meaning};
ghost use Rattle.mic_clock.specs.Run.{Buses, buses_in, start_buses};

use crate::buses::{Computed, Drive};
use crate::registers::{Registers, Start};
use crate::word::MicroWord;
use console_port::{Bus, BusFault};
use mic_base::{Sink, Source};
use micro_word::{Lines, Machine};

/// A machine that is clocked. It keeps nothing of a cycle before its edge, but is handed it: the word at MPC with its
/// control lines, and what that has driven and computed.
pub trait Clocked {
    /// The words of its control store, which are those of its machine.
    type Word: MicroWord;

    /// What a machine is between cycles.
    ghost State: { Type 0 };

    /// What its cycles mean.
    ghost meaning: { Meaning State };

    /// That the instruction at a byte address of a memory comes next in this state and this world, where a microprogram
    /// begins at this entry: a boundary is there, and nothing is under way.
    ghost IsReady: { ℕ → List ℕ → ℕ → State → World → Type 0 };

    ghost state: { Self → State };

    /// What was on the buses in the cycle that was clocked last.
    ghost seen: { Self → Buses };

    fn machine(&self) -> Machine
        ensures { result ≡ meaning.machine };

    fn reset(&mut self, start: &Start)
        requires { start.now.entry < 512 }
        ensures state { state self.new ≡ meaning.initial start.now }
        ensures seen { seen self.new ≡ start_buses };

    /// Drives the operand buses.
    fn drive(&mut self, word: u64, lines: &Lines) -> Drive
        requires { IsDecoded meaning.machine word lines.now }
        ensures state { state self.new ≡ state self.old }
        ensures seen { seen self.new ≡ seen self.old }
        ensures value { result ≡ meaning.drives word (state self.old) };

    /// Lets the ALU and the shifter work.
    fn compute(&self, word: u64, lines: &Lines, drive: Drive) -> Computed
        requires decoded { IsDecoded meaning.machine word lines.now }
        requires drive { drive ≡ meaning.drives word (state self.now) }
        ensures { result ≡ meaning.computes word (state self.now) };

    /// The clock edge of a cycle that needs neither a source nor a sink, because it reaches only memory, or writes to a
    /// console that has room. Returns whether it was done; for any cycle it may do nothing.
    fn edge_inside(
        &mut self,
        word: u64,
        lines: &Lines,
        drive: Drive,
        computed: Computed,
        bus: &mut Bus,
    ) -> bool
        requires { IsAtEdge meaning word lines.now (state self.old) drive computed }
        ensures tried { IsTried meaning word (state self.old) bus.old (state self.new) bus.new result }
        ensures seen { result ≡ true → seen self.new ≡ buses_in meaning word (state self.old) }
        ensures kept { result ≡ false → seen self.new ≡ seen self.old };

    /// The clock edge of any cycle. Few cycles come to it, because `edge_inside` does most. An Err leaves the state.
    fn edge<S: Source, K: Sink>(
        &mut self,
        word: u64,
        lines: &Lines,
        drive: Drive,
        computed: Computed,
        bus: &mut Bus,
        source: &mut S,
        sink: &mut K,
    ) -> Result<(), BusFault>
        requires { IsAtEdge meaning word lines.now (state self.old) drive computed }
        ensures seen { OnOk result (seen self.new ≡ buses_in meaning word (state self.old)) }
        ensures kept { OnErr result (seen self.new ≡ seen self.old) }
        ensures edge { IsEdgeOver meaning S.left K.held word (state self.old) bus.old source.old sink.old
            (state self.new) bus.new source.new sink.new result }
        ensures streams { StreamsGoOn S.left S.faults K.held K.passed K.faults bus.old source.old sink.old
            bus.new source.new sink.new result };

    /// What drove the operand buses in the cycle that was clocked last.
    fn last_drive(&self) -> Drive
        ensures { result ≡ (seen self.now).drive };

    /// What the ALU and the shifter gave in the cycle that was clocked last.
    fn last_computed(&self) -> Computed
        ensures { result ≡ (seen self.now).computed };

    fn registers(&self) -> Registers
        ensures value { result ≡ meaning.registers (state self.now) }
        ensures mpc { result.mpc < 512 };

    /// Whether an instruction boundary is here.
    fn at_boundary(&self) -> bool
        ensures { result ≡ meaning.is_boundary (state self.now) };

    /// The byte address of the instruction at a boundary.
    fn instruction_address(&self) -> u32
        ensures { result ≡ meaning.address (state self.now) };

    /// The MPC of `registers`, without the other registers.
    fn mpc(&self) -> u16
        ensures value { result ≡ (meaning.registers (state self.now)).mpc }
        ensures small { result < 512 }
    {
        self.registers().mpc
    }

    /// The SP of `registers`, without the other registers.
    fn sp(&self) -> u32
        ensures { result ≡ (meaning.registers (state self.now)).sp }
    {
        self.registers().sp
    }

    /// The LV of `registers`, without the other registers.
    fn lv(&self) -> u32
        ensures { result ≡ (meaning.registers (state self.now)).lv }
    {
        self.registers().lv
    }

    ghost its_words: { Self.Word.machine ≡ meaning.machine };
}
