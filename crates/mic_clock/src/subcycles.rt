//! A machine that is clocked by the four subcycles of a cycle, one call each.

ghost use Rattle.std.specs.Prelude.{◌≡◌, ◌<◌, slice_index};
ghost use Rattle.console_port.specs.Prelude.{StreamsGoOn};
ghost use Rattle.mic_clock.specs.Edge.{IsEdgeOver};

use crate::buses::{Computed, Drive};
use crate::clocked::Clocked;
use crate::cycle::decoded_at;
use crate::phase::Phase;
use crate::registers::Start;
use console_port::{Bus, BusFault};
use mic_base::{Sink, Source};
use micro_word::{Lines, Machine, Store, fields1};
use std::marker::Model;

/// A machine, with what its cycle has come to: `setup`, `drive`, `compute` and `edge`, in this order, are one microstep.
#[derive(Drop)]
pub struct Subcycles<M: Clocked> {
    machine: M,
    phase: Phase,
    /// The word that was set up last, and its control lines.
    word: u64,
    lines: Lines,
    drive: Drive,
    computed: Computed,
}

impl<M: Clocked> Model for Subcycles<M> {
    ghost use Rattle.mic_clock.specs.View.{SubcyclesView};
    ghost use Rattle.mic_clock.specs.Cycle.{IsUnderWay};

    ghost Value = { SubcyclesView M };

    ghost view = { λ c. record { machine = c.machine; phase = c.phase; word = c.word } };

    ghost invariant = { λ c. IsUnderWay M.meaning (M.state c.machine) c.phase c.word c.lines c.drive c.computed };
}

impl<M: Clocked> Subcycles<M> {
    /// A machine at rest.
    pub fn new(machine: M) -> Subcycles<M>
        ensures machine { result.machine ≡ machine }
        ensures phase { result.phase ≡ Phase.AtRest }
    {
        Subcycles {
            machine,
            phase: Phase::AtRest,
            word: 0,
            lines: Lines::of_fields(Machine::Mic1, &fields1(0)),
            drive: Drive::ZERO,
            computed: Computed::ZERO,
        }
    }

    pub fn machine(&self) -> &M
        ensures { result.now ≡ self.now.machine }
    {
        &self.machine
    }

    pub fn reset(&mut self, start: &Start)
        requires { start.now.entry < 512 }
        ensures state { M.state self.new.machine ≡ M.meaning.initial start.now }
        ensures phase { self.new.phase ≡ Phase.AtRest }
    {
        self.phase = Phase::AtRest;
        self.machine.reset(start);
    }

    /// Takes over the word at MPC.
    pub fn setup(&mut self, store: &Store)
        requires phase { self.old.phase ≡ Phase.AtRest }
        requires machine { store.now.machine ≡ M.meaning.machine }
        ensures state { M.state self.new.machine ≡ M.state self.old.machine }
        ensures phase { self.new.phase ≡ Phase.SetUp }
        ensures word { self.new.word ≡ slice_index store.now.words (M.meaning.registers (M.state self.old.machine)).mpc }
    {
        let (word, lines) = decoded_at(store, self.machine.mpc());
        self.word = word;
        self.lines = *lines;
        self.phase = Phase::SetUp;
    }

    /// Drives the operand buses.
    pub fn drive(&mut self) -> Drive
        requires { self.old.phase ≡ Phase.SetUp }
        ensures state { M.state self.new.machine ≡ M.state self.old.machine }
        ensures phase { self.new.phase ≡ Phase.Driven }
        ensures word { self.new.word ≡ self.old.word }
        ensures value { result ≡ M.meaning.drives self.old.word (M.state self.old.machine) }
    {
        let drive = self.machine.drive(self.word, &self.lines);
        self.drive = drive;
        self.phase = Phase::Driven;
        drive
    }

    /// Lets the ALU and the shifter work.
    pub fn compute(&mut self) -> Computed
        requires { self.old.phase ≡ Phase.Driven }
        ensures state { M.state self.new.machine ≡ M.state self.old.machine }
        ensures phase { self.new.phase ≡ Phase.AtEdge }
        ensures word { self.new.word ≡ self.old.word }
        ensures value { result ≡ M.meaning.computes self.old.word (M.state self.old.machine) }
    {
        let computed = self.machine.compute(self.word, &self.lines, self.drive);
        self.computed = computed;
        self.phase = Phase::AtEdge;
        computed
    }

    /// The clock edge. An Err leaves the machine's state as it was.
    pub fn edge<S: Source, K: Sink>(
        &mut self,
        bus: &mut Bus,
        source: &mut S,
        sink: &mut K,
    ) -> Result<(), BusFault>
        requires { self.old.phase ≡ Phase.AtEdge }
        ensures phase { self.new.phase ≡ Phase.AtRest }
        ensures edge { IsEdgeOver M.meaning S.left K.held self.old.word (M.state self.old.machine) bus.old source.old sink.old
            (M.state self.new.machine) bus.new source.new sink.new result }
        ensures streams { StreamsGoOn S.left S.faults K.held K.passed K.faults bus.old source.old sink.old
            bus.new source.new sink.new result }
    {
        self.phase = Phase::AtRest;
        self.machine.edge(
            self.word,
            &self.lines,
            self.drive,
            self.computed,
            bus,
            source,
            sink,
        )
    }
}
