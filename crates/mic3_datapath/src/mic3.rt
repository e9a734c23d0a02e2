//! The machine: the parts of its cycle, which is one of the pipeline.

ghost use Rattle.std.specs.Prelude.{◌≡◌, refl};
ghost use Rattle.mic2_datapath.specs.Prelude.{AreLatches};

use crate::accesses::access_inside;
use crate::pipeline::{Pipeline, driven_by, values_of};
use console_port::{Bus, BusFault};
use mic_base::{Sink, Source};
use mic_clock::{Clocked, Computed, Drive, Registers, Start};
use mic_datapath::console_law;
use mic2_datapath::{access, flagged};
use micro_word::{Lines, Machine, Word2};

/// Mic-3.
#[derive(Drop)]
pub struct Mic3 {
    pipeline: Pipeline,
    /// Whether nothing issued in the cycle that was clocked last.
    stalled: bool,
    /// What left the ALU in that cycle. What else was on the buses is in the slots after it.
    value: u32,
    ghost kept: { AreLatches pipeline.latches },
}

impl Mic3 {
    ghost use Rattle.mic2_datapath.specs.Prelude.{at_zero};
    ghost use Rattle.mic3_datapath.specs.Mic3.{initial as initial_of};
    ghost use Rattle.mic3_datapath.specs.View.{pipeline_of};

    /// As a reset at entry 0 with SP 0 leaves it, where the memory's first word is 0.
    pub fn new() -> Mic3
        ensures { pipeline_of result ≡ initial_of at_zero }
    {
        Mic3 {
            pipeline: Pipeline::initial(&Start {
                entry: 0,
                sp: 0,
                first: 0,
            }),
            stalled: false,
            value: 0,
        }
    }
}

impl Clocked for Mic3 {
    ghost use Rattle.mic3_datapath.specs.Pipeline.{Pipeline};
    ghost use Rattle.mic3_datapath.specs.Mic3.{mic3_meaning, IsReady as IsReadyAt};
    ghost use Rattle.mic3_datapath.specs.View.{pipeline_of, seen};

    type Word = Word2;

    ghost State = { Pipeline };

    ghost meaning = { mic3_meaning };

    ghost IsReady = { IsReadyAt };

    ghost state = { pipeline_of };

    ghost seen = { seen };

    /// It clocks the store of Mic-2.
    fn machine(&self) -> Machine {
        Machine::Mic2
    }

    fn reset(&mut self, start: &Start) {
        self.pipeline = Pipeline::initial(start);
        self.stalled = false;
        self.value = 0;
    }

    #[inline(always)]
    fn drive(&mut self, word: u64, lines: &Lines) -> Drive {
        self.pipeline.drive(word, lines)
    }

    #[inline(always)]
    fn compute(&self, _word: u64, _lines: &Lines, _drive: Drive) -> Computed {
        values_of(self.pipeline.operand)
    }

    #[inline(always)]
    fn edge_inside(
        &mut self,
        word: u64,
        lines: &Lines,
        drive: Drive,
        computed: Computed,
        bus: &mut Bus,
    ) -> bool {
        let to_issue = self.pipeline.issue(word, lines, drive);
        let asked = self.pipeline.asked(to_issue);
        let Some(sampled) = access_inside(asked.mem, asked.at, &asked.ports, bus) else {
            return false;
        };
        let _ = self
            .pipeline
            .advance(to_issue, &computed, asked.ports.pc, sampled, bus);
        self.stalled = drive.stalled;
        self.value = computed.alu.value;
        true
    }

    #[cold]
    fn edge<S: Source, K: Sink>(
        &mut self,
        word: u64,
        lines: &Lines,
        drive: Drive,
        computed: Computed,
        bus: &mut Bus,
        source: &mut S,
        sink: &mut K,
    ) -> Result<(), BusFault> {
        console_law();
        let to_issue = self.pipeline.issue(word, lines, drive);
        let asked = self.pipeline.asked(to_issue);
        let sampled = access(asked.mem, asked.at, &asked.ports, bus, source, sink)?;
        // What the fetch unit samples was tested before the access.
        let _ = self
            .pipeline
            .advance(to_issue, &computed, asked.ports.pc, sampled, bus);
        self.stalled = drive.stalled;
        self.value = computed.alu.value;
        Ok(())
    }

    fn last_drive(&self) -> Drive {
        let mut drive = driven_by(self.pipeline.operand);
        drive.stalled = self.stalled;
        drive
    }

    fn last_computed(&self) -> Computed {
        match self.pipeline.result {
            Some(slot) => flagged(self.value, slot.value),
            None => Computed::ZERO,
        }
    }

    #[inline(always)]
    fn registers(&self) -> Registers {
        self.pipeline.latches.registers()
    }

    fn at_boundary(&self) -> bool {
        self.pipeline.latches.begins
    }

    fn instruction_address(&self) -> u32 {
        self.pipeline.latches.instruction_address()
    }

    fn mpc(&self) -> u16 {
        self.pipeline.latches.mpc
    }

    fn sp(&self) -> u32 {
        self.pipeline.latches.places[3]
    }

    fn lv(&self) -> u32 {
        self.pipeline.latches.places[4]
    }

    ghost its_words = { refl };
}
