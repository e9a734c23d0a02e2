//! The machine: the parts of its cycle, which are the book's subcycles.

ghost use Rattle.std.specs.Prelude.{◌≡◌, IsTrue, refl};
ghost use Rattle.mic2_datapath.specs.Common.{Mic2 as Mic2Machine, is_canonical};
ghost use Rattle.mic2_datapath.specs.Latches.{AreLatches};
ghost use Rattle.mic2_datapath.specs.declared.mic2.Past.TheVariants.{Clocked as WasClocked};

use crate::accesses::access;
use crate::control::{computed_of, demand_law, flagged, mem_for, operate_for, shift_for};
use crate::latches::{Latches, Operands, PC};
use console_port::{Bus, BusFault};
use mic_base::{Sink, Source};
use mic_clock::{Clocked, Computed, Drive, Registers, Start};
use mic_datapath::console_law;
use micro_word::{Lines, Machine, Word2, bits, is_named};

/// What the cycle was that was clocked last.
#[derive(Clone, Copy, Debug, PartialEq, Eq)]
enum Past {
    /// There was none since the reset.
    Nothing,
    Stalled,
    Clocked,
}

/// Mic-2.
#[derive(Drop)]
pub struct Mic2 {
    latches: Latches,
    past: Past,
    /// The word of the last clocked cycle that did not stall, and what was on its sides.
    last_word: u64,
    last_a: u32,
    last_b: u32,
    ghost kept: { AreLatches latches },
    ghost last: { past ≡ WasClocked → IsTrue (is_canonical Mic2Machine last_word) },
}

impl Mic2 {
    ghost use Rattle.mic2_datapath.specs.Mic2.{at_zero, initial as initial_of};
    ghost use Rattle.mic2_datapath.specs.View.{micro_of};

    /// As a reset at entry 0 with SP 0 leaves it, where the memory's first word is 0.
    pub fn new() -> Mic2
        ensures { micro_of result ≡ initial_of at_zero }
    {
        Mic2 {
            latches: Latches::initial(&Start {
                entry: 0,
                sp: 0,
                first: 0,
            }),
            past: Past::Nothing,
            last_word: 0,
            last_a: 0,
            last_b: 0,
        }
    }
}

impl Clocked for Mic2 {
    ghost use Rattle.mic2_datapath.specs.Micro.{Micro};
    ghost use Rattle.mic2_datapath.specs.Mic2.{mic2_meaning, IsReady as IsReadyAt};
    ghost use Rattle.mic2_datapath.specs.View.{micro_of, seen};

    type Word = Word2;

    ghost State = { Micro };

    ghost meaning = { mic2_meaning };

    ghost IsReady = { IsReadyAt };

    ghost state = { micro_of };

    ghost seen = { seen };

    fn machine(&self) -> Machine {
        Machine::Mic2
    }

    fn reset(&mut self, start: &Start) {
        self.latches = Latches::initial(start);
        self.past = Past::Nothing;
    }

    #[inline(always)]
    fn drive(&mut self, word: u64, lines: &Lines) -> Drive {
        demand_law(word, lines);
        if self.latches.waits(word, lines) {
            return Drive::STALLED;
        }
        let Operands { a, b } = self.latches.operands(word, lines);
        Drive {
            a,
            b,
            stalled: false,
        }
    }

    #[inline(always)]
    fn compute(&self, word: u64, lines: &Lines, drive: Drive) -> Computed {
        if drive.stalled {
            return Computed::ZERO;
        }
        demand_law(word, lines);
        let value = operate_for(word, lines, drive.a, drive.b);
        flagged(value, shift_for(word, value))
    }

    /// No edge of a stall is done here.
    #[inline(always)]
    fn edge_inside(
        &mut self,
        word: u64,
        lines: &Lines,
        drive: Drive,
        computed: Computed,
        bus: &mut Bus,
    ) -> bool {
        if drive.stalled {
            return false;
        }
        demand_law(word, lines);
        let value = computed.alu.value;
        if !self
            .latches
            .edge_inside(word, lines, value, computed.c, bus)
        {
            return false;
        }
        self.past = Past::Clocked;
        self.last_word = word;
        self.last_a = drive.a;
        self.last_b = drive.b;
        true
    }

    #[cold]
    fn edge<S: Source, K: Sink>(
        &mut self,
        word: u64,
        lines: &Lines,
        drive: Drive,
        computed: Computed,
        bus: &mut Bus,
        source: &mut S,
        sink: &mut K,
    ) -> Result<(), BusFault> {
        console_law();
        demand_law(word, lines);
        if drive.stalled {
            self.latches.stall(bus)?;
            self.past = Past::Stalled;
            return Ok(());
        }
        let takes = lines.takes;
        let Computed { alu, c } = computed;
        let destinations = bits::destinations(Machine::Mic2, word);
        let ports = self.latches.ports(destinations, c, takes);
        let jumps = is_named(destinations, PC);
        let at = self.latches.will_fetch(jumps, ports.pc, takes);
        let sampled = access(mem_for(word), at, &ports, bus, source, sink)?;
        // What the fetch unit samples was tested before the access.
        let _ = self
            .latches
            .advance(word, lines, alu.value, c, sampled, bus);
        self.past = Past::Clocked;
        self.last_word = word;
        self.last_a = drive.a;
        self.last_b = drive.b;
        Ok(())
    }

    fn last_drive(&self) -> Drive {
        match self.past {
            Past::Nothing => Drive::ZERO,
            Past::Stalled => Drive::STALLED,
            Past::Clocked => Drive {
                a: self.last_a,
                b: self.last_b,
                stalled: false,
            },
        }
    }

    fn last_computed(&self) -> Computed {
        match self.past {
            Past::Nothing | Past::Stalled => Computed::ZERO,
            Past::Clocked => computed_of(self.last_word, self.last_a, self.last_b),
        }
    }

    #[inline(always)]
    fn registers(&self) -> Registers {
        self.latches.registers()
    }

    fn at_boundary(&self) -> bool {
        self.latches.begins
    }

    fn instruction_address(&self) -> u32 {
        self.latches.instruction_address()
    }

    fn mpc(&self) -> u16 {
        self.latches.mpc
    }

    fn sp(&self) -> u32 {
        self.latches.places[3]
    }

    fn lv(&self) -> u32 {
        self.latches.places[4]
    }

    ghost its_words = { refl };
}
