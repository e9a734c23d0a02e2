//! The machine: the parts of its cycle, which are the book's subcycles.

ghost use Rattle.std.specs.Prelude.{◌≡◌, refl};
ghost use Rattle.mic1_datapath.specs.Latches.{AreLatches};

use crate::buses::{H, computed_by, computed_of, driven_by};
use crate::edge::edge_inside;
use crate::latches::Latches;
use console_port::{Bus, BusFault};
use mic_base::{Sink, Source};
use mic_clock::{Clocked, Computed, Drive, Registers, Start, Tail};
use mic_datapath::{access_tested, console_law};
use micro_word::{Lines, Machine, Mem, Word1, bits};

const MBRU: usize = 10;

/// Mic-1.
#[derive(Drop)]
pub struct Mic1 {
    latches: Latches,
    /// The operands of the word that was clocked last. The latches keep the word.
    last_a: u32,
    last_b: u32,
    ghost kept: { AreLatches latches },
}

impl Mic1 {
    ghost use Rattle.mic1_datapath.specs.Mic1.{at_zero, initial as initial_of};
    ghost use Rattle.mic1_datapath.specs.View.{micro_of};

    /// As a reset at entry 0 with SP 0 leaves it.
    pub fn new() -> Mic1
        ensures { micro_of result ≡ initial_of at_zero }
    {
        Mic1 {
            latches: Latches::initial(&Start {
                entry: 0,
                sp: 0,
                first: 0,
            }),
            last_a: 0,
            last_b: 0,
        }
    }
}

impl Clocked for Mic1 {
    ghost use Rattle.mic1_datapath.specs.Micro.{Micro};
    ghost use Rattle.mic1_datapath.specs.Mic1.{mic1_meaning, IsReady as IsReadyAt};
    ghost use Rattle.mic1_datapath.specs.View.{micro_of, seen};

    type Word = Word1;

    ghost State = { Micro };

    ghost meaning = { mic1_meaning };

    ghost IsReady = { IsReadyAt };

    ghost state = { micro_of };

    ghost seen = { seen };

    fn machine(&self) -> Machine {
        Machine::Mic1
    }

    fn reset(&mut self, start: &Start) {
        self.latches = Latches::initial(start);
    }

    #[inline(always)]
    fn drive(&mut self, word: u64, lines: &Lines) -> Drive {
        driven_by(&self.latches, word, lines)
    }

    #[inline(always)]
    fn compute(&self, word: u64, lines: &Lines, drive: Drive) -> Computed {
        computed_by(&self.latches, word, lines, drive.b)
    }

    #[inline(always)]
    fn edge_inside(
        &mut self,
        word: u64,
        lines: &Lines,
        drive: Drive,
        computed: Computed,
        bus: &mut Bus,
    ) -> bool {
        let value = computed.alu.value;
        if !edge_inside(&mut self.latches, word, lines, value, computed.c, bus) {
            return false;
        }
        self.latches.stay_clocked();
        self.last_a = drive.a;
        self.last_b = drive.b;
        true
    }

    #[cold]
    fn edge<S: Source, K: Sink>(
        &mut self,
        word: u64,
        lines: &Lines,
        drive: Drive,
        computed: Computed,
        bus: &mut Bus,
        source: &mut S,
        sink: &mut K,
    ) -> Result<(), BusFault> {
        console_law();
        let mem = Mem::of_bits(bits::mem(Machine::Mic1, word));
        let fetch = bits::fetch(Machine::Mic1, word);
        let ports = self.latches.ports(word, computed.c);
        let sampled = access_tested(
            mem, fetch, ports.mar, ports.mdr, ports.pc, bus, source, sink,
        )?;
        let value = computed.alu.value;
        self.latches
            .advance(word, lines, value, computed.c, sampled);
        self.last_a = drive.a;
        self.last_b = drive.b;
        Ok(())
    }

    fn last_drive(&self) -> Drive {
        if !self.latches.clocked {
            return Drive::ZERO;
        }
        Drive {
            a: self.last_a,
            b: self.last_b,
            stalled: false,
        }
    }

    fn last_computed(&self) -> Computed {
        if !self.latches.clocked {
            return Computed::ZERO;
        }
        computed_of(self.latches.before, self.last_a, self.last_b)
    }

    fn registers(&self) -> Registers {
        let places = self.latches.places;
        Registers {
            mar: places[0],
            mdr: places[1],
            pc: places[2],
            sp: places[3],
            lv: places[4],
            cpp: places[5],
            tos: places[6],
            opc: places[7],
            h: places[H],
            mpc: self.latches.mpc,
            tail: Tail::Mbr(places[MBRU] as u8),
        }
    }

    fn at_boundary(&self) -> bool {
        // Few cycles come to the entry, so the other test is made only there.
        self.latches.mpc == self.latches.entry && self.latches.clocked
    }

    fn instruction_address(&self) -> u32 {
        self.latches.places[2]
    }

    fn mpc(&self) -> u16 {
        self.latches.mpc
    }

    fn sp(&self) -> u32 {
        self.latches.places[3]
    }

    fn lv(&self) -> u32 {
        self.latches.places[4]
    }

    ghost its_words = { refl };
}
