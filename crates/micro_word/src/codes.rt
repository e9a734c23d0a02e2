//! The fields that spell a statement, and the statement that fields name.
ghost use Rattle.std.specs.Prelude.{◌≡◌, ◌==◌};
ghost use Rattle.micro_word.specs.Coding.{shift_bits, shift_of, mem_bits, mem_of, fetch_bit, jam_bits, addr_bits, decoded_next, codes, named};

use crate::bus::{code_of_a, code_on_bus, side_a};
use crate::layout::Fields;
use crate::statement::{AluOp, BusSource, Mem, Part, Placed, PlacedNext, Shift, Test};
use mic_words::Machine;

impl Shift {
    pub fn bits(self) -> u8
        ensures { result ≡ shift_bits self }
    {
        match self {
            Shift::None => 0,
            Shift::Left8 => 2,
            Shift::Right1 => 1,
        }
    }

    pub fn of_bits(bits: u8) -> Shift
        ensures { result ≡ shift_of bits }
    {
        match bits {
            2 => Shift::Left8,
            1 => Shift::Right1,
            _ => Shift::None,
        }
    }
}

impl Mem {
    pub fn bits(self) -> u8
        ensures { result ≡ mem_bits self }
    {
        match self {
            Mem::None => 0,
            Mem::Read => 1,
            Mem::Write => 2,
        }
    }

    pub fn of_bits(bits: u8) -> Mem
        ensures { result ≡ mem_of bits }
    {
        match bits {
            2 => Mem::Write,
            1 => Mem::Read,
            _ => Mem::None,
        }
    }
}

impl PlacedNext {
    fn jam(self) -> u8
        ensures { result ≡ jam_bits self }
    {
        match self {
            PlacedNext::Goto(_) => 0,
            PlacedNext::Dispatch { .. } => 4,
            PlacedNext::Branch { test: Test::N, .. } => 2,
            PlacedNext::Branch { test: Test::Z, .. } => 1,
        }
    }

    fn addr(self) -> u16
        ensures { result ≡ addr_bits self }
    {
        match self {
            PlacedNext::Goto(to) => to,
            PlacedNext::Dispatch { high } => if high { 256 } else { 0 },
            PlacedNext::Branch { no, .. } => no,
        }
    }

    fn of_fields(jam: u8, addr: u16) -> PlacedNext
        ensures { result ≡ decoded_next jam addr }
    {
        match jam {
            0 => PlacedNext::Goto(addr),
            4 => PlacedNext::Dispatch { high: addr == 256 },
            2 => PlacedNext::Branch {
                test: Test::N,
                no: addr,
            },
            _ => PlacedNext::Branch {
                test: Test::Z,
                no: addr,
            },
        }
    }
}

fn bit_of_fetch(machine: Machine, fetch: bool) -> u8
    ensures { result ≡ fetch_bit machine fetch }
{
    match machine {
        Machine::Mic1 => if fetch { 1 } else { 0 },
        Machine::Mic2 => 0,
    }
}

impl Fields {
    /// The fields that spell a statement.
    pub(crate) fn of_placed(machine: Machine, placed: &Placed) -> Fields
        ensures { result ≡ codes machine placed.now }
    {
        let part = placed.part;
        Fields {
            addr: placed.next.addr(),
            jam: placed.next.jam(),
            shift: part.shift.bits(),
            gates: part.op.row().gates,
            c: part.dests,
            mem: part.mem.bits(),
            fetch: bit_of_fetch(machine, part.fetch),
            a: code_of_a(machine, part.a),
            b: code_on_bus(machine, part.b),
        }
    }

    /// The statement that the fields name.
    pub(crate) fn placed(&self, machine: Machine) -> Placed
        ensures { result ≡ named machine self.now }
    {
        let op = AluOp::of_gates(self.gates);
        Placed {
            part: Part {
                dests: self.c,
                op,
                a: side_a(machine, op, self.a),
                b: BusSource::of_code(machine, self.b),
                shift: Shift::of_bits(self.shift),
                mem: Mem::of_bits(self.mem),
                fetch: self.fetch == 1,
            },
            next: PlacedNext::of_fields(self.jam, self.addr),
        }
    }
}
