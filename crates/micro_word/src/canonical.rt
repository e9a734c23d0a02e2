//! Which numbers are words of statements, tested by their fields.
ghost use Rattle.std.specs.Prelude.{◌≡◌};
ghost use Rattle.micro_word.specs.Words.{is_row, is_side, is_side_a, are_apart, is_target, are_canonical};

use crate::bus::code_for_nothing;
use crate::layout::Fields;
use crate::statement::{AluOp, BusSource};
use crate::valid::{has_operation, mixes};
use mic_words::Machine;

fn is_row_of(machine: Machine, gates: u8) -> bool
    ensures { result ≡ is_row machine gates }
{
    AluOp::with_gates(gates).is_some() && has_operation(machine, AluOp::of_gates(gates))
}

fn fits_code(machine: Machine, used: bool, code: u8) -> bool
    ensures { result ≡ is_side machine used code }
{
    let nothing = code_for_nothing(machine);
    if used {
        code < nothing
    } else {
        code == nothing
    }
}

fn fits_code_a(machine: Machine, used: bool, code: u8) -> bool
    ensures { result ≡ is_side_a machine used code }
{
    match machine {
        Machine::Mic1 => true,
        Machine::Mic2 => fits_code(Machine::Mic2, used, code),
    }
}

fn stand_apart(machine: Machine, a: u8, b: u8) -> bool
    ensures { result ≡ are_apart machine a b }
{
    match machine {
        Machine::Mic1 => true,
        Machine::Mic2 => {
            let a = BusSource::of_code(Machine::Mic2, a);
            let b = BusSource::of_code(Machine::Mic2, b);
            !mixes(a, b)
        }
    }
}

fn is_in_reach(jam: u8, addr: u16) -> bool
    ensures { result ≡ is_target jam addr }
{
    jam == 0 || (jam == 4 && (addr == 0 || addr == 256)) || ((jam == 2 || jam == 1) && addr < 256)
}

impl Fields {
    /// Whether they are the fields of a canonical word.
    pub(crate) fn canonical(&self, machine: Machine) -> bool
        ensures { result ≡ are_canonical machine self.now }
    {
        let row = AluOp::of_gates(self.gates).row();
        is_row_of(machine, self.gates)
            && self.shift != 3
            && fits_code_a(machine, row.uses_a, self.a)
            && fits_code(machine, row.uses_b, self.b)
            && stand_apart(machine, self.a, self.b)
            && self.mem != 3
            && is_in_reach(self.jam, self.addr)
    }
}
