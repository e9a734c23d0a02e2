//! The codes of what drives a bus.
ghost use Rattle.std.specs.Prelude.{◌≡◌};
ghost use Rattle.mic_words.specs.declared.machine.Machine.TheVariants.{Mic1, Mic2};
ghost use Rattle.micro_word.specs.Coding.{source_code, bus_code, idle_code, source_of, a_code, a_of};

use crate::statement::{AluOp, BusSource};
use mic_words::Machine;

impl BusSource {
    /// The code on the B bus of Mic-1.
    fn code1(self) -> Option<u8>
        ensures { result ≡ source_code Mic1 self }
    {
        match self {
            BusSource::Mdr => Some(0),
            BusSource::Pc => Some(1),
            BusSource::Mbr => Some(2),
            BusSource::Mbru => Some(3),
            BusSource::Sp => Some(4),
            BusSource::Lv => Some(5),
            BusSource::Cpp => Some(6),
            BusSource::Tos => Some(7),
            BusSource::Opc => Some(8),
            _ => None,
        }
    }

    /// The code on either bus of Mic-2.
    fn code2(self) -> Option<u8>
        ensures { result ≡ source_code Mic2 self }
    {
        match self {
            BusSource::Mdr => Some(0),
            BusSource::Pc => Some(1),
            BusSource::Mbr1 => Some(2),
            BusSource::Mbr1u => Some(3),
            BusSource::Sp => Some(4),
            BusSource::Lv => Some(5),
            BusSource::Cpp => Some(6),
            BusSource::Tos => Some(7),
            BusSource::Opc => Some(8),
            BusSource::Mbr2 => Some(9),
            BusSource::Mbr2u => Some(10),
            BusSource::H => Some(11),
            _ => None,
        }
    }

    /// The code on a bus of the machine, where it has one.
    pub fn code(self, machine: Machine) -> Option<u8>
        ensures { result ≡ source_code machine self }
    {
        match machine {
            Machine::Mic1 => self.code1(),
            Machine::Mic2 => self.code2(),
        }
    }

    /// The source of a code on the B bus of Mic-1.
    fn of_code1(code: u8) -> Option<BusSource>
        ensures { result ≡ source_of Mic1 code }
    {
        match code {
            0 => Some(BusSource::Mdr),
            1 => Some(BusSource::Pc),
            2 => Some(BusSource::Mbr),
            3 => Some(BusSource::Mbru),
            4 => Some(BusSource::Sp),
            5 => Some(BusSource::Lv),
            6 => Some(BusSource::Cpp),
            7 => Some(BusSource::Tos),
            8 => Some(BusSource::Opc),
            _ => None,
        }
    }

    /// The source of a code on either bus of Mic-2.
    fn of_code2(code: u8) -> Option<BusSource>
        ensures { result ≡ source_of Mic2 code }
    {
        match code {
            0 => Some(BusSource::Mdr),
            1 => Some(BusSource::Pc),
            2 => Some(BusSource::Mbr1),
            3 => Some(BusSource::Mbr1u),
            4 => Some(BusSource::Sp),
            5 => Some(BusSource::Lv),
            6 => Some(BusSource::Cpp),
            7 => Some(BusSource::Tos),
            8 => Some(BusSource::Opc),
            9 => Some(BusSource::Mbr2),
            10 => Some(BusSource::Mbr2u),
            11 => Some(BusSource::H),
            _ => None,
        }
    }

    /// The source of a code on a bus of the machine; none where the code drives nothing.
    pub fn of_code(machine: Machine, code: u8) -> Option<BusSource>
        ensures { result ≡ source_of machine code }
    {
        match machine {
            Machine::Mic1 => BusSource::of_code1(code),
            Machine::Mic2 => BusSource::of_code2(code),
        }
    }
}

/// The canonical code for nothing.
pub(crate) fn code_for_nothing(machine: Machine) -> u8
    ensures { result ≡ idle_code machine }
{
    match machine {
        Machine::Mic1 => 9,
        Machine::Mic2 => 12,
    }
}

pub(crate) fn code_on_bus(machine: Machine, source: Option<BusSource>) -> u8
    ensures { result ≡ bus_code machine source }
{
    match source {
        None => code_for_nothing(machine),
        Some(source) => match source.code(machine) {
            None => code_for_nothing(machine),
            Some(code) => code,
        },
    }
}

pub(crate) fn code_of_a(machine: Machine, a: Option<BusSource>) -> u8
    ensures { result ≡ a_code machine a }
{
    match machine {
        Machine::Mic1 => 0,
        Machine::Mic2 => code_on_bus(Machine::Mic2, a),
    }
}

pub(crate) fn side_a(machine: Machine, op: AluOp, code: u8) -> Option<BusSource>
    ensures { result ≡ a_of machine op code }
{
    match machine {
        Machine::Mic1 => if op.row().uses_a {
            Some(BusSource::H)
        } else {
            None
        },
        Machine::Mic2 => BusSource::of_code(Machine::Mic2, code),
    }
}
