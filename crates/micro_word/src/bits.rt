//! The fields of a word one by one, for callers that need few of them.
ghost use Rattle.std.specs.Prelude.{◌≡◌, ◌<◌, ◌==◌};
ghost use Rattle.micro_word.specs.Layout.{fields_of};

use crate::layout::field;
use mic_words::Machine;

/// JMPC JAMN JAMZ
pub fn jam(machine: Machine, word: u64) -> u8
    ensures value { result ≡ (fields_of machine word).jam }
    ensures within { result < 8 }
{
    match machine {
        Machine::Mic1 => field(word, 24, 3) as u8,
        Machine::Mic2 => field(word, 27, 3) as u8,
    }
}

/// SLL8 SRA1
pub fn shift(machine: Machine, word: u64) -> u8
    ensures { result ≡ (fields_of machine word).shift }
{
    match machine {
        Machine::Mic1 => field(word, 22, 2) as u8,
        Machine::Mic2 => field(word, 25, 2) as u8,
    }
}

/// F0 F1 ENA ENB INVA INC
pub fn gates(machine: Machine, word: u64) -> u8
    ensures { result ≡ (fields_of machine word).gates }
{
    match machine {
        Machine::Mic1 => field(word, 16, 6) as u8,
        Machine::Mic2 => field(word, 19, 6) as u8,
    }
}

/// H OPC TOS CPP LV SP PC MDR MAR
pub fn destinations(machine: Machine, word: u64) -> u16
    ensures value { result ≡ (fields_of machine word).c }
    ensures within { result < 512 }
{
    match machine {
        Machine::Mic1 => field(word, 7, 9) as u16,
        Machine::Mic2 => field(word, 10, 9) as u16,
    }
}

/// WRITE READ
pub fn mem(machine: Machine, word: u64) -> u8
    ensures { result ≡ (fields_of machine word).mem }
{
    match machine {
        Machine::Mic1 => field(word, 5, 2) as u8,
        Machine::Mic2 => field(word, 8, 2) as u8,
    }
}

/// FETCH
pub fn fetch(machine: Machine, word: u64) -> bool
    ensures { result ≡ ((fields_of machine word).fetch == 1) }
{
    match machine {
        Machine::Mic1 => field(word, 4, 1) == 1,
        Machine::Mic2 => false,
    }
}
