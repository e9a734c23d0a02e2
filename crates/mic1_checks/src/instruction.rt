//! The instructions of IJVM, as a microprogram tells them apart.
ghost use Rattle.std.specs.Prelude.{◌≡◌, IfOk};
ghost use Rattle.mic1_checks.specs.Listed.{instructions, plain, wide};

use std::alloc::{AllocError, Global};

/// An instruction by the bytes that a microprogram dispatches on.
#[derive(Clone, Copy, Debug, PartialEq, Eq)]
pub struct Instruction {
    /// Its number in IJVM's table, in which its leaves are counted.
    pub row: u32,
    pub opcode: u8,
    /// The byte after WIDE; none for other instructions.
    pub second: Option<u8>,
}

pub const WIDE: u8 = 0xC4;

pub const ISTORE: u8 = 0x36;

pub const INVOKEVIRTUAL: u8 = 0xB6;

fn plain_of(row: u32, opcode: u8) -> Instruction
    ensures { result ≡ plain row opcode }
{
    Instruction {
        row,
        opcode,
        second: None,
    }
}

fn wide_of(row: u32, second: u8) -> Instruction
    ensures { result ≡ wide row second }
{
    Instruction {
        row,
        opcode: WIDE,
        second: Some(second),
    }
}

/// All instructions but HALT and ERR, in the order of IJVM's table. IOR has two opcodes.
pub fn all_instructions(alloc: Global) -> Result<Vec<Instruction>, AllocError>
    ensures { IfOk result (λ all. all.items ≡ instructions) }
{
    Vec::from_slice(
        alloc,
        &[
            plain_of(0, 0x00),
            plain_of(1, 0x10),
            plain_of(2, 0x13),
            plain_of(3, 0x15),
            plain_of(4, 0x36),
            plain_of(5, 0x57),
            plain_of(6, 0x59),
            plain_of(7, 0x5F),
            plain_of(8, 0x60),
            plain_of(9, 0x64),
            plain_of(10, 0x7E),
            plain_of(11, 0x84),
            plain_of(12, 0x99),
            plain_of(13, 0x9B),
            plain_of(14, 0x9F),
            plain_of(15, 0xA7),
            plain_of(16, 0xAC),
            plain_of(17, 0xB0),
            plain_of(17, 0x80),
            plain_of(18, 0xB6),
            wide_of(19, 0x15),
            wide_of(20, 0x36),
            wide_of(21, 0x84),
            plain_of(22, 0xFC),
            plain_of(23, 0xFD),
        ],
    )
}
