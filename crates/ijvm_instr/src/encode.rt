//! The bytes of an instruction: its opcode, with WIDE before it where its row says so, and its operands.

ghost use Rattle.std.specs.Prelude.{◌≡◌, ◌+◌, ◌≤◌, ◌++◌, OnOk};
ghost use Rattle.arrayvec.specs.ArrayVec.{array_vec_len};
ghost use Rattle.ijvm_instr.specs.Instructions.{spelling, operand_bytes, two_bytes};

use crate::instr::Instr;
use crate::row::{Operands, Row};
use arrayvec::ArrayVec;
use std::alloc::AllocError;

/// A number as two bytes, the high one first.
pub fn two_bytes(number: u16) -> [u8; 2]
    ensures { result ≡ two_bytes number }
{
    [(number / 256) as u8, (number % 256) as u8]
}

/// Appends a number of two bytes, the high one first.
fn push_half(bytes: &mut ArrayVec<u8, 6>, half: u16)
    requires { array_vec_len bytes.old + 2 ≤ 6 }
    ensures { bytes.new.items ≡ bytes.old.items ++ two_bytes half }
{
    bytes.push((half / 256) as u8);
    bytes.push((half % 256) as u8);
}

fn push_operands(bytes: &mut ArrayVec<u8, 6>, operands: Operands)
    requires { array_vec_len bytes.old + 4 ≤ 6 }
    ensures { bytes.new.items ≡ bytes.old.items ++ operand_bytes operands }
{
    match operands {
        Operands::None => {}
        Operands::Byte(byte) => bytes.push(byte.cast_unsigned()),
        Operands::Local(local) => bytes.push(local),
        Operands::LocalByte(local, byte) => {
            bytes.push(local);
            bytes.push(byte.cast_unsigned());
        }
        Operands::Index(index) => push_half(bytes, index),
        Operands::IndexHalf(index, half) => {
            push_half(bytes, index);
            push_half(bytes, half.cast_unsigned());
        }
        Operands::Offset(offset) => push_half(bytes, offset.cast_unsigned()),
    }
}

/// The bytes of an instruction. IOR is written as B0.
pub fn encode_instr(instr: Instr) -> ArrayVec<u8, 6>
    ensures { result.items ≡ spelling instr }
{
    let row = instr.row();
    let mut bytes = ArrayVec::new();
    if row.wide {
        bytes.push(0xC4);
    }
    bytes.push(row.opcode);
    push_operands(&mut bytes, row.operands);
    bytes
}

/// Appends the bytes of an instruction to a text.
pub fn push_instr(text: &mut Vec<u8>, instr: Instr) -> Result<(), AllocError>
    ensures { OnOk result (text.new.items ≡ text.old.items ++ spelling instr) }
{
    text.extend_from_slice(encode_instr(instr).as_slice())?;
    Ok(())
}
