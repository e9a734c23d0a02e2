//! Instructions whose names are not yet looked up, with their numbers in range.

ghost use Rattle.std.specs.Prelude.{◌≡◌};
ghost use Rattle.ijvm_line.specs.Ranges.{access_instr, addend, addend_of, byte, byte_of, constant, increment, increment_instr, index, index_of, instruction_of, is_wide, local, push, word, word_in_range};

use crate::line::LineFault;
use crate::mnemonic::Access;
use crate::statement::{Operand, Statement};
use ijvm_instr::Instr;
use ijvm_program::Jump;
use mic_base::Name;

/// An instruction whose names are not yet looked up.
#[derive(Clone, Copy)]
pub enum Instruction {
    Plain(Instr),
    /// LDC_W of a named constant.
    Constant(Name),
    Local {
        access: Access,
        /// The wide form is forced.
        wide: bool,
        local: Name,
    },
    Increment {
        /// The wide form is forced.
        wide: bool,
        local: Name,
        by: i16,
    },
    Jump(Jump, Name),
    Call(Name),
}

/// Whether an index takes the wide form: where it is forced, and above 255.
fn is_wide(wide: bool, index: u16) -> bool
    ensures { result ≡ is_wide wide index }
{
    wide || index > 255
}

/// The instruction that loads or stores a local: the wide form where it is forced, and for an index above 255.
pub fn access_instr(access: Access, wide: bool, index: u16) -> Instr
    ensures { result ≡ access_instr access wide index }
{
    if is_wide(wide, index) {
        return match access {
            Access::Load => Instr::WideIload(index),
            Access::Store => Instr::WideIstore(index),
        };
    }
    match access {
        Access::Load => Instr::Iload(index as u8),
        Access::Store => Instr::Istore(index as u8),
    }
}

/// The instruction that adds to a local: the wide form where it is forced, for an index above 255, and for a number that
/// is no byte.
pub fn increment_instr(wide: bool, index: u16, by: i16) -> Instr
    ensures { result ≡ increment_instr wide index by }
{
    if is_wide(wide, index) {
        return Instr::WideIinc(index, by);
    }
    match byte_of(i64::from(by)) {
        Some(byte) => Instr::Iinc(index as u8, byte),
        None => Instr::WideIinc(index, by),
    }
}

/// The byte of a number from -128 to 255.
fn byte_of(value: i64) -> Option<i8>
    ensures { result ≡ byte_of value }
{
    if -128 <= value && value < 128 {
        Some(value as i8)
    } else if 128 <= value && value < 256 {
        Some((value - 256) as i8)
    } else {
        None
    }
}

fn index_of(value: i64) -> Option<u16>
    ensures { result ≡ index_of value }
{
    if 0 <= value && value < 0x1_0000 {
        Some(value as u16)
    } else {
        None
    }
}

fn addend_of(value: i64) -> Option<i16>
    ensures { result ≡ addend_of value }
{
    if -0x8000 <= value && value < 0x8000 {
        Some(value as i16)
    } else {
        None
    }
}

/// The word of a number from -2147483648 to 4294967295.
fn word_in_range(value: i64) -> Option<u32>
    ensures { result ≡ word_in_range value }
{
    if 0 <= value && value < 0x1_0000_0000 {
        Some(value as u32)
    } else if -0x8000_0000 <= value && value < 0 {
        Some((value + 0x1_0000_0000) as u32)
    } else {
        None
    }
}

fn byte(value: Option<i64>) -> Result<i8, LineFault>
    ensures { result ≡ byte value }
{
    match value {
        Some(value) => byte_of(value).ok_or(LineFault::OutOfRange),
        None => Err(LineFault::BadNumber),
    }
}

fn index(value: Option<i64>) -> Result<u16, LineFault>
    ensures { result ≡ index value }
{
    match value {
        Some(value) => index_of(value).ok_or(LineFault::OutOfRange),
        None => Err(LineFault::BadNumber),
    }
}

fn addend(value: Option<i64>) -> Result<i16, LineFault>
    ensures { result ≡ addend value }
{
    match value {
        Some(value) => addend_of(value).ok_or(LineFault::OutOfRange),
        None => Err(LineFault::BadNumber),
    }
}

pub(crate) fn word(value: Option<i64>) -> Result<u32, LineFault>
    ensures { result ≡ word value }
{
    match value {
        Some(value) => word_in_range(value).ok_or(LineFault::OutOfRange),
        None => Err(LineFault::BadNumber),
    }
}

fn push(value: Option<i64>) -> Result<Instruction, LineFault>
    ensures { result ≡ push value }
{
    Ok(Instruction::Plain(Instr::Bipush(byte(value)?)))
}

fn constant(operand: Operand) -> Result<Instruction, LineFault>
    ensures { result ≡ constant operand }
{
    match operand {
        Operand::Name(name) => Ok(Instruction::Constant(name)),
        Operand::Number(value) => Ok(Instruction::Plain(Instr::LdcW(index(value)?))),
    }
}

fn local(access: Access, wide: bool, operand: Operand) -> Result<Instruction, LineFault>
    ensures { result ≡ local access wide operand }
{
    match operand {
        Operand::Name(local) => Ok(Instruction::Local {
            access,
            wide,
            local,
        }),
        Operand::Number(value) => {
            let local = index(value)?;
            Ok(Instruction::Plain(access_instr(access, wide, local)))
        }
    }
}

/// Its numbers are looked at from left to right.
fn increment(wide: bool, operand: Operand, by: Option<i64>) -> Result<Instruction, LineFault>
    ensures { result ≡ increment wide operand by }
{
    match operand {
        Operand::Name(local) => {
            let by = addend(by)?;
            Ok(Instruction::Increment { wide, local, by })
        }
        Operand::Number(value) => {
            let local = index(value)?;
            let by = addend(by)?;
            Ok(Instruction::Plain(increment_instr(wide, local, by)))
        }
    }
}

/// The instruction that is spelled so, where its numbers read and are in their ranges.
pub(crate) fn instruction_of(statement: Statement) -> Result<Instruction, LineFault>
    ensures { result ≡ instruction_of statement }
{
    match statement {
        Statement::Plain(instr) => Ok(Instruction::Plain(instr)),
        Statement::Push(value) => push(value),
        Statement::Constant(operand) => constant(operand),
        Statement::Local {
            access,
            wide,
            local: operand,
        } => local(access, wide, operand),
        Statement::Increment {
            wide,
            local: operand,
            by,
        } => increment(wide, operand, by),
        Statement::Jump(jump, label) => Ok(Instruction::Jump(jump, label)),
        Statement::Call(method) => Ok(Instruction::Call(method)),
    }
}
