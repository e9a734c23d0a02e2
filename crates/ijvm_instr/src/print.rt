//! The text of an instruction in lists and traces.

ghost use Rattle.std.specs.Prelude.{◌≡◌, ◌+◌, ◌≤◌, ◌++◌, length};
ghost use Rattle.ijvm_instr.specs.Instructions.{mnemonic_of, target};
ghost use Rattle.ijvm_instr.specs.Text.{number_text, operand_text, instr_text};

use crate::instr::Instr;
use crate::row::{Operands, name};
use mic_base::Line;

/// The target of a jump at this address.
#[tactic(auto, unfolding(mic_words::specs::Arithmetic::wrap))]
pub fn target_of(at: u32, offset: i16) -> u32
    ensures { result ≡ target at offset }
{
    at.wrapping_add(i32::from(offset).cast_unsigned())
}

/// Appends a space and a number.
#[tactic(auto, using(mic_base::specs::Decimals::decimal_lengths))]
fn print_number(value: i64, line: &mut Line)
    requires { length line.old + 21 ≤ 512 }
    ensures text { line.new ≡ line.old ++ number_text value }
    ensures len { length line.new ≤ length line.old + 21 }
{
    line.text(" ");
    line.signed(value);
}

fn print_operands(operands: Operands, at: u32, line: &mut Line)
    requires { length line.old + 42 ≤ 512 }
    ensures { line.new ≡ line.old ++ operand_text at operands }
{
    match operands {
        Operands::None => {}
        Operands::Byte(byte) => print_number(i64::from(byte), line),
        Operands::Local(local) => print_number(i64::from(local), line),
        Operands::LocalByte(local, byte) => {
            print_number(i64::from(local), line);
            print_number(i64::from(byte), line);
        }
        Operands::Index(index) => print_number(i64::from(index), line),
        Operands::IndexHalf(index, half) => {
            print_number(i64::from(index), line);
            print_number(i64::from(half), line);
        }
        Operands::Offset(offset) => {
            line.text(" ");
            line.hex(u64::from(target_of(at, offset)), 8);
        }
    }
}

/// Appends an instruction's mnemonic.
pub fn print_name(instr: Instr, line: &mut Line)
    requires { length line.old + 64 ≤ 512 }
    ensures { line.new ≡ line.old ++ mnemonic_of instr }
{
    line.text(name(instr));
}

/// Appends an instruction's text, as it stands at this byte address.
pub fn print_instr(instr: Instr, at: u32, line: &mut Line)
    requires { length line.old + 64 ≤ 512 }
    ensures { line.new ≡ line.old ++ instr_text instr at }
{
    line.text(name(instr));
    print_operands(instr.row().operands, at, line);
}
