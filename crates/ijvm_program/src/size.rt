//! The sizes of code lines.

ghost use Rattle.std.specs.Prelude.{◌≡◌, ◌≤◌};
ghost use Rattle.ijvm_program.specs.Layout.{line_size};

use crate::line::{CodeLine, Operation};

/// The bytes of a line's instruction.
pub fn size_of(line: &CodeLine) -> u8
    ensures is { result ≡ line_size line.now }
    ensures few { result ≤ 6 }
{
    match line.operation {
        Operation::Plain(instr) => instr.row().size() as u8,
        Operation::Constant(_) | Operation::Call(_) | Operation::To { .. } => 3,
    }
}
