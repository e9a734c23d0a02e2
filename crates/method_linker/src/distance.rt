//! How far lines jump.

ghost use Rattle.std.specs.Prelude.{◌≡◌, ◌<◌, ◌^◌, length, sum_by};
ghost use Rattle.ijvm_program.specs.Prelude.{line_size};
ghost use Rattle.method_linker.specs.Linked.{distance};
ghost use Rattle.method_linker.specs.Steps.{line_places, HasTarget};

use ijvm_program::{CodeLine, Operation};

/// How far the line at this position jumps.
pub fn distance(lines: &[CodeLine], places: &[u32], position: usize, operation: Operation) -> i32
    requires few { sum_by line_size lines.now < 2 ^ 31 }
    requires placed { places.now ≡ line_places lines.now }
    requires position { position < length lines.now }
    requires target { HasTarget (length lines.now) operation }
    ensures { result ≡ distance lines.now position operation }
{
    match operation {
        Operation::To { target, .. } => places[target as usize] as i32 - places[position] as i32,
        Operation::Plain(_) | Operation::Constant(_) | Operation::Call(_) => 0,
    }
}
