//! The code of a unit.

ghost use Rattle.std.specs.Prelude.{◌≡◌, ◌<◌, ◌^◌, length, All, IfOk, OnOk, sum_by};
ghost use Rattle.ijvm_program.specs.Prelude.{line_size};
ghost use Rattle.method_linker.specs.Steps.{line_places, HasIndex, IsLinkable, AddsLine, AddsUnit};

use crate::distance::distance;
use ijvm_instr::Instr;
use ijvm_program::{CodeLine, Operation, size_of};
use ijvm_text::Text;
use std::alloc::{AllocError, Global};

/// Where each line stands in the unit's code. Code of 2^30 bytes or more may be reported as out of memory.
fn line_places(alloc: Global, lines: &[CodeLine]) -> Result<Vec<u32>, AllocError>
    ensures places { IfOk result (λ places. places.items ≡ line_places lines.now) }
    ensures few { IfOk result (λ places. sum_by line_size lines.now < 2 ^ 31) }
{
    let mut places = Vec::new(alloc);
    let mut place = 0;
    for line in lines {
        if place >= 1 << 30 {
            return Err(AllocError);
        }
        places.push(place)?;
        place += u32::from(size_of(line));
    }
    Ok(places)
}

/// Appends the instruction of a line that jumps so far.
fn push_line(text: &mut Text, line: &CodeLine, first: u32, distance: i32) -> Result<(), AllocError>
    requires { HasIndex first line.now.operation }
    ensures { OnOk result (AddsLine first text.old text.new line.now distance) }
{
    match line.operation {
        Operation::Plain(instr) => text.add(instr),
        Operation::Constant(index) => text.add(Instr::LdcW(index as u16)),
        Operation::Call(index) => text.add(Instr::Invokevirtual((first + index) as u16)),
        Operation::To { jump, .. } => text.add_jump(jump, line.line, distance),
    }
}

/// Appends the code of these lines.
fn push_lines(
    text: &mut Text,
    lines: &[CodeLine],
    places: &[u32],
    first: u32,
) -> Result<(), AllocError>
    requires few { sum_by line_size lines.now < 2 ^ 31 }
    requires placed { places.now ≡ line_places lines.now }
    requires linkable { All (IsLinkable first (length lines.now)) lines.now }
    ensures { OnOk result (AddsUnit first text.old text.new lines.now) }
{
    for (position, line) in lines.iter().enumerate() {
        let far = distance(lines, places, position, line.operation);
        push_line(text, line, first, far)?;
    }
    Ok(())
}

/// Appends the code of a unit, where the methods' entries begin at this index of the pool.
pub fn push_code(
    alloc: Global,
    text: &mut Text,
    lines: &[CodeLine],
    first: u32,
) -> Result<(), AllocError>
    requires { All (IsLinkable first (length lines.now)) lines.now }
    ensures { OnOk result (AddsUnit first text.old text.new lines.now) }
{
    let places = line_places(alloc, lines)?;
    push_lines(text, lines, &places, first)
}
