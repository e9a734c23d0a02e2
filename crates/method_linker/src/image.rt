//! The image of a program.

ghost use Rattle.std.specs.Prelude.{◌≡◌, ◌≤◌, IfOk, IfErr};
ghost use Rattle.ijvm_text.specs.Prelude.{AreUnits};
ghost use Rattle.method_linker.specs.Linked.{layout_of, pool_size, IsLinked, IsRefused};

use crate::code::push_code;
use crate::error::LinkError;
use crate::method::push_methods;
use crate::pool::{pool_of, pool_size};
use ijvm_image::Image;
use ijvm_program::Program;
use ijvm_text::{FarJump, Text, Units};
use std::alloc::{AllocError, Global};

/// The words that a pool has room for.
const MOST_WORDS: u32 = 16_384;

/// The bytes that a text has room for.
const MOST_BYTES: u32 = 65_536;

/// Main's code, and then the methods in order.
fn units_of(alloc: Global, program: &Program) -> Result<Units, AllocError>
    requires { pool_size program.now ≤ 16384 }
    ensures { IfOk result (AreUnits (layout_of program.now)) }
{
    let first = program.constants().len() as u32;
    let mut units = Units::new(alloc);
    push_code(alloc, &mut units.text, program.main().lines(), first)?;
    push_methods(alloc, &mut units, program.methods(), first)?;
    Ok(units)
}

/// The refusal of a jump that leads too far.
fn too_far(jump: FarJump) -> LinkError
    ensures { result ≡ LinkError.JumpTooFar jump.line jump.distance }
{
    LinkError::JumpTooFar(jump.line, jump.distance)
}

/// The image of a program, or the first limit that it exceeds. A text of 2^30 bytes or more may be reported as out of memory.
pub fn link(alloc: Global, program: &Program) -> Result<Image, LinkError>
    ensures linked { IfOk result (IsLinked program.now) }
    ensures refused { IfErr result (IsRefused program.now) }
{
    let count = pool_size(program)?;
    if count > MOST_WORDS {
        return Err(LinkError::PoolTooLong(count));
    }
    let Units { text, entries } = units_of(alloc, program)?;
    let size = text.size()?;
    if size > MOST_BYTES {
        return Err(LinkError::TextTooLong(size));
    }
    let Text { bytes, far } = text;
    if let Some(jump) = far {
        return Err(too_far(jump));
    }
    let pool = pool_of(alloc, program, &entries)?;
    Ok(Image::new(bytes, pool))
}
