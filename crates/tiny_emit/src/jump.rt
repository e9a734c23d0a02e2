//! Jumps forward and back.

ghost use Rattle.std.specs.Prelude.{◌<◌, ◌^◌, pos, neg_ℤ, OnOk};
ghost use Rattle.ijvm_program.specs.declared.line.Jump.TheVariants.{Goto};
ghost use Rattle.ijvm_text.specs.Prelude.{AddsJump};

use ijvm_program::Jump;
use ijvm_text::Text;
use std::alloc::AllocError;

/// Appends a jump to what comes later.
pub(crate) fn add_forward_jump(
    text: &mut Text,
    jump: Jump,
    line: u32,
    distance: u32,
) -> Result<(), AllocError>
    requires { distance < 2 ^ 31 }
    ensures { OnOk result (AddsJump text.old text.new jump line (pos distance)) }
{
    text.add_jump(jump, line, distance as i32)
}

/// Appends a jump to what came earlier.
pub(crate) fn add_backward_jump(text: &mut Text, line: u32, distance: u32) -> Result<(), AllocError>
    requires { distance < 2 ^ 31 }
    ensures { OnOk result (AddsJump text.old text.new Goto line (neg_ℤ (pos distance))) }
{
    text.add_jump(Jump::Goto, line, -(distance as i32))
}
