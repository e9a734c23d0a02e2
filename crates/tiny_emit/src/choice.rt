//! The code of tests, and of what is chosen by them.

ghost use Rattle.std.specs.Prelude.{◌≡◌, ◌<◌, ◌^◌, [], ℕ, OnOk};
ghost use Rattle.tiny_code.specs.Prelude.{Places};
ghost use Rattle.ijvm_text.specs.Prelude.{AddsCode, Puts};
ghost use Rattle.tiny_emit.specs.Appended.{AddsChoice, AddsIf, AddsLeave, AddsWhile, code_of_difference, code_of_sides, code_of_test, jump_of};
ghost use Rattle.tiny_tree.specs.Prelude.{cond_tree};

use crate::expr::put_expr;
use crate::jump::{add_backward_jump, add_forward_jump};
use ijvm_instr::Instr;
use ijvm_program::Jump;
use ijvm_text::{Text, put};
use std::alloc::AllocError;
use tiny_pool::Table;
use tiny_tree::{Cond, Expr};

fn put_sides(
    bytes: &mut Vec<u8>,
    table: &Table,
    local: u8,
    left: &Expr,
    right: &Expr,
) -> Result<(), AllocError>
    ensures { OnOk result (Puts bytes.old bytes.new (code_of_sides table.now local left.now right.now)) }
{
    put_expr(bytes, table, local, left)?;
    put_expr(bytes, table, local, right)
}

fn put_difference(
    bytes: &mut Vec<u8>,
    table: &Table,
    local: u8,
    left: &Expr,
    right: &Expr,
) -> Result<(), AllocError>
    ensures { OnOk result (Puts bytes.old bytes.new (code_of_difference table.now local left.now right.now)) }
{
    put_expr(bytes, table, local, left)?;
    put_expr(bytes, table, local, right)?;
    put(bytes, Instr::Isub)
}

fn put_test(bytes: &mut Vec<u8>, table: &Table, local: u8, cond: &Cond) -> Result<(), AllocError>
    ensures { OnOk result (Puts bytes.old bytes.new (code_of_test table.now local cond.now)) }
{
    match cond {
        Cond::Equal { left, right } => put_sides(bytes, table, local, left, right),
        Cond::Different { left, right } => put_sides(bytes, table, local, left, right),
        Cond::Less { left, right } => put_difference(bytes, table, local, left, right),
    }
}

fn add_test(text: &mut Text, table: &Table, local: u8, cond: &Cond) -> Result<(), AllocError>
    ensures { OnOk result (AddsCode text.old text.new (code_of_test table.now local cond.now) []) }
{
    put_test(&mut text.bytes, table, local, cond)
}

/// The jump of a test.
fn jump_of(cond: &Cond) -> Jump
    ensures { result ≡ jump_of (cond_tree cond.now) }
{
    match cond {
        Cond::Equal { .. } => Jump::IfIcmpeq,
        Cond::Different { .. } => Jump::IfIcmpeq,
        Cond::Less { .. } => Jump::Iflt,
    }
}

/// The second side is where the test jumps to.
fn add_choice(
    text: &mut Text,
    table: &Table,
    local: u8,
    line: u32,
    cond: &Cond,
    first: &Text,
    second: &Text,
) -> Result<(), AllocError>
    ensures { OnOk result (AddsChoice table.now local text.old text.new line cond.now first.now second.now) }
{
    add_test(text, table, local, cond)?;
    add_forward_jump(text, jump_of(cond), line, 6 + first.size()?)?;
    text.add_text(first)?;
    add_forward_jump(text, Jump::Goto, line, 3 + second.size()?)?;
    text.add_text(second)
}

/// An `if`, from its two blocks.
pub(crate) fn add_if(
    text: &mut Text,
    table: &Table,
    local: u8,
    line: u32,
    cond: &Cond,
    taken: &Text,
    other: &Text,
) -> Result<(), AllocError>
    ensures { OnOk result (AddsIf table.now local text.old text.new line cond.now taken.now other.now) }
{
    match cond {
        Cond::Different { .. } => add_choice(text, table, local, line, cond, taken, other),
        Cond::Equal { .. } => add_choice(text, table, local, line, cond, other, taken),
        Cond::Less { .. } => add_choice(text, table, local, line, cond, other, taken),
    }
}

/// What leads out of a loop with a body of this size, or into it.
fn add_leave(text: &mut Text, line: u32, cond: &Cond, size: u32) -> Result<(), AllocError>
    requires { size < 2 ^ 30 }
    ensures { (p : Places) (local : ℕ) → OnOk result (AddsLeave p local text.old text.new line cond.now size) }
{
    match cond {
        Cond::Different { .. } => add_forward_jump(text, Jump::IfIcmpeq, line, 6 + size),
        Cond::Equal { .. } => {
            add_forward_jump(text, Jump::IfIcmpeq, line, 6)?;
            add_forward_jump(text, Jump::Goto, line, 6 + size)
        }
        Cond::Less { .. } => {
            add_forward_jump(text, Jump::Iflt, line, 6)?;
            add_forward_jump(text, Jump::Goto, line, 6 + size)
        }
    }
}

/// A `while`, from its block.
pub(crate) fn add_while(
    text: &mut Text,
    table: &Table,
    local: u8,
    line: u32,
    cond: &Cond,
    body: &Text,
) -> Result<(), AllocError>
    ensures { OnOk result (AddsWhile table.now local text.old text.new line cond.now body.now) }
{
    let begin = text.size()?;
    add_test(text, table, local, cond)?;
    add_leave(text, line, cond, body.size()?)?;
    text.add_text(body)?;
    let end = text.size()?;
    add_backward_jump(text, line, end - begin)
}
