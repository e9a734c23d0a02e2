//! The code of statements and blocks.

ghost use Rattle.std.specs.Prelude.{◌∷◌, ◌++◌, [], IfOk, OnOk};
ghost use Rattle.ijvm_text.specs.Prelude.{AddsCode, Puts};
ghost use Rattle.tiny_emit.specs.Appended.{AddsBlock, AddsStatement, AddsStatements, IsBlock, IsElse, code_of_call_alone, code_of_expr, code_of_store};

use crate::choice::{add_if, add_while};
use crate::expr::{local_of, put_call, put_expr};
use ijvm_instr::Instr;
use ijvm_text::{Text, put};
use std::alloc::{AllocError, Global};
use tiny_pool::Table;
use tiny_tree::{Block, Expr, Statement};

/// Appends a value, and an instruction that takes it.
fn put_value(
    bytes: &mut Vec<u8>,
    table: &Table,
    local: u8,
    value: &Expr,
    instr: Instr,
) -> Result<(), AllocError>
    ensures { OnOk result (Puts bytes.old bytes.new (code_of_expr table.now local value.now ++ instr ∷ [])) }
{
    put_expr(bytes, table, local, value)?;
    put(bytes, instr)
}

/// Appends a call, and drops its value.
fn put_call_alone(
    bytes: &mut Vec<u8>,
    table: &Table,
    local: u8,
    function: u32,
    arguments: &[Expr],
) -> Result<(), AllocError>
    ensures { OnOk result (Puts bytes.old bytes.new (code_of_call_alone table.now local function arguments.now)) }
{
    put_call(bytes, table, local, function, arguments)?;
    put(bytes, Instr::Pop)
}

/// Appends a value that goes into a variable.
fn add_store(
    text: &mut Text,
    table: &Table,
    local: u8,
    place: u32,
    value: &Expr,
) -> Result<(), AllocError>
    ensures { OnOk result (AddsCode text.old text.new (code_of_store table.now local place value.now) []) }
{
    let instr = Instr::Istore(local_of(local, place)?);
    put_value(&mut text.bytes, table, local, value, instr)
}

#[cycle(block)]
fn add_statement(
    text: &mut Text,
    alloc: Global,
    table: &Table,
    local: u8,
    statement: &Statement,
) -> Result<(), AllocError>
    ensures { OnOk result (AddsStatement table.now local text.old text.new statement.now) }
{
    match statement {
        Statement::Var { place, value } => add_store(text, table, local, *place, value),
        Statement::Assign { place, value } => add_store(text, table, local, *place, value),
        Statement::Call {
            function,
            arguments,
        } => put_call_alone(&mut text.bytes, table, local, *function, arguments.items()),
        Statement::If {
            line,
            cond,
            taken,
            otherwise,
        } => {
            let first = text_of(alloc, table, local, taken)?;
            let second = text_of_else(alloc, table, local, otherwise)?;
            add_if(text, table, local, *line, cond, &first, &second)
        }
        Statement::While { line, cond, body } => {
            let body = text_of(alloc, table, local, body)?;
            add_while(text, table, local, *line, cond, &body)
        }
        Statement::Return(value) => put_value(&mut text.bytes, table, local, value, Instr::Ireturn),
        Statement::Put(value) => put_value(&mut text.bytes, table, local, value, Instr::Out),
        Statement::Halt => text.add(Instr::Halt),
    }
}

/// The code of a block, from its beginning.
#[cycle(block)]
fn text_of(alloc: Global, table: &Table, local: u8, block: &Block) -> Result<Text, AllocError>
    ensures { IfOk result (λ text. IsBlock table.now local text block.now) }
{
    let mut text = Text::new(alloc);
    add_block(&mut text, alloc, table, local, block)?;
    Ok(text)
}

/// The code of the block after `else`, none if there is none.
#[cycle(block)]
fn text_of_else(
    alloc: Global,
    table: &Table,
    local: u8,
    otherwise: &Option<Block>,
) -> Result<Text, AllocError>
    ensures { IfOk result (λ text. IsElse table.now local text otherwise.now) }
{
    match otherwise {
        None => Ok(Text::new(alloc)),
        Some(block) => text_of(alloc, table, local, block),
    }
}

#[cycle(block)]
pub(crate) fn add_block(
    text: &mut Text,
    alloc: Global,
    table: &Table,
    local: u8,
    block: &Block,
) -> Result<(), AllocError>
    ensures { OnOk result (AddsBlock table.now local text.old text.new block.now) }
{
    add_statements(text, alloc, table, local, block.statements.items())
}

#[cycle(block)]
fn add_statements(
    text: &mut Text,
    alloc: Global,
    table: &Table,
    local: u8,
    statements: &[Statement],
) -> Result<(), AllocError>
    ensures { OnOk result (AddsStatements table.now local text.old text.new statements.now) }
{
    for statement in statements {
        add_statement(text, alloc, table, local, statement)?;
    }
    Ok(())
}
