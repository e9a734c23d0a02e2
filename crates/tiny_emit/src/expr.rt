//! Appends the code of an expression, which leaves one word on the stack.

ghost use Rattle.std.specs.Prelude.{◌≡◌, ◌+◌, OnOk, IfOk};
ghost use Rattle.tiny_code.specs.Prelude.{operator_code};
ghost use Rattle.ijvm_text.specs.Prelude.{Puts};
ghost use Rattle.tiny_emit.specs.Appended.{code_of_arguments, code_of_call, code_of_expr, code_of_steps, code_of_term};

use ijvm_instr::Instr;
use ijvm_text::put;
use std::alloc::AllocError;
use tiny_pool::Table;
use tiny_tree::{Expr, Operator, Step, Term};

fn operator(operator: Operator) -> Instr
    ensures { result ≡ operator_code operator }
{
    match operator {
        Operator::Plus => Instr::Iadd,
        Operator::Minus => Instr::Isub,
        Operator::And => Instr::Iand,
        Operator::Or => Instr::Ior,
    }
}

/// The local of a variable.
pub(crate) fn local_of(local: u8, place: u32) -> Result<u8, AllocError>
    ensures { IfOk result (λ k. k ≡ local + place) }
{
    if place > 254 || local > 1 {
        return Err(AllocError);
    }
    Ok(local + place as u8)
}

#[cycle(expr)]
pub(crate) fn put_term(
    bytes: &mut Vec<u8>,
    table: &Table,
    local: u8,
    term: &Term,
) -> Result<(), AllocError>
    ensures { OnOk result (Puts bytes.old bytes.new (code_of_term table.now local term.now)) }
{
    match term {
        Term::Number(number) => {
            let instr = table.number(*number)?;
            put(bytes, instr)
        }
        Term::Variable(place) => {
            let instr = Instr::Iload(local_of(local, *place)?);
            put(bytes, instr)
        }
        Term::Call {
            function,
            arguments,
        } => put_call(bytes, table, local, *function, arguments.items()),
        Term::Get => put(bytes, Instr::In),
        Term::Group(inner) => put_expr(bytes, table, local, inner),
    }
}

#[cycle(expr)]
pub(crate) fn put_call(
    bytes: &mut Vec<u8>,
    table: &Table,
    local: u8,
    function: u32,
    arguments: &[Expr],
) -> Result<(), AllocError>
    ensures { OnOk result (Puts bytes.old bytes.new (code_of_call table.now local function arguments.now)) }
{
    let call = table.call(function)?;
    put(bytes, Instr::LdcW(0))?;
    put_arguments(bytes, table, local, arguments)?;
    put(bytes, call)
}

#[cycle(expr)]
pub(crate) fn put_expr(
    bytes: &mut Vec<u8>,
    table: &Table,
    local: u8,
    expr: &Expr,
) -> Result<(), AllocError>
    ensures { OnOk result (Puts bytes.old bytes.new (code_of_expr table.now local expr.now)) }
{
    put_term(bytes, table, local, &expr.first)?;
    put_steps(bytes, table, local, expr.rest.items())
}

#[cycle(expr)]
fn put_steps(
    bytes: &mut Vec<u8>,
    table: &Table,
    local: u8,
    steps: &[Step],
) -> Result<(), AllocError>
    ensures { OnOk result (Puts bytes.old bytes.new (code_of_steps table.now local steps.now)) }
{
    for step in steps {
        put_term(bytes, table, local, &step.term)?;
        put(bytes, operator(step.operator))?;
    }
    Ok(())
}

#[cycle(expr)]
fn put_arguments(
    bytes: &mut Vec<u8>,
    table: &Table,
    local: u8,
    arguments: &[Expr],
) -> Result<(), AllocError>
    ensures { OnOk result (Puts bytes.old bytes.new (code_of_arguments table.now local arguments.now)) }
{
    for argument in arguments {
        put_expr(bytes, table, local, argument)?;
    }
    Ok(())
}
