//! The numbers of a program, in the order of the text.

ghost use Rattle.std.specs.Prelude.{map, OnOk};
ghost use Rattle.std.specs.List.{flat_map};
ghost use Rattle.tiny_tree.specs.Prelude.{steps_of, block_tree, cond_tree, expr_tree, function_tree, statement_tree, step_tree, term_tree};
ghost use Rattle.tiny_code.specs.Prelude.{cond_numbers, expr_numbers, function_numbers, statement_numbers, statements_numbers, steps_numbers, term_numbers};
ghost use Rattle.tiny_pool.specs.Numbers.{numbers_of_arguments, numbers_of_else, numbers_of_sides};
ghost use Rattle.tiny_pool.specs.Seen.{Adds};

use crate::constants::Constants;
use std::alloc::AllocError;
use tiny_tree::{Block, Cond, Expr, Function, Statement, Step, Term};

#[cycle(expr)]
fn add_term(constants: &mut Constants, term: &Term) -> Result<(), AllocError>
    ensures { OnOk result (Adds constants.old constants.new (term_numbers (term_tree term.now))) }
{
    match term {
        Term::Number(number) => constants.add(*number),
        Term::Variable(_) | Term::Get => Ok(()),
        Term::Call {
            function: _,
            arguments,
        } => add_arguments(constants, arguments.items()),
        Term::Group(inner) => add_expr(constants, inner),
    }
}

#[cycle(expr)]
fn add_expr(constants: &mut Constants, expr: &Expr) -> Result<(), AllocError>
    ensures { OnOk result (Adds constants.old constants.new (expr_numbers (expr_tree expr.now))) }
{
    add_term(constants, &expr.first)?;
    add_steps(constants, expr.rest.items())
}

#[cycle(expr)]
fn add_steps(constants: &mut Constants, steps: &[Step]) -> Result<(), AllocError>
    ensures { OnOk result (Adds constants.old constants.new (steps_numbers (steps_of (map step_tree steps.now)))) }
{
    for step in steps {
        add_term(constants, &step.term)?;
    }
    Ok(())
}

#[cycle(expr)]
fn add_arguments(constants: &mut Constants, arguments: &[Expr]) -> Result<(), AllocError>
    ensures { OnOk result (Adds constants.old constants.new (numbers_of_arguments arguments.now)) }
{
    for argument in arguments {
        add_expr(constants, argument)?;
    }
    Ok(())
}

fn add_sides(constants: &mut Constants, left: &Expr, right: &Expr) -> Result<(), AllocError>
    ensures { OnOk result (Adds constants.old constants.new (numbers_of_sides left.now right.now)) }
{
    add_expr(constants, left)?;
    add_expr(constants, right)
}

fn add_cond(constants: &mut Constants, cond: &Cond) -> Result<(), AllocError>
    ensures { OnOk result (Adds constants.old constants.new (cond_numbers (cond_tree cond.now))) }
{
    match cond {
        Cond::Equal { left, right } => add_sides(constants, left, right),
        Cond::Different { left, right } => add_sides(constants, left, right),
        Cond::Less { left, right } => add_sides(constants, left, right),
    }
}

#[cycle(block)]
fn add_statement(constants: &mut Constants, statement: &Statement) -> Result<(), AllocError>
    ensures { OnOk result (Adds constants.old constants.new (statement_numbers (statement_tree statement.now))) }
{
    match statement {
        Statement::Var { place: _, value } => add_expr(constants, value),
        Statement::Assign { place: _, value } => add_expr(constants, value),
        Statement::Call {
            function: _,
            arguments,
        } => add_arguments(constants, arguments.items()),
        Statement::If {
            line: _,
            cond,
            taken,
            otherwise,
        } => {
            add_cond(constants, cond)?;
            add_block(constants, taken)?;
            add_otherwise(constants, otherwise)
        }
        Statement::While {
            line: _,
            cond,
            body,
        } => {
            add_cond(constants, cond)?;
            add_block(constants, body)
        }
        Statement::Return(value) | Statement::Put(value) => add_expr(constants, value),
        Statement::Halt => Ok(()),
    }
}

#[cycle(block)]
fn add_otherwise(constants: &mut Constants, otherwise: &Option<Block>) -> Result<(), AllocError>
    ensures { OnOk result (Adds constants.old constants.new (numbers_of_else otherwise.now)) }
{
    match otherwise {
        None => Ok(()),
        Some(block) => add_block(constants, block),
    }
}

#[cycle(block)]
fn add_block(constants: &mut Constants, block: &Block) -> Result<(), AllocError>
    ensures { OnOk result (Adds constants.old constants.new (statements_numbers (block_tree block.now))) }
{
    for statement in block.statements.items() {
        add_statement(constants, statement)?;
    }
    Ok(())
}

/// Adds the numbers of all functions.
pub(crate) fn add_functions(
    constants: &mut Constants,
    functions: &[Function],
) -> Result<(), AllocError>
    ensures { OnOk result
        (Adds constants.old constants.new (flat_map function_numbers (map function_tree functions.now))) }
{
    for function in functions {
        add_block(constants, &function.body)?;
    }
    Ok(())
}
