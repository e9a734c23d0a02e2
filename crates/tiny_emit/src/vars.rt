//! How many variables a block declares.

ghost use Rattle.std.specs.Prelude.{◌≡◌, ◌+◌, IfOk, map};
ghost use Rattle.tiny_tree.specs.Prelude.{vars_in, vars_of, statements_of, block_tree, statement_tree};

use std::alloc::AllocError;
use tiny_tree::{Block, Statement};

/// The sum of two counts; it is an error if it does not fit a u32.
pub(crate) fn sum(a: u32, b: u32) -> Result<u32, AllocError>
    ensures { IfOk result (λ n. n ≡ a + b) }
{
    match a.checked_add(b) {
        Some(n) => Ok(n),
        None => Err(AllocError),
    }
}

#[cycle(vars)]
fn vars_in(statement: &Statement) -> Result<u32, AllocError>
    ensures { IfOk result (λ n. n ≡ vars_in (statement_tree statement.now)) }
{
    match statement {
        Statement::Var { .. } => Ok(1),
        Statement::If {
            taken,
            otherwise: None,
            ..
        } => vars_of(taken),
        Statement::If {
            taken,
            otherwise: Some(other),
            ..
        } => {
            let first = vars_of(taken)?;
            let second = vars_of(other)?;
            sum(first, second)
        }
        Statement::While { body, .. } => vars_of(body),
        Statement::Assign { .. } => Ok(0),
        Statement::Call { .. } => Ok(0),
        Statement::Return(_) => Ok(0),
        Statement::Put(_) => Ok(0),
        Statement::Halt => Ok(0),
    }
}

/// How many `var` statements are in a block.
#[cycle(vars)]
pub(crate) fn vars_of(block: &Block) -> Result<u32, AllocError>
    ensures { IfOk result (λ n. n ≡ vars_of (block_tree block.now)) }
{
    vars_of_all(block.statements.items())
}

#[cycle(vars)]
fn vars_of_all(statements: &[Statement]) -> Result<u32, AllocError>
    ensures { IfOk result (λ n. n ≡ vars_of (statements_of (map statement_tree statements.now))) }
{
    let mut count = 0;
    for statement in statements {
        count = sum(count, vars_in(statement)?)?;
    }
    Ok(count)
}
