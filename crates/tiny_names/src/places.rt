//! Trees in which names are positions.

ghost use Rattle.std.specs.Prelude.{◌≡◌, ◌==◌, ◌<◌, ◌≤◌, IfOk, IfSome, length, map, option_map, position};
ghost use Rattle.tiny_tree.specs.Prelude.{arguments_of, else_of, steps_of, block_tree, cond_tree, expr_tree, statement_tree, step_tree, term_tree};
ghost use Rattle.tiny_names.specs.Names.{lookup};
ghost use Rattle.tiny_names.specs.Resolved.{function_place, place_in};
ghost use Rattle.tiny_names.specs.ResolvedParts.{resolved_arguments, resolved_block, resolved_call, resolved_cond, resolved_else, resolved_expr, resolved_if, resolved_statement, resolved_steps, resolved_sum, resolved_term, resolved_while};

use crate::functions::{Signature, called};
use std::alloc::{AllocError, Global};
use std::slice::from_ref;
use tiny_draft::{
    Block as WrittenBlock, Branches as WrittenBranches, Comparison, Cond as WrittenCond,
    Expr as WrittenExpr, Statement as WrittenStatement, Step as WrittenStep, Sum as WrittenSum,
    Term as WrittenTerm,
};
use tiny_tree::{Block, Cond, Expr, Items, Statement, Step, Term};

fn position(names: &[u32], name: u32) -> Option<usize>
    ensures place { result ≡ position (λ n. n == name) names.now }
    ensures within { IfSome result (λ place. place < length names.now) }
{
    names.iter().position(|n| *n == name)
}

fn place_in(names: &[u32], name: u32) -> u32
    requires { length names.now ≤ 255 }
    ensures { result ≡ place_in names.now name }
{
    match position(names, name) {
        Some(place) => place as u32,
        None => 0,
    }
}

fn function_place(functions: &[Option<Signature>], name: u32) -> u32
    ensures { result ≡ function_place (lookup functions.now name) }
{
    match called(functions, name) {
        Some(function) => function.place,
        None => 0,
    }
}

#[cycle(places)]
fn term(
    alloc: Global,
    functions: &[Option<Signature>],
    names: &[u32],
    written: &WrittenTerm,
) -> Result<Term, AllocError>
    requires { length names.now ≤ 255 }
    ensures { IfOk result (λ t. term_tree t ≡ resolved_term functions.now names.now written.now) }
{
    match written {
        WrittenTerm::Number(value) => Ok(Term::number(*value)),
        WrittenTerm::Variable { name, line: _ } => Ok(Term::variable(place_in(names, *name))),
        WrittenTerm::Call(call) => {
            let passed = arguments(alloc, functions, names, call.arguments.items())?;
            Ok(Term::call(function_place(functions, call.name), passed))
        }
        WrittenTerm::Get => Ok(Term::get()),
        WrittenTerm::Group(inside) => {
            let inner = expr(alloc, functions, names, inside)?;
            let group = Term::group(alloc, inner)?;
            Ok(group)
        }
    }
}

#[cycle(places)]
fn expr(
    alloc: Global,
    functions: &[Option<Signature>],
    names: &[u32],
    written: &WrittenExpr,
) -> Result<Expr, AllocError>
    requires { length names.now ≤ 255 }
    ensures { IfOk result (λ e. expr_tree e ≡ resolved_expr functions.now names.now written.now) }
{
    match written {
        WrittenExpr::Alone(only) => {
            let first = term(alloc, functions, names, only)?;
            Ok(Expr::new(first, Items::new(alloc)))
        }
        WrittenExpr::Sum(whole) => {
            let found = sum(alloc, functions, names, whole)?;
            Ok(found)
        }
    }
}

#[cycle(places)]
fn sum(
    alloc: Global,
    functions: &[Option<Signature>],
    names: &[u32],
    written: &WrittenSum,
) -> Result<Expr, AllocError>
    requires { length names.now ≤ 255 }
    ensures { IfOk result (λ e. expr_tree e ≡ resolved_sum functions.now names.now written.now) }
{
    let first = term(alloc, functions, names, &written.first)?;
    let rest = steps(alloc, functions, names, written.rest.items())?;
    Ok(Expr::new(first, rest))
}

#[cycle(places)]
fn steps(
    alloc: Global,
    functions: &[Option<Signature>],
    names: &[u32],
    written: &[WrittenStep],
) -> Result<Items<Step>, AllocError>
    requires { length names.now ≤ 255 }
    ensures { IfOk result (λ ss. steps_of (map step_tree ss) ≡ resolved_steps functions.now names.now written.now) }
{
    let mut found = Items::with_capacity(alloc, written.len())?;
    for step in written {
        let next = term(alloc, functions, names, &step.term)?;
        found.push(Step::new(step.operator, next))?;
    }
    Ok(found)
}

#[cycle(places)]
fn arguments(
    alloc: Global,
    functions: &[Option<Signature>],
    names: &[u32],
    written: &[WrittenExpr],
) -> Result<Items<Expr>, AllocError>
    requires { length names.now ≤ 255 }
    ensures { IfOk result (λ es. arguments_of (map expr_tree es) ≡ resolved_arguments functions.now names.now written.now) }
{
    let mut passed = Items::with_capacity(alloc, written.len())?;
    for argument in written {
        let one = expr(alloc, functions, names, argument)?;
        passed.push(one)?;
    }
    Ok(passed)
}

fn cond(
    alloc: Global,
    functions: &[Option<Signature>],
    names: &[u32],
    written: &WrittenCond,
) -> Result<Cond, AllocError>
    requires { length names.now ≤ 255 }
    ensures { IfOk result (λ c. cond_tree c ≡ resolved_cond functions.now names.now written.now) }
{
    let left = expr(alloc, functions, names, &written.left)?;
    let right = expr(alloc, functions, names, &written.right)?;
    match written.comparison {
        Comparison::Equal => Ok(Cond::equal(left, right)),
        Comparison::Different => Ok(Cond::different(left, right)),
        Comparison::Less => Ok(Cond::less(left, right)),
    }
}

/// A call that is a statement.
fn call(
    alloc: Global,
    functions: &[Option<Signature>],
    names: &[u32],
    name: u32,
    written: &[WrittenExpr],
) -> Result<Statement, AllocError>
    requires { length names.now ≤ 255 }
    ensures { IfOk result (λ s. statement_tree s ≡ resolved_call functions.now names.now name written.now) }
{
    let passed = arguments(alloc, functions, names, written)?;
    Ok(Statement::call(function_place(functions, name), passed))
}

#[cycle(blocks)]
fn choice(
    alloc: Global,
    functions: &[Option<Signature>],
    names: &[u32],
    line: u32,
    test: &WrittenCond,
    branches: &WrittenBranches,
) -> Result<Statement, AllocError>
    requires { length names.now ≤ 255 }
    ensures { IfOk result (λ s. statement_tree s ≡ resolved_if functions.now names.now line test.now branches.now) }
{
    let decided = cond(alloc, functions, names, test)?;
    let first = block(alloc, functions, names, &branches.taken)?;
    let second = otherwise(alloc, functions, names, &branches.otherwise)?;
    Ok(Statement::choice(line, decided, first, second))
}

#[cycle(blocks)]
fn repeat(
    alloc: Global,
    functions: &[Option<Signature>],
    names: &[u32],
    line: u32,
    test: &WrittenCond,
    body: &WrittenBlock,
) -> Result<Statement, AllocError>
    requires { length names.now ≤ 255 }
    ensures { IfOk result (λ s. statement_tree s ≡ resolved_while functions.now names.now line test.now body.now) }
{
    let decided = cond(alloc, functions, names, test)?;
    let repeated = block(alloc, functions, names, body)?;
    Ok(Statement::repeat(line, decided, repeated))
}

#[cycle(blocks)]
fn statement(
    alloc: Global,
    functions: &[Option<Signature>],
    names: &[u32],
    written: &WrittenStatement,
) -> Result<Statement, AllocError>
    requires { length names.now ≤ 255 }
    ensures { IfOk result (λ s. statement_tree s ≡ resolved_statement functions.now names.now written.now) }
{
    match written {
        WrittenStatement::Var { name, value, .. } => {
            Ok(Statement::var(
                place_in(names, *name),
                expr(alloc, functions, names, value)?,
            ))
        }
        WrittenStatement::Assign { name, value, .. } => {
            Ok(Statement::assign(
                place_in(names, *name),
                expr(alloc, functions, names, value)?,
            ))
        }
        WrittenStatement::Call {
            name,
            arguments,
            ..
        } => call(alloc, functions, names, *name, arguments.items()),
        WrittenStatement::CallWithOne { name, argument, .. } => {
            call(alloc, functions, names, *name, from_ref(argument))
        }
        WrittenStatement::If {
            line,
            cond,
            branches,
        } => choice(alloc, functions, names, *line, cond, branches),
        WrittenStatement::While { line, cond, body } => {
            repeat(alloc, functions, names, *line, cond, body)
        }
        WrittenStatement::Return { value, .. } => {
            Ok(Statement::give_back(expr(alloc, functions, names, value)?))
        }
        WrittenStatement::Put(value) => Ok(Statement::put(expr(alloc, functions, names, value)?)),
        WrittenStatement::Halt => Ok(Statement::halt()),
    }
}

#[cycle(blocks)]
fn otherwise(
    alloc: Global,
    functions: &[Option<Signature>],
    names: &[u32],
    written: &Option<WrittenBlock>,
) -> Result<Option<Block>, AllocError>
    requires { length names.now ≤ 255 }
    ensures { IfOk result (λ b. else_of (option_map block_tree b) ≡ resolved_else functions.now names.now written.now) }
{
    match written {
        None => Ok(None),
        Some(inside) => {
            let other = block(alloc, functions, names, inside)?;
            Ok(Some(other))
        }
    }
}

#[cycle(blocks)]
pub(crate) fn block(
    alloc: Global,
    functions: &[Option<Signature>],
    names: &[u32],
    written: &WrittenBlock,
) -> Result<Block, AllocError>
    requires { length names.now ≤ 255 }
    ensures { IfOk result (λ b. block_tree b ≡ resolved_block functions.now names.now written.now) }
{
    let written_statements = written.statements.items();
    let mut found = Items::with_capacity(alloc, written_statements.len())?;
    for one in written_statements {
        let next = statement(alloc, functions, names, one)?;
        found.push(next)?;
    }
    Ok(Block::new(found))
}
