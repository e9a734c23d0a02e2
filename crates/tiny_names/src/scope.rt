//! The first wrong name of a block: which names are seen at each statement, and which are declared twice.

ghost use Rattle.std.specs.Prelude.{◌≡◌, ◌≤◌, ◌++◌, ◌∷◌, [], IfOk, Ok, None, length};
ghost use Rattle.tiny_draft.specs.Prelude.{at, block_tree, statement_tree};
ghost use Rattle.tiny_names.specs.Faults.{declare_faults, first};
ghost use Rattle.tiny_names.specs.FirstFaults.{assign_fault, block_fault, else_fault, if_fault, names_of_branches, names_of_else, return_fault, statement_fault, var_fault, while_fault};
ghost use Rattle.tiny_names.specs.Names.{all_names, names, shows};

use crate::expr::{call_fault, cond_fault, expr_fault, has, use_fault};
use crate::fault::Fault;
use crate::functions::Signature;
use std::alloc::AllocError;
use std::slice::from_ref;
use tiny_draft::{Block, Branches, Cond, Expr, Statement};

/// How many names a function may declare.
const MOST: usize = 255;

/// Declares a name, or returns its fault.
pub(crate) fn declare(
    declared: &mut Vec<u32>,
    name: u32,
    line: u32,
) -> Result<Option<Fault>, AllocError>
    requires { length declared.old.items ≤ 255 }
    ensures fault { IfOk result (λ f. f ≡ first (declare_faults declared.old.items (at name line))) }
    ensures declared { result ≡ Ok None → declared.new.items ≡ declared.old.items ++ name ∷ [] }
    ensures few { length declared.new.items ≤ 255 }
{
    if has(declared, name) {
        return Ok(Some(Fault::DuplicateName(line)));
    }
    if MOST <= declared.len() {
        return Ok(Some(Fault::TooManyNames(line)));
    }
    declared.push(name)?;
    Ok(None)
}

/// A variable is not seen in the value that it begins with.
fn var_fault(
    functions: &[Option<Signature>],
    declared: &mut Vec<u32>,
    seen: &mut Vec<u32>,
    name: u32,
    line: u32,
    value: &Expr,
) -> Result<Option<Fault>, AllocError>
    requires { length declared.old.items ≤ 255 }
    ensures fault { IfOk result (λ f. f ≡ var_fault functions.now declared.old seen.old name line value.now) }
    ensures declared { result ≡ Ok None → declared.new.items ≡ declared.old.items ++ name ∷ [] }
    ensures seen { result ≡ Ok None → seen.new.items ≡ seen.old.items ++ name ∷ [] }
    ensures few { length declared.new.items ≤ 255 }
{
    if let Some(fault) = declare(declared, name, line)? {
        return Ok(Some(fault));
    }
    if let Some(fault) = expr_fault(functions, seen, value) {
        return Ok(Some(fault));
    }
    seen.push(name)?;
    Ok(None)
}

fn assign_fault(
    functions: &[Option<Signature>],
    seen: &[u32],
    name: u32,
    line: u32,
    value: &Expr,
) -> Option<Fault>
    ensures { result ≡ assign_fault functions.now seen.now name line value.now }
{
    if let Some(fault) = use_fault(seen, name, line) {
        return Some(fault);
    }
    expr_fault(functions, seen, value)
}

/// A `return` in `main` is wrong whatever it returns.
fn return_fault(
    functions: &[Option<Signature>],
    in_main: bool,
    seen: &[u32],
    line: u32,
    value: &Expr,
) -> Option<Fault>
    ensures { result ≡ return_fault functions.now in_main seen.now line value.now }
{
    if in_main {
        Some(Fault::ReturnInMain(line))
    } else {
        expr_fault(functions, seen, value)
    }
}

#[cycle(scope)]
fn statement_fault(
    functions: &[Option<Signature>],
    in_main: bool,
    declared: &mut Vec<u32>,
    seen: &mut Vec<u32>,
    statement: &Statement,
) -> Result<Option<Fault>, AllocError>
    requires { length declared.old.items ≤ 255 }
    ensures fault { IfOk result (λ f. f ≡ statement_fault functions.now in_main declared.old seen.old statement.now) }
    ensures declared { result ≡ Ok None → declared.new.items ≡ declared.old.items ++ names (statement_tree statement.now) }
    ensures seen { result ≡ Ok None → seen.new.items ≡ seen.old.items ++ shows (statement_tree statement.now) }
    ensures few { length declared.new.items ≤ 255 }
{
    match statement {
        Statement::Var { name, line, value } => {
            var_fault(functions, declared, seen, *name, *line, value)
        }
        Statement::Assign { name, line, value } => {
            Ok(assign_fault(functions, seen, *name, *line, value))
        }
        Statement::Call {
            name,
            line,
            arguments,
        } => Ok(call_fault(functions, seen, *name, *line, arguments.items())),
        Statement::CallWithOne {
            name,
            line,
            argument,
        } => Ok(call_fault(functions, seen, *name, *line, from_ref(argument))),
        Statement::If { cond, branches, .. } => {
            if_fault(functions, in_main, declared, seen, cond, branches)
        }
        Statement::While { cond, body, .. } => {
            while_fault(functions, in_main, declared, seen, cond, body)
        }
        Statement::Return { line, value } => {
            Ok(return_fault(functions, in_main, seen, *line, value))
        }
        Statement::Put(value) => Ok(expr_fault(functions, seen, value)),
        Statement::Halt => Ok(None),
    }
}

#[cycle(scope)]
fn if_fault(
    functions: &[Option<Signature>],
    in_main: bool,
    declared: &mut Vec<u32>,
    seen: &mut Vec<u32>,
    cond: &Cond,
    branches: &Branches,
) -> Result<Option<Fault>, AllocError>
    requires { length declared.old.items ≤ 255 }
    ensures fault { IfOk result (λ f. f ≡ if_fault functions.now in_main declared.old seen.old cond.now branches.now) }
    ensures declared { result ≡ Ok None → declared.new.items ≡ declared.old.items ++ names_of_branches branches.now }
    ensures seen { result ≡ Ok None → seen.new.items ≡ seen.old.items }
    ensures few { length declared.new.items ≤ 255 }
{
    if let Some(fault) = cond_fault(functions, seen, cond) {
        return Ok(Some(fault));
    }
    if let Some(fault) = block_fault(functions, in_main, declared, seen, &branches.taken)? {
        return Ok(Some(fault));
    }
    else_fault(functions, in_main, declared, seen, &branches.otherwise)
}

#[cycle(scope)]
fn while_fault(
    functions: &[Option<Signature>],
    in_main: bool,
    declared: &mut Vec<u32>,
    seen: &mut Vec<u32>,
    cond: &Cond,
    body: &Block,
) -> Result<Option<Fault>, AllocError>
    requires { length declared.old.items ≤ 255 }
    ensures fault { IfOk result (λ f. f ≡ while_fault functions.now in_main declared.old seen.old cond.now body.now) }
    ensures declared { result ≡ Ok None → declared.new.items ≡ declared.old.items ++ all_names (block_tree body.now) }
    ensures seen { result ≡ Ok None → seen.new.items ≡ seen.old.items }
    ensures few { length declared.new.items ≤ 255 }
{
    if let Some(fault) = cond_fault(functions, seen, cond) {
        return Ok(Some(fault));
    }
    block_fault(functions, in_main, declared, seen, body)
}

#[cycle(scope)]
fn else_fault(
    functions: &[Option<Signature>],
    in_main: bool,
    declared: &mut Vec<u32>,
    seen: &mut Vec<u32>,
    otherwise: &Option<Block>,
) -> Result<Option<Fault>, AllocError>
    requires { length declared.old.items ≤ 255 }
    ensures fault { IfOk result (λ f. f ≡ else_fault functions.now in_main declared.old seen.old otherwise.now) }
    ensures declared { result ≡ Ok None → declared.new.items ≡ declared.old.items ++ names_of_else otherwise.now }
    ensures seen { result ≡ Ok None → seen.new.items ≡ seen.old.items }
    ensures few { length declared.new.items ≤ 255 }
{
    match otherwise {
        None => Ok(None),
        Some(block) => block_fault(functions, in_main, declared, seen, block),
    }
}

/// What a block declares is not seen after it.
#[cycle(scope)]
pub(crate) fn block_fault(
    functions: &[Option<Signature>],
    in_main: bool,
    declared: &mut Vec<u32>,
    seen: &mut Vec<u32>,
    block: &Block,
) -> Result<Option<Fault>, AllocError>
    requires { length declared.old.items ≤ 255 }
    ensures fault { IfOk result (λ f. f ≡ block_fault functions.now in_main declared.old seen.old block.now) }
    ensures declared { result ≡ Ok None → declared.new.items ≡ declared.old.items ++ all_names (block_tree block.now) }
    ensures seen { result ≡ Ok None → seen.new.items ≡ seen.old.items }
    ensures few { length declared.new.items ≤ 255 }
{
    let before = seen.len();
    for statement in block.statements.items() {
        if let Some(fault) = statement_fault(functions, in_main, declared, seen, statement)? {
            return Ok(Some(fault));
        }
    }
    seen.truncate(before);
    Ok(None)
}
