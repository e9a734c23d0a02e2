//! The first wrong name of an expression: a variable that is not seen, a function that is missing, or one with another number of parameters.

ghost use Rattle.std.specs.Prelude.{◌≡◌};
ghost use Rattle.tiny_draft.specs.Prelude.{at};
ghost use Rattle.tiny_names.specs.Faults.{first, use_faults};
ghost use Rattle.tiny_names.specs.FirstFaults.{argument_fault, call_fault, cond_fault, expr_fault, name_fault, sum_fault, term_fault};
ghost use Rattle.tiny_names.specs.Names.{has};

use crate::fault::Fault;
use crate::functions::{Signature, called};
use tiny_draft::{Cond, Expr, Sum, Term};

/// The number of the name `main`.
pub(crate) const MAIN: u32 = 0;

pub(crate) fn has(names: &[u32], name: u32) -> bool
    ensures { result ≡ has names.now name }
{
    names.iter().any(|n| *n == name)
}

/// The fault of a variable that is used.
pub(crate) fn use_fault(seen: &[u32], name: u32, line: u32) -> Option<Fault>
    ensures { result ≡ first (use_faults seen.now (at name line)) }
{
    if has(seen, name) {
        None
    } else {
        Some(Fault::UnknownName(line))
    }
}

/// The fault of a function that is called, by its name.
#[tactic(auto, using(crate::proofs::Firsts::count_arguments))]
fn name_fault(
    functions: &[Option<Signature>],
    name: u32,
    line: u32,
    arguments: &[Expr],
) -> Option<Fault>
    ensures { result ≡ name_fault functions.now name line arguments.now }
{
    match called(functions, name) {
        None => Some(Fault::UnknownName(line)),
        Some(function) => {
            if name == MAIN || function.parameters != arguments.len() {
                Some(Fault::BadCall(line))
            } else {
                None
            }
        }
    }
}

#[cycle(faults)]
fn term_fault(functions: &[Option<Signature>], seen: &[u32], term: &Term) -> Option<Fault>
    ensures { result ≡ term_fault functions.now seen.now term.now }
{
    match term {
        Term::Number(_) | Term::Get => None,
        Term::Variable { name, line } => use_fault(seen, *name, *line),
        Term::Call(call) => {
            let items = call.arguments.items();
            if let Some(fault) = name_fault(functions, call.name, call.line, items) {
                return Some(fault);
            }
            argument_fault(functions, seen, items)
        }
        Term::Group(inner) => expr_fault(functions, seen, inner),
    }
}

#[cycle(faults)]
pub(crate) fn expr_fault(
    functions: &[Option<Signature>],
    seen: &[u32],
    expr: &Expr,
) -> Option<Fault>
    ensures { result ≡ expr_fault functions.now seen.now expr.now }
{
    match expr {
        Expr::Alone(term) => term_fault(functions, seen, term),
        Expr::Sum(sum) => sum_fault(functions, seen, sum),
    }
}

#[cycle(faults)]
fn sum_fault(functions: &[Option<Signature>], seen: &[u32], sum: &Sum) -> Option<Fault>
    ensures { result ≡ sum_fault functions.now seen.now sum.now }
{
    if let Some(fault) = term_fault(functions, seen, &sum.first) {
        return Some(fault);
    }
    for step in sum.rest.items() {
        if let Some(fault) = term_fault(functions, seen, &step.term) {
            return Some(fault);
        }
    }
    None
}

#[cycle(faults)]
fn argument_fault(
    functions: &[Option<Signature>],
    seen: &[u32],
    arguments: &[Expr],
) -> Option<Fault>
    ensures { result ≡ argument_fault functions.now seen.now arguments.now }
{
    for argument in arguments {
        if let Some(fault) = expr_fault(functions, seen, argument) {
            return Some(fault);
        }
    }
    None
}

/// The first fault of a call.
pub(crate) fn call_fault(
    functions: &[Option<Signature>],
    seen: &[u32],
    name: u32,
    line: u32,
    arguments: &[Expr],
) -> Option<Fault>
    ensures { result ≡ call_fault functions.now seen.now name line arguments.now }
{
    if let Some(fault) = name_fault(functions, name, line, arguments) {
        return Some(fault);
    }
    argument_fault(functions, seen, arguments)
}

pub(crate) fn cond_fault(
    functions: &[Option<Signature>],
    seen: &[u32],
    cond: &Cond,
) -> Option<Fault>
    ensures { result ≡ cond_fault functions.now seen.now cond.now }
{
    if let Some(fault) = expr_fault(functions, seen, &cond.left) {
        return Some(fault);
    }
    expr_fault(functions, seen, &cond.right)
}
