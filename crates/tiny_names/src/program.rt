//! The names of a whole program.

ghost use Rattle.std.specs.Prelude.{◌≡◌, ◌≤◌, ◌++◌, [], IfOk, IfErr, OnOk, Ok, None, length, map};
ghost use Rattle.tiny_draft.specs.View as draft_view;
ghost use Rattle.tiny_tree.specs.Prelude.{function_tree};
ghost use Rattle.tiny_names.specs.Faults.{all_faults, first, parameter_faults};
ghost use Rattle.tiny_names.specs.FirstFaults.{faults_of, inner_fault, own_fault};
ghost use Rattle.tiny_names.specs.Names.{name_of};
ghost use Rattle.tiny_names.specs.Resolved.{function_names, resolved};
ghost use Rattle.tiny_names.specs.ResolvedParts.{resolved_function};
ghost use Rattle.tiny_names.specs.View.{program_tree};
ghost use Rattle.tiny_names.specs.Unresolved.{IsFirst};

use crate::expr::MAIN;
use crate::fault::{Fault, Unresolved};
use crate::functions::{Signature, called, signatures};
use crate::places::block;
use crate::scope::{block_fault, declare};
use crate::tiny_program::TinyProgram;
use std::alloc::{AllocError, Global};
use tiny_draft::{Function as WrittenFunction, Word};
use tiny_tree::{Function, Items};

/// The fault of a function's own name.
fn own_fault(
    functions: &[Option<Signature>],
    place: usize,
    function: &WrittenFunction,
) -> Option<Fault>
    ensures { result ≡ own_fault functions.now place function.now }
{
    let line = function.name.line;
    match called(functions, function.name.name) {
        None => Some(Fault::DuplicateName(line)),
        Some(first) => {
            if first.place as usize != place {
                return Some(Fault::DuplicateName(line));
            }
            if function.name.name == MAIN && !function.parameters.items().is_empty() {
                return Some(Fault::BadCall(line));
            }
            None
        }
    }
}

/// Declares the parameters, or returns the first fault.
fn declare_all(declared: &mut Vec<u32>, parameters: &[Word]) -> Result<Option<Fault>, AllocError>
    requires { length declared.old.items ≤ 255 }
    ensures fault { IfOk result (λ f. f ≡ first (parameter_faults declared.old.items parameters.now)) }
    ensures declared { result ≡ Ok None → declared.new.items ≡ declared.old.items ++ map name_of parameters.now }
    ensures few { length declared.new.items ≤ 255 }
{
    for parameter in parameters {
        if let Some(fault) = declare(declared, parameter.name, parameter.line)? {
            return Ok(Some(fault));
        }
    }
    Ok(None)
}

/// The first fault of a function's parameters and of its body; if there is none, all its names are declared.
fn inner_fault(
    alloc: Global,
    functions: &[Option<Signature>],
    declared: &mut Vec<u32>,
    function: &WrittenFunction,
) -> Result<Option<Fault>, AllocError>
    requires { declared.old.items ≡ [] }
    ensures fault { IfOk result (λ f. f ≡ inner_fault functions.now function.now) }
    ensures declared { result ≡ Ok None → declared.new.items ≡ function_names (draft_view.function_tree function.now) }
    ensures few { length declared.new.items ≤ 255 }
{
    if let Some(fault) = declare_all(declared, function.parameters.items())? {
        return Ok(Some(fault));
    }
    let mut seen = Vec::with_capacity(alloc, declared.len())?;
    for name in declared.as_slice() {
        seen.push(*name)?;
    }
    let in_main = function.name.name == MAIN;
    block_fault(functions, in_main, declared, &mut seen, &function.body)
}

/// The function with positions for its names.
fn resolved_function(
    alloc: Global,
    functions: &[Option<Signature>],
    place: usize,
    function: &WrittenFunction,
) -> Result<Function, Unresolved>
    ensures ok { IfOk result (λ f. function_tree f ≡ resolved_function functions.now function.now) }
    ensures fits { OnOk result (first (faults_of functions.now place function.now) ≡ None) }
    ensures err { IfErr result (λ e. IsFirst e (faults_of functions.now place function.now)) }
{
    if let Some(fault) = own_fault(functions, place, function) {
        return Err(Unresolved::Fault(fault));
    }
    let mut declared = Vec::new(alloc);
    if let Some(fault) = inner_fault(alloc, functions, &mut declared, function)? {
        return Err(Unresolved::Fault(fault));
    }
    let parameters = function.parameters.items().len() as u32;
    let body = block(alloc, functions, &declared, &function.body)?;
    Ok(Function::new(parameters, body))
}

/// The program with positions for its names, or the first fault of a name.
pub fn resolve(alloc: Global, functions: Items<WrittenFunction>) -> Result<TinyProgram, Unresolved>
    ensures ok { IfOk result (λ p. program_tree p ≡ resolved (map draft_view.function_tree functions)) }
    ensures fits { OnOk result (all_faults (map draft_view.function_tree functions) ≡ []) }
    ensures err { IfErr result (λ e. IsFirst e (all_faults (map draft_view.function_tree functions))) }
{
    let written = functions.items();
    let table = signatures(alloc, written)?;
    let mut found = Items::with_capacity(alloc, written.len())?;
    let mut place = 0;
    for function in written {
        let one = resolved_function(alloc, &table, place, function)?;
        found.push(one)?;
        place += 1;
    }
    match called(&table, MAIN) {
        None => Err(Unresolved::Fault(Fault::NoMain)),
        Some(main) => Ok(TinyProgram::new(found, main.place)),
    }
}
