//! What the functions of a program are called.

ghost use Rattle.std.specs.Prelude.{◌≡◌, ℕ, IfOk, OnOk, map};
ghost use Rattle.tiny_draft.specs.Prelude.{function_tree};
ghost use Rattle.tiny_names.specs.Names.{PutsAt, called, lookup};

use std::alloc::{AllocError, Global};
use tiny_draft::Function;

/// A function's place, and how many parameters it has.
#[derive(Clone, Copy)]
pub struct Signature {
    pub place: u32,
    pub parameters: usize,
}

/// The first function of this name.
pub(crate) fn called(functions: &[Option<Signature>], name: u32) -> Option<Signature>
    ensures { result ≡ lookup functions.now name }
{
    let at = name as usize;
    if at < functions.len() {
        functions[at]
    } else {
        None
    }
}

/// The table of functions: at the number of each name, the first function with that name.
pub(crate) fn signatures(
    alloc: Global,
    functions: &[Function],
) -> Result<Vec<Option<Signature>>, AllocError>
    ensures { IfOk result (λ table.
        (name : ℕ) → lookup table.items name ≡ called (map function_tree functions.now) name) }
{
    let Ok(count) = u32::try_from(functions.len()) else {
        return Err(AllocError);
    };
    let mut table = Vec::new(alloc);
    let mut left = count;
    while left > 0 {
        left -= 1;
        let function = &functions[left as usize];
        let parameters = function.parameters.items().len();
        let signature = Signature {
            place: left,
            parameters,
        };
        put(&mut table, function.name.name, signature)?;
    }
    Ok(table)
}

fn put(
    table: &mut Vec<Option<Signature>>,
    name: u32,
    signature: Signature,
) -> Result<(), AllocError>
    ensures { OnOk result (PutsAt table.old.items table.new.items name signature) }
{
    let at = name as usize;
    while table.len() <= at {
        table.push(None)?;
    }
    table[at] = Some(signature);
    Ok(())
}
