//! Methods: a header and code.

ghost use Rattle.std.specs.Prelude.{◌≤◌, ◌+◌, [], length, map, All, OnOk};
ghost use Rattle.ijvm_text.specs.Prelude.{Adds, AddsPart, AddsParts};
ghost use Rattle.method_linker.specs.Linked.{header_of, method_bytes, method_part, unit_jumps};
ghost use Rattle.method_linker.specs.Steps.{IsLinkableUnit};

use crate::code::push_code;
use ijvm_image::push_header;
use ijvm_program::Unit;
use ijvm_text::{Text, Units};
use std::alloc::{AllocError, Global};

/// Appends the counts of a method: its parameters with the object reference, and its other locals.
fn push_counts(text: &mut Text, method: &Unit) -> Result<(), AllocError>
    requires { length method.now.parameters + length method.now.locals ≤ 65534 }
    ensures { OnOk result (Adds text.old text.new (header_of method.now) []) }
{
    push_header(
        &mut text.bytes,
        method.parameters().len() as u16 + 1,
        method.locals().len() as u16,
    )
}

/// Appends the counts and the code of a method.
fn push_text(alloc: Global, text: &mut Text, method: &Unit, first: u32) -> Result<(), AllocError>
    requires { IsLinkableUnit first method.now }
    ensures { OnOk result (Adds text.old text.new (method_bytes first method.now) (unit_jumps method.now.lines)) }
{
    push_counts(text, method)?;
    push_code(alloc, text, method.lines(), first)
}

fn push_method(
    alloc: Global,
    units: &mut Units,
    method: &Unit,
    first: u32,
) -> Result<(), AllocError>
    requires { IsLinkableUnit first method.now }
    ensures { OnOk result (AddsPart units.old units.new (method_part first method.now)) }
{
    units.entries.push(units.text.size()?)?;
    push_text(alloc, &mut units.text, method, first)
}

/// Appends methods, where their entries begin at this index of the pool.
pub fn push_methods(
    alloc: Global,
    units: &mut Units,
    methods: &[Unit],
    first: u32,
) -> Result<(), AllocError>
    requires { All (IsLinkableUnit first) methods.now }
    ensures { OnOk result (AddsParts units.old units.new (map (method_part first) methods.now)) }
{
    for method in methods {
        push_method(alloc, units, method, first)?;
    }
    Ok(())
}
