//! The code of a program.

ghost use Rattle.std.specs.Prelude.{◌≡◌, ◌<◌, ◌+◌, ◌++◌, [], IfOk, OnOk, length};
ghost use Rattle.ijvm_image.specs.Prelude.{header};
ghost use Rattle.tiny_code.specs.Prelude.{methods, places_of, method_part};
ghost use Rattle.ijvm_text.specs.Prelude.{Adds, AddsPart};
ghost use Rattle.tiny_emit.specs.Emitted.{AddsMain, AddsMethod, AddsMethods, AreUnitsOf, header_of, program_of};
ghost use Rattle.tiny_pool.specs.Prelude.{places_in};
ghost use Rattle.tiny_tree.specs.Prelude.{function_tree};

use crate::block::add_block;
use crate::vars::{sum, vars_of};
use ijvm_image::push_header;
use ijvm_instr::Instr;
use ijvm_text::{Text, Units};
use std::alloc::{AllocError, Global};
use tiny_pool::Table;
use tiny_tree::Function;

/// A count as a number of two bytes; it is an error if it does not fit one.
fn count_of(count: u32) -> Result<u16, AllocError>
    ensures { IfOk result (λ n. n ≡ count) }
{
    let Ok(count) = u16::try_from(count) else {
        return Err(AllocError);
    };
    Ok(count)
}

fn put_header(bytes: &mut Vec<u8>, parameters: u32, vars: u32) -> Result<(), AllocError>
    ensures { OnOk result (bytes.new.items ≡ bytes.old.items ++ header (parameters + 1) vars) }
{
    push_header(bytes, count_of(sum(parameters, 1)?)?, count_of(vars)?)
}

fn add_header(text: &mut Text, function: &Function) -> Result<(), AllocError>
    ensures { OnOk result (Adds text.old text.new (header_of function.now) []) }
{
    let vars = vars_of(&function.body)?;
    put_header(&mut text.bytes, function.parameters, vars)
}

/// Appends main's code.
fn add_main(
    text: &mut Text,
    alloc: Global,
    table: &Table,
    function: &Function,
) -> Result<(), AllocError>
    ensures { OnOk result (AddsMain (places_in table.now) text.old text.new (function_tree function.now)) }
{
    add_block(text, alloc, table, 0, &function.body)?;
    text.add(Instr::Halt)
}

/// Appends a function's code, after its header.
fn add_method(
    text: &mut Text,
    alloc: Global,
    table: &Table,
    function: &Function,
) -> Result<(), AllocError>
    ensures { OnOk result (AddsMethod (places_in table.now) text.old text.new (function_tree function.now)) }
{
    add_header(text, function)?;
    add_block(text, alloc, table, 1, &function.body)?;
    text.add(Instr::Bipush(0))?;
    text.add(Instr::Ireturn)
}

/// Appends a function, and where it begins.
fn add_unit(
    units: &mut Units,
    alloc: Global,
    table: &Table,
    function: &Function,
) -> Result<(), AllocError>
    ensures { OnOk result (AddsPart units.old units.new
        (method_part (places_in table.now) (0, function_tree function.now))) }
{
    units.entries.push(units.text.size()?)?;
    add_method(&mut units.text, alloc, table, function)
}

/// Appends the functions but main.
fn add_methods(
    units: &mut Units,
    alloc: Global,
    table: &Table,
    functions: &[Function],
    main: u32,
) -> Result<(), AllocError>
    ensures { OnOk result (AddsMethods (places_in table.now) units.old units.new
        (methods (program_of functions.now main))) }
{
    for (position, function) in functions.iter().enumerate() {
        if position != main as usize {
            add_unit(units, alloc, table, function)?;
        }
    }
    Ok(())
}

/// The code of the program of these functions. With a jump that is too far its text has its length, but not its bytes.
/// A text of 2^30 bytes or more may be reported as out of memory.
pub fn emit(
    alloc: Global,
    table: &Table,
    functions: &[Function],
    main: u32,
) -> Result<Units, AllocError>
    requires known { main < length functions.now }
    requires placed { places_in table.now ≡ places_of (program_of functions.now main) }
    ensures { IfOk result (AreUnitsOf (program_of functions.now main)) }
{
    let mut units = Units::new(alloc);
    add_main(&mut units.text, alloc, table, &functions[main as usize])?;
    add_methods(&mut units, alloc, table, functions, main)?;
    Ok(units)
}
