//! Names looked up: what a unit of the source stands for.

ghost use Rattle.std.specs.Prelude.{◌≡◌, ◌≤◌, [], Some, IfOk, IsSome, take, drop};
ghost use Rattle.ijvm_asm.specs.Names.{first_index, labels_of};
ghost use Rattle.ijvm_asm.specs.ReadingNames.{index_of, label_of, lines_from, lower, operation_of, unit_of, units_from, unknown_lines, unknown_units};

use crate::draft::Draft;
use ijvm_line::{Instruction, access_instr, increment_instr};
use ijvm_program::{CodeLine, Label, Operation, Unit};
use mic_base::Name;
use source_text::NamedList;
use std::alloc::{AllocError, Global};

/// Main's locals are numbered from 0; a method's parameters from 1, and its locals after them.
fn first_index(unit: &Draft) -> u16
    ensures is { result ≡ first_index unit.now }
    ensures small { result ≤ 1 }
{
    if unit.name.is_some() { 1 } else { 0 }
}

fn index_of(unit: &Draft, name: &Name) -> Option<u16>
    ensures { result ≡ index_of unit.now name.now }
{
    let place = unit.names.find(name)?;
    Some(place as u16 + first_index(unit))
}

fn label_of(unit: &Draft, label: &Name) -> Option<u32>
    ensures { result ≡ label_of unit.now label.now }
{
    let place = unit.labels.find(label)?;
    unit.label_positions.get(place as usize).copied()
}

/// What an instruction stands for, where its name is declared.
fn operation_of(
    constants: &NamedList<Name>,
    methods: &NamedList<Name>,
    unit: &Draft,
    instruction: &Instruction,
) -> Option<Operation>
    ensures { result ≡ operation_of constants.now methods.now unit.now instruction.now }
{
    match instruction {
        Instruction::Plain(instr) => Some(Operation::Plain(*instr)),
        Instruction::Constant(name) => Some(Operation::Constant(constants.find(name)?)),
        Instruction::Local {
            access,
            wide,
            local,
        } => {
            let index = index_of(unit, local)?;
            Some(Operation::Plain(access_instr(*access, *wide, index)))
        }
        Instruction::Increment { wide, local, by } => {
            let index = index_of(unit, local)?;
            Some(Operation::Plain(increment_instr(*wide, index, *by)))
        }
        Instruction::Jump(jump, label) => {
            let target = label_of(unit, label)?;
            Some(Operation::To {
                jump: *jump,
                target,
            })
        }
        Instruction::Call(name) => Some(Operation::Call(methods.find(name)?)),
    }
}

/// The lower of two lines, where there is a first.
fn lower(least: Option<u32>, line: u32) -> Option<u32>
    ensures { result ≡ lower least line }
{
    match least {
        Some(least) if least <= line => Some(least),
        _ => Some(line),
    }
}

/// The lowest of a line and the unit's lines that name what is not declared.
pub(crate) fn unknown_lines(
    constants: &NamedList<Name>,
    methods: &NamedList<Name>,
    unit: &Draft,
    least: Option<u32>,
) -> Option<u32>
    ensures { result ≡ unknown_lines constants.now methods.now unit.now least unit.now.lines }
{
    let mut least = least;
    let mut rest = unit.lines.as_slice();
    while let Some((first, after)) = rest.split_first() {
        if operation_of(constants, methods, unit, &first.instruction).is_none() {
            least = lower(least, first.line);
        }
        rest = after;
    }
    least
}

/// The lowest of a line and the lines of these units that name what is not declared.
pub(crate) fn unknown_units(
    constants: &NamedList<Name>,
    methods: &NamedList<Name>,
    least: Option<u32>,
    units: &[Draft],
) -> Option<u32>
    ensures { result ≡ unknown_units constants.now methods.now least units.now }
{
    let mut least = least;
    let mut rest = units;
    while let Some((first, after)) = rest.split_first() {
        least = unknown_lines(constants, methods, first, least);
        rest = after;
    }
    least
}

#[tactic(auto, using(crate::proofs::Known::first_line))]
fn lines_of(
    alloc: Global,
    constants: &NamedList<Name>,
    methods: &NamedList<Name>,
    unit: &Draft,
) -> Result<Vec<CodeLine>, AllocError>
    requires { IsSome (lines_from constants.now methods.now unit.now [] unit.now.lines) }
    ensures { IfOk result (λ v. lines_from constants.now methods.now unit.now [] unit.now.lines ≡ Some v.items) }
{
    let mut lines = Vec::new(alloc);
    let mut rest = unit.lines.as_slice();
    while let Some((first, after)) = rest.split_first() {
        let operation = operation_of(constants, methods, unit, &first.instruction).unwrap();
        lines.push(CodeLine {
            line: first.line,
            operation,
        })?;
        rest = after;
    }
    Ok(lines)
}

fn labels_of(alloc: Global, unit: &Draft) -> Result<Vec<Label>, AllocError>
    ensures { IfOk result (λ v. v.items ≡ labels_of unit.now) }
{
    unit.labels
        .items()
        .iter()
        .zip(unit.label_positions.iter())
        .map(|(name, at)| Label {
            name: *name,
            at: *at,
        })
        .collect(alloc)
}

fn parameters_of(alloc: Global, unit: &Draft) -> Result<Vec<Name>, AllocError>
    ensures { IfOk result (λ v. v.items ≡ take unit.now.parameters unit.now.names) }
{
    unit.names
        .items()
        .iter()
        .copied()
        .take(unit.parameters as usize)
        .collect(alloc)
}

fn locals_of(alloc: Global, unit: &Draft) -> Result<Vec<Name>, AllocError>
    ensures { IfOk result (λ v. v.items ≡ drop unit.now.parameters unit.now.names) }
{
    unit.names
        .items()
        .iter()
        .copied()
        .skip(unit.parameters as usize)
        .collect(alloc)
}

/// The unit with its names looked up, which are all declared.
#[tactic(auto, using(crate::proofs::Known::lines_known))]
pub(crate) fn unit_of(
    alloc: Global,
    constants: &NamedList<Name>,
    methods: &NamedList<Name>,
    draft: &Draft,
) -> Result<Unit, AllocError>
    requires { IsSome (unit_of constants.now methods.now draft.now) }
    ensures { IfOk result (λ u. unit_of constants.now methods.now draft.now ≡ Some u) }
{
    let lines = lines_of(alloc, constants, methods, draft)?;
    let labels = labels_of(alloc, draft)?;
    let parameters = parameters_of(alloc, draft)?;
    let locals = locals_of(alloc, draft)?;
    Ok(Unit::new(draft.name, parameters, locals, lines, labels))
}

/// The units with their names looked up, which are all declared.
#[tactic(auto, using(crate::proofs::Known::first_unit))]
pub(crate) fn units_of(
    alloc: Global,
    constants: &NamedList<Name>,
    methods: &NamedList<Name>,
    drafts: &[Draft],
) -> Result<Vec<Unit>, AllocError>
    requires { IsSome (units_from constants.now methods.now [] drafts.now) }
    ensures { IfOk result (λ v. units_from constants.now methods.now [] drafts.now ≡ Some v.items) }
{
    let mut units = Vec::new(alloc);
    let mut rest = drafts;
    while let Some((first, after)) = rest.split_first() {
        units.push(unit_of(alloc, constants, methods, first)?)?;
        rest = after;
    }
    Ok(units)
}
