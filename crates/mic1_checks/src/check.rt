//! An instruction in two control stores.
ghost use Rattle.std.specs.Prelude.{◌≡◌, Ok, None};
ghost use Rattle.std.specs.List.{Contains};
ghost use Rattle.mic1_checks.specs.Common.{Mic1, AreOrdered};
ghost use Rattle.mic1_checks.specs.declared.shape.Shape.{Shape};
ghost use Rattle.mic1_checks.specs.Carried.{CarriesInstruction};
ghost use Rattle.mic1_checks.specs.Start.{HasRegisters};

use crate::facts::known_of;
use crate::finding::{Asked, Difference, Finding, Unlike};
use crate::instruction::Instruction;
use crate::leaf::Counts;
use crate::left::operands_after;
use crate::registers::{free_registers, has_registers};
use crate::shape::{SETTLED, Shape, WITH_BOTH, WITH_BYTE, WITH_WORD, shaped};
use crate::start::{Start, begin};
use crate::stores::Stores;
use crate::tree::explore;
use mic1_passes::Work;
use micro_terms::{environments_exist, is_ordered};
use std::alloc::{AllocError, Global};

/// The most answers on the way to a leaf.
pub const MOST_ANSWERS: u32 = 24;

/// A table of free registers, and this budget.
pub fn work_of(left: u64, alloc: Global) -> Result<Work, AllocError> {
    Ok(Work {
        nodes: free_registers(alloc)?,
        left,
        clocked: Vec::new(alloc),
    })
}

/// What is not shown of the paths that were followed, if some of them is not. That the table is as it was begun is tested
/// here, and not promised before.
pub fn finding_of(
    asked: Asked,
    shape: Shape,
    unlike: Option<Unlike>,
    work: Work,
    alloc: Global,
) -> Option<Finding>
    ensures none { result ≡ None → unlike ≡ None }
    ensures ordered { result ≡ None → AreOrdered work.nodes.nodes.items }
    ensures registers { result ≡ None → HasRegisters work.nodes.nodes.items }
{
    match unlike {
        Some(unlike) => Some(Finding::new(asked, shape, unlike, work)),
        None => {
            if is_ordered(&work.nodes.nodes) && has_registers(&work.nodes.nodes) {
                return None;
            }
            let unlike = Unlike {
                answers: Vec::new(alloc),
                difference: Difference::TooMuch,
            };
            Some(Finding::new(asked, shape, unlike, work))
        }
    }
}

/// What is not shown of an instruction of this kind, where a machine of this shape stands before it: that the second store
/// takes what the first takes. What both spend is added to `leaves`, leaf by leaf, and what following them costs is taken
/// from the budget `left`.
pub fn instruction_alike(
    n: Instruction,
    shape: Shape,
    stores: &Stores<'_>,
    leaves: &mut Vec<Counts>,
    left: &mut u64,
    alloc: Global,
) -> Result<Option<Finding>, AllocError>
    requires machine { stores.now.store.now.machine ≡ Mic1 }
    requires other { stores.now.other.now.machine ≡ Mic1 }
    ensures carries { result ≡ Ok None → CarriesInstruction n shape
        stores.now.store.now.words stores.now.other.now.words stores.now.entry stores.now.other_entry leaves.new.items }
    ensures kept { (c : Counts) → Contains leaves.old.items c → Contains leaves.new.items c }
{
    environments_exist();
    let mut work = work_of(*left, alloc)?;
    let s = begin(n.opcode, &mut work.nodes, alloc)?;
    let t = shaped(&s, shape);
    let known = known_of(n, &s, &mut work.nodes, alloc)?;
    let operands = operands_after(n, &s, &mut work.nodes, alloc)?;
    let start = Start {
        row: n.row,
        first: s,
        second: t,
        known,
        operands,
    };
    let answers = Vec::new(alloc);
    let unlike = explore(
        &start,
        stores,
        &answers,
        MOST_ANSWERS,
        leaves,
        &mut work,
        alloc,
    )?;
    *left = work.left;
    Ok(finding_of(Asked::Instruction(n), shape, unlike, work, alloc))
}

/// The same of a machine of any shape: what is not shown in the first of them in which something is not.
pub fn alike_in_each_shape(
    n: Instruction,
    stores: &Stores<'_>,
    leaves: &mut Vec<Counts>,
    left: &mut u64,
    alloc: Global,
) -> Result<Option<Finding>, AllocError>
    requires machine { stores.now.store.now.machine ≡ Mic1 }
    requires other { stores.now.other.now.machine ≡ Mic1 }
    ensures carries { result ≡ Ok None → (shape : Shape) → CarriesInstruction n shape
        stores.now.store.now.words stores.now.other.now.words stores.now.entry stores.now.other_entry leaves.new.items }
    ensures kept { (c : Counts) → Contains leaves.old.items c → Contains leaves.new.items c }
{
    let shapes = [SETTLED, WITH_WORD, WITH_BYTE, WITH_BOTH];
    for shape in &shapes {
        match instruction_alike(n, *shape, stores, leaves, left, alloc)? {
            Some(finding) => return Ok(Some(finding)),
            None => {}
        }
    }
    Ok(None)
}
