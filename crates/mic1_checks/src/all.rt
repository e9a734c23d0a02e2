//! All instructions in two control stores.
ghost use Rattle.std.specs.Prelude.{◌≡◌, None, OnOk};
ghost use Rattle.std.specs.List.{Contains};
ghost use Rattle.mic_words.specs.declared.machine.Machine.TheVariants.{Mic1};
ghost use Rattle.mic1_checks.specs.declared.shape.Shape.{Shape};
ghost use Rattle.mic1_checks.specs.Carried.{CarriesInstruction};
ghost use Rattle.mic1_checks.specs.Listed.{CarriesEach, CarriesTakes};

use crate::check::alike_in_each_shape;
use crate::instruction::{Instruction, all_instructions};
use crate::leaf::Counts;
use crate::search::Search;
use crate::stores::Stores;
use std::alloc::{AllocError, Global};

/// Asks for an instruction, and notes what is not shown.
fn ask(
    n: Instruction,
    stores: &Stores<'_>,
    search: &mut Search,
    alloc: Global,
) -> Result<(), AllocError>
    requires machine { stores.now.store.now.machine ≡ Mic1 }
    requires other { stores.now.other.now.machine ≡ Mic1 }
    ensures carries { OnOk result (search.new.first ≡ None → (shape : Shape) → CarriesInstruction n shape
        stores.now.store.now.words stores.now.other.now.words stores.now.entry stores.now.other_entry search.new.leaves.items) }
    ensures kept { (c : Counts) → Contains search.old.leaves.items c → Contains search.new.leaves.items c }
    ensures first { search.new.first ≡ None → search.old.first ≡ None }
{
    let finding = alike_in_each_shape(n, stores, &mut search.leaves, &mut search.left, alloc)?;
    search.note(finding)
}

fn ask_each(
    all: &[Instruction],
    stores: &Stores<'_>,
    search: &mut Search,
    alloc: Global,
) -> Result<(), AllocError>
    requires machine { stores.now.store.now.machine ≡ Mic1 }
    requires other { stores.now.other.now.machine ≡ Mic1 }
    ensures each { OnOk result (search.new.first ≡ None → CarriesEach all.now
        stores.now.store.now.words stores.now.other.now.words stores.now.entry stores.now.other_entry search.new.leaves.items) }
    ensures kept { (c : Counts) → Contains search.old.leaves.items c → Contains search.new.leaves.items c }
    ensures first { search.new.first ≡ None → search.old.first ≡ None }
{
    for n in all {
        ask(*n, stores, search, alloc)?;
    }
    Ok(())
}

/// Asks for every instruction but HALT and ERR. If nothing is not shown, the second store takes of each what the first takes.
/// At its boundaries it may have the opcode still on the way to MBR, and any word on the way to MDR: it has to do with each
/// of the four.
pub fn takes_alike(
    stores: &Stores<'_>,
    search: &mut Search,
    alloc: Global,
) -> Result<(), AllocError>
    requires machine { stores.now.store.now.machine ≡ Mic1 }
    requires other { stores.now.other.now.machine ≡ Mic1 }
    ensures takes { OnOk result (search.new.first ≡ None → CarriesTakes
        stores.now.store.now.words stores.now.other.now.words stores.now.entry stores.now.other_entry search.new.leaves.items) }
    ensures kept { (c : Counts) → Contains search.old.leaves.items c → Contains search.new.leaves.items c }
    ensures first { search.new.first ≡ None → search.old.first ≡ None }
{
    let all = all_instructions(alloc)?;
    ask_each(&all, stores, search, alloc)
}
