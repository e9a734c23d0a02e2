//! A microprogram in the control store.

ghost use Rattle.std.specs.Prelude.{◌≡◌, ◌↔◌, IsOk, IfOk, Err};
ghost use Rattle.store_placement.specs.Prelude.{HasPlacement, demands_of, Refuses};
ghost use Rattle.mal_shipped.specs.Loaded.{IsLoaded};
ghost use Rattle.mal_shipped.specs.Shipped.{HasShipped};

use crate::laws::{loaded_programs_are_shipped, shipped_programs_are_listed};
use crate::program::read;
use mal_parser::MalProgram;
use micro_word::{Machine, Store};
use std::alloc::{AllocError, Global};
use store_placement::{PlaceError, Placement, constraints_of, fill, place};

/// A placed microprogram: its control store, the address of each statement, and the address of Main1.
#[derive(Drop)]
pub struct Loaded {
    pub store: Store,
    pub placement: Placement,
    pub entry: u16,
}

/// The program at its chosen placement, or the first reason why it has none.
pub fn load_micro(program: &MalProgram) -> Result<Loaded, PlaceError>
    ensures ok { IsOk result ↔ HasPlacement (demands_of program.now) }
    ensures loaded { IfOk result (IsLoaded program.now) }
    ensures err { (e : PlaceError) → (result ≡ Err e) ↔ Refuses (demands_of program.now) e }
{
    let placement = place(&constraints_of(program))?;
    let entry = placement.address(program.entry());
    Ok(Loaded {
        store: fill(program, &placement),
        placement,
        entry,
    })
}

/// The control store of the microprogram that ships for a machine.
pub fn shipped_store(alloc: Global, machine: Machine) -> Result<Store, AllocError>
    ensures machine { IfOk result (λ store. store.machine ≡ machine) }
    ensures shipped { IfOk result (λ store. HasShipped machine store.words) }
{
    // Its line numbers change nothing of what the store holds.
    let program = read(alloc, machine)?;
    shipped_programs_are_listed();
    loaded_programs_are_shipped();
    match place(&constraints_of(&program)) {
        Ok(placement) => Ok(fill(&program, &placement)),
        Err(_) => unreachable!(),
    }
}
