//! The microprogram that a board is clocked with: a person's own, from its text, or the one that ships.

ghost use Rattle.std.specs.Prelude.{◌≡◌, ◌<◌, ◌^◌, length, IfOk, IfErr};
ghost use Rattle.cli_clocked.specs.Common.{SpellsProgram, IsLoaded, listed_program, IsRefusal, IsRefusedText};

use cli_micro::{mal_reason, place_reason};
use cli_outside::Refusal;
use mal_parser::{MalProgram, parse_mal};
use mal_shipped::{Loaded, load_micro, shipped_program, shipped_programs_are_listed};
use micro_word::Machine;
use std::alloc::{AllocError, Global};

/// A microprogram and its control store.
#[derive(Drop)]
pub struct Microprogram {
    pub program: MalProgram,
    pub loaded: Loaded,
    ghost is_loaded: { IsLoaded program loaded },
}

/// The microprogram that a text spells, at its chosen placement.
pub fn placed_microprogram(
    alloc: Global,
    machine: Machine,
    bytes: &[u8],
) -> Result<Microprogram, Refusal>
    requires { length bytes.now < 2 ^ 32 }
    ensures ok { IfOk result (λ micro. SpellsProgram machine bytes.now micro.program) }
    ensures machine { IfOk result (λ micro. micro.program.machine ≡ machine) }
    ensures err { IfErr result (IsRefusal (IsRefusedText machine) bytes.now) }
{
    let program = match parse_mal(alloc, machine, bytes) {
        Ok(program) => program,
        Err(error) => return Err(Refusal::by(mal_reason(error))),
    };
    match load_micro(&program) {
        Ok(loaded) => Ok(Microprogram { program, loaded }),
        Err(error) => Err(Refusal::Refused(place_reason(&program, error))),
    }
}

/// The microprogram that ships for a machine.
#[tactic(auto, using(crate::proofs::Micros::shipped_machine))]
pub fn shipped_microprogram(alloc: Global, machine: Machine) -> Result<Microprogram, AllocError>
    ensures is { IfOk result (λ micro. micro.program ≡ listed_program machine) }
    ensures machine { IfOk result (λ micro. micro.program.machine ≡ machine) }
{
    let program = shipped_program(alloc, machine)?;
    shipped_programs_are_listed();
    match load_micro(&program) {
        Ok(loaded) => Ok(Microprogram { program, loaded }),
        Err(_) => unreachable!(),
    }
}
