//! Which microprogram a command clocks: a person's own file, or the one that ships.

ghost use Rattle.std.specs.Prelude.{◌≡◌, IfOk, OnOk};
ghost use Rattle.cli_clocked.specs.Common.{SpellsProgram, name_in, IsHad, OverIfErr};
ghost use Rattle.cli_clocked.specs.Own.{HasNoMicroprogram, IsChosenMicroprogram, NoneChosen};

use crate::microprogram::{Microprogram, placed_microprogram, shipped_microprogram};
use cli_outside::{Outside, Status};
use mic_base::{Files, Sink, Source};
use micro_word::Machine;
use std::alloc::Global;

/// The microprogram of a file. Where there is none, it prints why and returns the status of that.
fn own_microprogram<F: Files, S: Source, K: Sink, E: Sink>(
    alloc: Global,
    machine: Machine,
    name: &str,
    outside: &mut Outside<'_, F, S, K, E>,
) -> Result<Microprogram, Status>
    ensures had { IfOk result (λ micro. IsHad (SpellsProgram machine) name.now outside.old.seen micro.program) }
    ensures machine { IfOk result (λ micro. micro.program.machine ≡ machine) }
    ensures same { OnOk result (outside.new ≡ outside.old) }
    ensures not_had { OverIfErr (HasNoMicroprogram machine name.now) outside.old outside.new result }
{
    let bytes = outside.read(alloc, name)?;
    match placed_microprogram(alloc, machine, &bytes) {
        Ok(micro) => Ok(micro),
        Err(refusal) => Err(outside.refuse(name, refusal)),
    }
}

/// The microprogram of the named file or, where none is named, the one that ships.
pub(crate) fn chosen_microprogram<F: Files, S: Source, K: Sink, E: Sink>(
    alloc: Global,
    machine: Machine,
    own: Option<&str>,
    outside: &mut Outside<'_, F, S, K, E>,
) -> Result<Microprogram, Status>
    ensures chosen { IfOk result (λ m. IsChosenMicroprogram machine (name_in own.entry) outside.old.seen m.program) }
    ensures machine { IfOk result (λ micro. micro.program.machine ≡ machine) }
    ensures same { OnOk result (outside.new ≡ outside.old) }
    ensures none { OverIfErr (NoneChosen machine (name_in own.entry)) outside.old outside.new result }
{
    match own {
        Some(name) => own_microprogram(alloc, machine, name, outside),
        None => match shipped_microprogram(alloc, machine) {
            Ok(micro) => Ok(micro),
            Err(_) => Err(outside.no_memory()),
        },
    }
}
