//! `reference FILE`: a run of the plain machine, and its report.

ghost use Rattle.std.specs.Prelude.{◌≤◌, ◌^◌};
ghost use Rattle.cli_programs.specs.Common.{IsMap, Over};
ghost use Rattle.cli_programs.specs.Answers.{EndsOver};
ghost use Rattle.cli_programs.specs.Reference.{IsReferenceRun};

use crate::program::program_in_file;
use cli_outside::{Outside, Status};
use cli_run_texts::{clocked_end, plain_report, status_of};
use console_port::MemoryMap;
use ijvm_reference::run_plain;
use ijvm_verifier::VerifiedImage;
use mic_base::{Files, Sink, Source};
use mic_words::Machine;
use std::alloc::Global;

/// Runs an accepted program, and reports.
fn run_program<F: Files, S: Source, K: Sink, E: Sink>(
    alloc: Global,
    program: &VerifiedImage,
    machine: Machine,
    bound: u64,
    outside: &mut Outside<'_, F, S, K, E>,
) -> Status
    requires { bound ≤ 2 ^ 62 }
    ensures { Over (IsReferenceRun machine bound program.now) outside.old outside.new result.0 }
{
    let locals = program.main_locals();
    let image = program.image();
    let map = program.map();
    match run_plain(
        alloc,
        image,
        locals,
        map,
        machine,
        bound,
        outside.console,
        outside.out,
    ) {
        Ok(run) => outside.tell(plain_report(&run).bytes(), status_of(clocked_end(run.end))),
        Err(_) => outside.no_memory(),
    }
}

/// Reads the file, and runs its program on the plain machine with a machine's costs.
pub fn reference_file<F: Files, S: Source, K: Sink, E: Sink>(
    alloc: Global,
    file: &str,
    machine: Machine,
    bound: u64,
    map: MemoryMap,
    outside: &mut Outside<'_, F, S, K, E>,
) -> Status
    requires bound { bound ≤ 2 ^ 62 }
    requires map { IsMap map.stack_end }
    ensures { Over (EndsOver map (IsReferenceRun machine bound) file.now) outside.old outside.new result.0 }
{
    match program_in_file(alloc, file, map, outside) {
        Ok(program) => run_program(alloc, &program, machine, bound, outside),
        Err(status) => status,
    }
}
