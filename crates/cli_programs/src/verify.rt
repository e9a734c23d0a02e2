//! `verify FILE [--map W]`: whether a program is accepted, and its summary.

ghost use Rattle.cli_programs.specs.Common.{IsMap, Over, PrintsTextOf, Summarizes};
ghost use Rattle.cli_programs.specs.Answers.{EndsOver};

use crate::program::program_in_file;
use cli_outside::{Outside, Status};
use cli_program_texts::summary_of;
use console_port::MemoryMap;
use mic_base::{Files, Sink, Source};
use std::alloc::Global;

/// Reads the file, and prints the summary of its program, or why none is accepted.
pub fn verify_file<F: Files, S: Source, K: Sink, E: Sink>(
    alloc: Global,
    file: &str,
    map: MemoryMap,
    outside: &mut Outside<'_, F, S, K, E>,
) -> Status
    requires { IsMap map.stack_end }
    ensures { Over (EndsOver map (PrintsTextOf Summarizes) file.now) outside.old outside.new result.0 }
{
    match program_in_file(alloc, file, map, outside) {
        Ok(program) => outside.print(summary_of(&program).bytes(), Status::DONE),
        Err(status) => status,
    }
}
