//! `list FILE [--map W]`: the listing of a program.

ghost use Rattle.cli_programs.specs.Common.{IsMap, Over, PrintsTextOf, Lists};
ghost use Rattle.cli_programs.specs.Answers.{EndsOver};

use crate::program::program_in_file;
use cli_outside::{Outside, Status};
use cli_program_texts::listing_of;
use console_port::MemoryMap;
use mic_base::{Files, Sink, Source};
use std::alloc::Global;

/// Reads the file, and prints its listing.
pub fn list_file<F: Files, S: Source, K: Sink, E: Sink>(
    alloc: Global,
    file: &str,
    map: MemoryMap,
    outside: &mut Outside<'_, F, S, K, E>,
) -> Status
    requires { IsMap map.stack_end }
    ensures { Over (EndsOver map (PrintsTextOf Lists) file.now) outside.old outside.new result.0 }
{
    let program = match program_in_file(alloc, file, map, outside) {
        Ok(program) => program,
        Err(status) => return status,
    };
    match listing_of(alloc, &program) {
        Ok(listing) => outside.print(&listing, Status::DONE),
        Err(_) => outside.no_memory(),
    }
}
