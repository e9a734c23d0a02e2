//! `print-micro`, of the file that is named or of what ships.

ghost use Rattle.cli_outside.specs.Prelude.{Over, name_in};
ghost use Rattle.cli_call.specs.CallEnds.{PrintsMicro};

use cli_micro::{print_micro, print_shipped};
use cli_outside::{Outside, Status};
use mic_base::{Files, Sink, Source};
use mic_words::Machine;
use std::alloc::Global;

/// Prints a file's microprogram in canonical text, or the one that ships where no file is named.
pub(crate) fn print_asked<F: Files, S: Source, K: Sink, E: Sink>(
    alloc: Global,
    file: Option<&str>,
    machine: Machine,
    outside: &mut Outside<'_, F, S, K, E>,
) -> Status
    ensures { Over (PrintsMicro machine (name_in file.entry)) outside.old outside.new result.0 }
{
    match file {
        Some(file) => print_micro(alloc, file, machine, outside),
        None => print_shipped(machine, outside),
    }
}
