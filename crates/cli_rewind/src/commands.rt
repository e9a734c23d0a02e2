//! The command, from the files that it reads to its status.

ghost use Rattle.std.specs.Prelude.{◌≤◌, ◌<◌};
ghost use Rattle.cli_rewind.specs.Common.{IsMap, Over, name_in, job_in};
ghost use Rattle.cli_rewind.specs.Rewound.{EndsRewind};

use crate::rewind::rewind_program;
use cli_clocked::{Job, prepare};
use cli_outside::{Outside, Status};
use cli_session::chosen_input;
use mic_base::{Files, Sink, Source};
use mic_clock::Clocked;
use std::alloc::Global;

/// Reads a program, a microprogram and the program's input, and steps the run of one by the other forward and back, as the
/// console's lines ask. This many of the last cycles are kept to go back over, 1 to 65,536; the run has no bound.
pub fn rewind_file<M: Clocked + Drop, F: Files, S: Source, K: Sink, E: Sink>(
    alloc: Global,
    machine: M,
    job: Job<&str>,
    input: Option<&str>,
    depth: u32,
    outside: &mut Outside<'_, F, S, K, E>,
) -> Status
    requires depth { (0 < depth) × (depth ≤ 65536) }
    requires map { IsMap job.map.stack_end }
    ensures { Over (EndsRewind M.state M.meaning depth (job_in job.entry) (name_in input.entry)) outside.old outside.new result.0 }
{
    let prepared = match prepare(alloc, machine.machine(), job, outside) {
        Ok(prepared) => prepared,
        Err(status) => return status,
    };
    match chosen_input(alloc, input, outside) {
        Ok(input) => rewind_program(alloc, machine, prepared, depth, input, outside),
        Err(status) => status,
    }
}
