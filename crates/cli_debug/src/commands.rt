//! The command, from the files that it reads to its status.

ghost use Rattle.std.specs.Prelude.{◌≤◌, ◌^◌};
ghost use Rattle.console_port.specs.Prelude.{IsMap};
ghost use Rattle.cli_outside.specs.Prelude.{Over, name_in};
ghost use Rattle.cli_clocked.specs.Prelude.{job_in};
ghost use Rattle.cli_debug.specs.Debugged.{EndsDebug};

use crate::debug::debug_program;
use cli_clocked::{Job, prepare};
use cli_outside::{Outside, Status};
use cli_session::chosen_input;
use mic_base::{Files, Sink, Source};
use mic_clock::Clocked;
use std::alloc::Global;

/// Reads a program, a microprogram and the program's input, and debugs the run of one by the other.
pub fn debug_file<M: Clocked + Drop, F: Files, S: Source, K: Sink, E: Sink>(
    alloc: Global,
    machine: M,
    job: Job<&str>,
    input: Option<&str>,
    outside: &mut Outside<'_, F, S, K, E>,
) -> Status
    requires bound { job.bound ≤ 2 ^ 62 }
    requires map { IsMap job.map.stack_end }
    ensures { Over (EndsDebug M.state M.meaning (job_in job.entry) (name_in input.entry)) outside.old outside.new result.0 }
{
    let prepared = match prepare(alloc, machine.machine(), job, outside) {
        Ok(prepared) => prepared,
        Err(status) => return status,
    };
    match chosen_input(alloc, input, outside) {
        Ok(input) => debug_program(alloc, machine, prepared, job.bound, input, outside),
        Err(status) => status,
    }
}
