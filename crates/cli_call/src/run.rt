//! `run FILE`: one program, clocked on a machine.

ghost use Rattle.std.specs.Prelude.{◌≤◌, ◌^◌};
ghost use Rattle.cli_call.specs.Common.{IsMap, Over, EndsOver, job_in};
ghost use Rattle.cli_call.specs.CallEnds.{EndsRun};
ghost use Rattle.cli_call.specs.ClockedEnd.{ClockedEnd};

use cli_clocked::{Job, run_own_file};
use cli_outside::{Outside, Status};
use cli_programs::program_in_file;
use cli_run_texts::{clocked_report, status_of};
use console_port::MemoryMap;
use ijvm_simulation::{Interpreter, run_image};
use ijvm_verifier::VerifiedImage;
use mic_base::{Files, Sink, Source};
use std::alloc::Global;

/// Runs a file's program by a person's own microprogram, or by the one that ships where none is named.
pub(crate) fn run_asked<I: Interpreter, F: Files, S: Source, K: Sink, E: Sink>(
    alloc: Global,
    job: Job<&str>,
    outside: &mut Outside<'_, F, S, K, E>,
) -> Status
where
    I::Machine: Drop,
    requires bound { job.bound ≤ 2 ^ 62 }
    requires map { IsMap job.map.stack_end }
    ensures { Over (EndsRun I.Machine.state I.Machine.meaning I.Machine.IsReady I.IsShipped I.entry I.timing (job_in job.entry))
        outside.old outside.new result.0 }
{
    match job.own {
        None => run_file::<I, F, S, K, E>(alloc, job.file, job.bound, job.map, outside),
        Some(_) => run_own_file(alloc, I::machine(), job, outside),
    }
}

/// Reads the file, and clocks its program.
pub(crate) fn run_file<I: Interpreter, F: Files, S: Source, K: Sink, E: Sink>(
    alloc: Global,
    file: &str,
    bound: u64,
    map: MemoryMap,
    outside: &mut Outside<'_, F, S, K, E>,
) -> Status
where
    I::Machine: Drop,
    requires bound { bound ≤ 2 ^ 62 }
    requires map { IsMap map.stack_end }
    ensures { Over (EndsOver map (ClockedEnd I.Machine.state I.Machine.meaning I.Machine.IsReady I.IsShipped I.entry I.timing bound) file.now)
        outside.old outside.new result.0 }
{
    match program_in_file(alloc, file, map, outside) {
        Ok(program) => run_program::<I, F, S, K, E>(alloc, &program, bound, outside),
        Err(status) => status,
    }
}

/// Clocks an accepted program, and reports.
pub(crate) fn run_program<I: Interpreter, F: Files, S: Source, K: Sink, E: Sink>(
    alloc: Global,
    program: &VerifiedImage,
    bound: u64,
    outside: &mut Outside<'_, F, S, K, E>,
) -> Status
where
    I::Machine: Drop,
    requires { bound ≤ 2 ^ 62 }
    ensures { Over (ClockedEnd I.Machine.state I.Machine.meaning I.Machine.IsReady I.IsShipped I.entry I.timing bound program.now)
        outside.old outside.new result.0 }
{
    match run_image::<I, S, K>(alloc, program, bound, outside.console, outside.out) {
        Ok(board) => {
            let end = board.ended().unwrap();
            let line = clocked_report(end, &board.counts(), &board.registers());
            outside.tell(line.bytes(), status_of(end))
        }
        Err(_) => outside.no_memory(),
    }
}
