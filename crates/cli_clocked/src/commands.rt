//! The commands, from the files that they read to their status.

ghost use Rattle.std.specs.Prelude.{◌≤◌, ◌<◌, ◌^◌};
ghost use Rattle.cli_clocked.specs.Common.{IsMap, Over};
ghost use Rattle.cli_clocked.specs.Commands.{EndsCache, EndsOwnRun, EndsProfile, EndsTrace};
ghost use Rattle.cli_clocked.specs.Prepared.{job_in};

use crate::cache::cache_program;
use crate::job::Job;
use crate::preparing::prepare;
use crate::profile::profile_program;
use crate::run::run_program;
use crate::trace::trace_program;
use cli_outside::{Outside, Status};
use mic_base::{Files, Sink, Source};
use mic_clock::Clocked;
use std::alloc::Global;

/// Reads a program and a microprogram, and traces the run of one by the other.
pub fn trace_file<M: Clocked + Drop, F: Files, S: Source, K: Sink, E: Sink>(
    alloc: Global,
    machine: M,
    job: Job<&str>,
    buses: bool,
    outside: &mut Outside<'_, F, S, K, E>,
) -> Status
    requires bound { job.bound ≤ 2 ^ 62 }
    requires map { IsMap job.map.stack_end }
    ensures { Over (EndsTrace M.state M.meaning buses (job_in job.entry)) outside.old outside.new result.0 }
{
    match prepare(alloc, machine.machine(), job, outside) {
        Ok(prepared) => trace_program(alloc, machine, prepared, job.bound, buses, outside),
        Err(status) => status,
    }
}

/// Reads a program and a microprogram, and profiles the run of one by the other.
pub fn profile_file<M: Clocked + Drop, F: Files, S: Source, K: Sink, E: Sink>(
    alloc: Global,
    machine: M,
    job: Job<&str>,
    outside: &mut Outside<'_, F, S, K, E>,
) -> Status
    requires bound { job.bound ≤ 2 ^ 62 }
    requires map { IsMap job.map.stack_end }
    ensures { Over (EndsProfile M.state M.meaning (job_in job.entry)) outside.old outside.new result.0 }
{
    match prepare(alloc, machine.machine(), job, outside) {
        Ok(prepared) => profile_program(alloc, machine, prepared, job.bound, outside),
        Err(status) => status,
    }
}

/// Reads a program and a microprogram, and runs one by the other with a cache of this many lines.
pub fn cache_file<M: Clocked + Drop, F: Files, S: Source, K: Sink, E: Sink>(
    alloc: Global,
    machine: M,
    job: Job<&str>,
    lines: u16,
    outside: &mut Outside<'_, F, S, K, E>,
) -> Status
    requires lines { (0 < lines) × (lines ≤ 4096) }
    requires bound { job.bound ≤ 2 ^ 61 }
    requires map { IsMap job.map.stack_end }
    ensures { Over (EndsCache M.state M.meaning lines (job_in job.entry)) outside.old outside.new result.0 }
{
    match prepare(alloc, machine.machine(), job, outside) {
        Ok(prepared) => cache_program(alloc, machine, prepared, lines, job.bound, outside),
        Err(status) => status,
    }
}

/// Reads a program and a microprogram, and runs one by the other.
pub fn run_own_file<M: Clocked + Drop, F: Files, S: Source, K: Sink, E: Sink>(
    alloc: Global,
    machine: M,
    job: Job<&str>,
    outside: &mut Outside<'_, F, S, K, E>,
) -> Status
    requires bound { job.bound ≤ 2 ^ 62 }
    requires map { IsMap job.map.stack_end }
    ensures { Over (EndsOwnRun M.state M.meaning (job_in job.entry)) outside.old outside.new result.0 }
{
    match prepare(alloc, machine.machine(), job, outside) {
        Ok(prepared) => run_program(alloc, machine, prepared, job.bound, outside),
        Err(status) => status,
    }
}
