//! What a command clocks, from the files that it reads.

ghost use Rattle.std.specs.Prelude.{◌≡◌, IfOk, OnOk};
ghost use Rattle.cli_clocked.specs.Common.{IsMap, OverIfErr};
ghost use Rattle.cli_clocked.specs.Prepared.{HasPrepared, IsUnprepared, job_in};

use crate::choice::chosen_microprogram;
use crate::job::Job;
use crate::microprogram::Microprogram;
use cli_outside::{Outside, Status};
use cli_programs::program_in_file;
use ijvm_verifier::VerifiedImage;
use mic_base::{Files, Sink, Source};
use micro_word::Machine;
use std::alloc::Global;

/// An accepted program, and the microprogram that clocks it.
#[derive(Drop)]
pub struct Prepared {
    pub program: VerifiedImage,
    pub micro: Microprogram,
}

/// Reads a program and a microprogram. Where one is missing, it prints why and returns the status of that.
pub fn prepare<F: Files, S: Source, K: Sink, E: Sink>(
    alloc: Global,
    machine: Machine,
    job: Job<&str>,
    outside: &mut Outside<'_, F, S, K, E>,
) -> Result<Prepared, Status>
    requires { IsMap job.map.stack_end }
    ensures prepared { IfOk result (HasPrepared machine (job_in job.entry) outside.old.seen) }
    ensures machine { IfOk result (λ p. p.micro.program.machine ≡ machine) }
    ensures same { OnOk result (outside.new ≡ outside.old) }
    ensures unprepared { OverIfErr (IsUnprepared machine (job_in job.entry)) outside.old outside.new result }
{
    let program = program_in_file(alloc, job.file, job.map, outside)?;
    let micro = chosen_microprogram(alloc, machine, job.own, outside)?;
    Ok(Prepared { program, micro })
}
