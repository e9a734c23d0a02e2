//! `tiny`: the program of a Tiny text, clocked on a machine with the microprogram that ships for it.

ghost use Rattle.std.specs.Prelude.{◌≤◌, ◌^◌};
ghost use Rattle.cli_call.specs.Common.{Over, EndsOverTiny};
ghost use Rattle.cli_call.specs.ClockedEnd.{ClockedEnd};

use crate::run::run_program;
use cli_outside::{Outside, Status};
use cli_programs::program_in_tiny;
use ijvm_simulation::Interpreter;
use mic_base::{Files, Sink, Source};
use std::alloc::Global;

/// Compiles the text, and clocks its program on this machine.
pub(crate) fn run_tiny<I: Interpreter, F: Files, S: Source, K: Sink, E: Sink>(
    alloc: Global,
    tiny: &str,
    bound: u64,
    outside: &mut Outside<'_, F, S, K, E>,
) -> Status
where
    I::Machine: Drop,
    requires { bound ≤ 2 ^ 62 }
    ensures { Over (EndsOverTiny (ClockedEnd I.Machine.state I.Machine.meaning I.Machine.IsReady I.IsShipped I.entry I.timing bound) tiny.now)
        outside.old outside.new result.0 }
{
    match program_in_tiny(alloc, tiny, outside) {
        Ok(program) => run_program::<I, F, S, K, E>(alloc, &program, bound, outside),
        Err(status) => status,
    }
}
