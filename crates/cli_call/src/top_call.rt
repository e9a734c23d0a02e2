//! What the words of a command line ask for is done, on the machine that they name.

ghost use Rattle.std.specs.Prelude.{map, string_bytes};
ghost use Rattle.cli_call.specs.Common.{HasLimits, asked, request_of, Over};
ghost use Rattle.cli_call.specs.CallEnds.{CallEnds, DoesAsked, EndsOn};

use crate::print::print_asked;
use crate::run::{run_asked, run_file};
use crate::tiny::run_tiny;
use crate::usage::misused;
use cli_clocked::{Job, cache_file, profile_file, trace_file};
use cli_debug::debug_file;
use cli_micro::micro;
use cli_outside::{Outside, Status};
use cli_programs::{assemble_file, compile_file, list_file, reference_file, soak, verify_file};
use cli_rewind::rewind_file;
use cli_words::{CommandName, Processor, Request, WordsError, read_words};
use ijvm_simulation::Interpreter;
use mic_base::{Files, Sink, Source};
use mic_words::Machine;
use mic3_pipeline::Mic3Interpreter;
use shipped_microcode::{Mic1Interpreter, Mic2Interpreter};
use std::alloc::Global;

/// Does what the words after the program's name ask for.
pub(crate) fn answer_words<F: Files, S: Source, K: Sink, E: Sink>(
    alloc: Global,
    words: &[String],
    outside: &mut Outside<'_, F, S, K, E>,
) -> Status
    ensures { Over (CallEnds (request_of (map string_bytes words.now))) outside.old outside.new result.0 }
{
    match read_words(alloc, words) {
        Err(WordsError::Usage) => misused(outside.err),
        Err(WordsError::OutOfMemory) => outside.no_memory(),
        Ok(request) => answer_request(alloc, request, outside),
    }
}

/// Does what a request asks for.
fn answer_request<F: Files, S: Source, K: Sink, E: Sink>(
    alloc: Global,
    request: Request<&str>,
    outside: &mut Outside<'_, F, S, K, E>,
) -> Status
    requires { HasLimits request }
    ensures { DoesAsked (asked request.entry) outside.old outside.new result.0 }
{
    match request.processor {
        Processor::Datapath(Machine::Mic1) => {
            answer_on::<Mic1Interpreter, F, S, K, E>(alloc, request, outside)
        }
        Processor::Datapath(Machine::Mic2) => {
            answer_on::<Mic2Interpreter, F, S, K, E>(alloc, request, outside)
        }
        Processor::Mic3 => {
            let Request {
                file,
                bound,
                map,
                ..
            } = request;
            run_file::<Mic3Interpreter, F, S, K, E>(alloc, file, bound, map, outside)
        }
    }
}

/// Does what a request asks for, on this machine where a machine is clocked.
fn answer_on<I: Interpreter, F: Files, S: Source, K: Sink, E: Sink>(
    alloc: Global,
    request: Request<&str>,
    outside: &mut Outside<'_, F, S, K, E>,
) -> Status
where
    I::Machine: Drop,
    requires { HasLimits request }
    ensures { Over (EndsOn I.Machine.state I.Machine.meaning I.Machine.IsReady I.IsShipped I.entry I.timing request.entry.command (asked request.entry))
        outside.old outside.new result.0 }
{
    let machine = request.processor.machine();
    let job = Job {
        file: request.file,
        own: request.micro,
        bound: request.bound,
        map: request.map,
    };
    let shipped = Job { own: None, ..job };
    let file = job.file;
    let map = job.map;
    match request.command {
        CommandName::Assemble => assemble_file(alloc, file, request.target, outside),
        CommandName::List => list_file(alloc, file, map, outside),
        CommandName::Verify => verify_file(alloc, file, map, outside),
        CommandName::Run => run_asked::<I, F, S, K, E>(alloc, job, outside),
        CommandName::Trace => trace_file(alloc, I::machine(), job, request.buses, outside),
        CommandName::Profile => profile_file(alloc, I::machine(), job, outside),
        CommandName::Debug => debug_file(alloc, I::machine(), job, request.input, outside),
        CommandName::Reference => reference_file(alloc, file, machine, job.bound, map, outside),
        CommandName::Micro => micro(alloc, file, request.target, machine, outside),
        CommandName::PrintMicro => print_asked(alloc, job.own, machine, outside),
        CommandName::Soak => soak::<I, F, S, K, E>(alloc, request.seed, request.size, outside),
        CommandName::Cache => {
            let mic1 = Mic1Interpreter::machine();
            cache_file(alloc, mic1, shipped, request.lines, outside)
        }
        CommandName::Rewind => {
            let Request { input, depth, .. } = request;
            rewind_file(alloc, I::machine(), shipped, input, depth, outside)
        }
        CommandName::Compile => compile_file(alloc, file, request.target, outside),
        CommandName::Tiny => run_tiny::<I, F, S, K, E>(alloc, file, job.bound, outside),
    }
}
