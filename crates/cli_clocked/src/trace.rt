//! The trace of an accepted program's run.

ghost use Rattle.std.specs.Prelude.{◌≡◌, ◌≤◌, ◌^◌};
ghost use Rattle.cli_clocked.specs.Traced.{IsTraced};
ghost use Rattle.cli_clocked.specs.Runs.{OverPrepared};

use crate::microprogram::Microprogram;
use crate::preparing::Prepared;
use crate::report::report_after;
use cli_outside::{Outside, Status};
use cli_watchers::Tracer;
use ijvm_simulation::reset_board;
use mal_shipped::Loaded;
use mic_base::{Files, Sink, Source};
use mic_clock::Clocked;
use mic_watched::run_watched;
use std::alloc::Global;

/// Clocks an accepted program with a microprogram to its end, prints the lines of each cycle as it is clocked, and reports.
pub fn trace_program<M: Clocked + Drop, F: Files, S: Source, K: Sink, E: Sink>(
    alloc: Global,
    machine: M,
    prepared: Prepared,
    bound: u64,
    buses: bool,
    outside: &mut Outside<'_, F, S, K, E>,
) -> Status
    requires machine { prepared.micro.program.machine ≡ M.meaning.machine }
    requires bound { bound ≤ 2 ^ 62 }
    ensures { OverPrepared (IsTraced M.state M.meaning bound buses) prepared outside.old outside.new result.0 }
{
    let Prepared { program, micro } = prepared;
    let Microprogram {
        program: listing,
        loaded,
    } = micro;
    let Loaded {
        store,
        placement,
        entry,
    } = loaded;
    let mut board = match reset_board(alloc, machine, store, entry, &program) {
        Ok(board) => board,
        Err(_) => return outside.no_memory(),
    };
    let mut tracer = Tracer {
        program: &listing,
        placement: &placement,
        image: &program,
        buses,
    };
    match run_watched(
        &mut board,
        bound,
        &mut tracer,
        outside.console,
        outside.out,
        outside.err,
    ) {
        Ok(end) => report_after(Ok(()), end, &board, outside.err),
        Err(_) => Status::SINK,
    }
}
