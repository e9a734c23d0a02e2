//! The profile of an accepted program's run.

ghost use Rattle.std.specs.Prelude.{◌≡◌, ◌≤◌, ◌^◌};
ghost use Rattle.cli_clocked.specs.Profiled.{IsProfiled};
ghost use Rattle.cli_clocked.specs.Runs.{OverPrepared};

use crate::microprogram::Microprogram;
use crate::preparing::Prepared;
use crate::report::report_after;
use cli_outside::{Outside, Status};
use cli_watchers::{Profiler, put_profile, rows_of};
use ijvm_simulation::reset_board;
use mal_shipped::Loaded;
use mic_base::{Files, Sink, Source};
use mic_clock::Clocked;
use mic_watched::run_watched;
use std::alloc::Global;

/// Clocks an accepted program with a microprogram to its end, prints how often each instruction was completed, and reports.
pub fn profile_program<M: Clocked + Drop, F: Files, S: Source, K: Sink, E: Sink>(
    alloc: Global,
    machine: M,
    prepared: Prepared,
    bound: u64,
    outside: &mut Outside<'_, F, S, K, E>,
) -> Status
    requires machine { prepared.micro.program.machine ≡ M.meaning.machine }
    requires bound { bound ≤ 2 ^ 62 }
    ensures { OverPrepared (IsProfiled M.state M.meaning bound) prepared outside.old outside.new result.0 }
{
    let Prepared { program, micro } = prepared;
    let Microprogram { loaded, .. } = micro;
    let Loaded { store, entry, .. } = loaded;
    let rows = match rows_of(alloc, &program) {
        Ok(rows) => rows,
        Err(_) => return outside.no_memory(),
    };
    let mut board = match reset_board(alloc, machine, store, entry, &program) {
        Ok(board) => board,
        Err(_) => return outside.no_memory(),
    };
    let mut profiler = Profiler::new(&rows);
    match run_watched(
        &mut board,
        bound,
        &mut profiler,
        outside.console,
        outside.out,
        outside.err,
    ) {
        Ok(end) => {
            // Where the last flush failed, the board stands at the end that it came to before.
            let stood = board.ended().unwrap_or(end);
            let said = put_profile(&profiler, stood, &board.counts(), outside.err);
            report_after(said, end, &board, outside.err)
        }
        Err(_) => Status::SINK,
    }
}
