//! The run of an accepted program by a microprogram.

ghost use Rattle.std.specs.Prelude.{◌≡◌, ◌≤◌, ◌^◌};
ghost use Rattle.cli_clocked.specs.OwnRun.{IsOwnRun};
ghost use Rattle.cli_clocked.specs.Runs.{OverPrepared};

use crate::microprogram::Microprogram;
use crate::preparing::Prepared;
use cli_outside::{Outside, Status};
use cli_run_texts::{clocked_report, status_of};
use ijvm_simulation::reset_board;
use mal_shipped::Loaded;
use mic_base::{Files, Sink, Source};
use mic_clock::Clocked;
use std::alloc::Global;

/// Clocks an accepted program with a microprogram to its end, and reports.
pub fn run_program<M: Clocked + Drop, F: Files, S: Source, K: Sink, E: Sink>(
    alloc: Global,
    machine: M,
    prepared: Prepared,
    bound: u64,
    outside: &mut Outside<'_, F, S, K, E>,
) -> Status
    requires machine { prepared.micro.program.machine ≡ M.meaning.machine }
    requires bound { bound ≤ 2 ^ 62 }
    ensures { OverPrepared (IsOwnRun M.state M.meaning bound) prepared outside.old outside.new result.0 }
{
    let Prepared { program, micro } = prepared;
    let Microprogram { loaded, .. } = micro;
    let Loaded { store, entry, .. } = loaded;
    let mut board = match reset_board(alloc, machine, store, entry, &program) {
        Ok(board) => board,
        Err(_) => return outside.no_memory(),
    };
    let end = board.run(bound, outside.console, outside.out);
    let line = clocked_report(end, &board.counts(), &board.registers());
    outside.tell(line.bytes(), status_of(end))
}
