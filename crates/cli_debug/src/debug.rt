//! A session over an accepted program.

ghost use Rattle.std.specs.Prelude.{◌≡◌, ◌≤◌, ◌^◌, IfOk};
ghost use Rattle.cli_outside.specs.Prelude.{Over, TellsOnErr};
ghost use Rattle.cli_debug.specs.Debugged.{DebugsPrepared, IsStart, left_report_on};

use crate::debugging::Debugging;
use cli_clocked::{Microprogram, Prepared};
use cli_outside::{Outside, Status};
use cli_run_texts::left_report;
use cli_session::{Step, do_lines};
use ijvm_simulation::reset_board;
use mal_shipped::Loaded;
use mic_base::{Files, PlainSource, Sink, Source};
use mic_clock::{Board, Clocked};
use mic_debugger::Session;
use std::alloc::{AllocError, Global};

/// A session over an accepted program at its reset.
fn begun<M: Clocked + Drop>(
    alloc: Global,
    machine: M,
    prepared: Prepared,
    bound: u64,
) -> Result<Session<M>, AllocError>
    requires machine { prepared.micro.program.machine ≡ M.meaning.machine }
    requires bound { bound ≤ 2 ^ 62 }
    ensures { IfOk result (IsStart M.state M.meaning bound prepared.micro.program prepared.micro.loaded prepared.program) }
{
    let Prepared { program, micro } = prepared;
    let Microprogram {
        program: listing,
        loaded,
    } = micro;
    let Loaded {
        store,
        placement,
        entry,
    } = loaded;
    let board = reset_board(alloc, machine, store, entry, &program)?;
    Ok(Session::new(board, listing, placement, program, bound))
}

/// Debugs an accepted program with a microprogram: the lines come from the console, and the program's input is given
/// whole. At the end it reports where the run stands.
pub fn debug_program<M: Clocked + Drop, F: Files, S: Source, K: Sink, E: Sink>(
    alloc: Global,
    machine: M,
    prepared: Prepared,
    bound: u64,
    input: Vec<u8>,
    outside: &mut Outside<'_, F, S, K, E>,
) -> Status
    requires machine { prepared.micro.program.machine ≡ M.meaning.machine }
    requires bound { bound ≤ 2 ^ 62 }
    ensures { DebugsPrepared M.state M.meaning bound prepared input.items outside.old outside.new result.0 }
{
    let session = match begun(alloc, machine, prepared, bound) {
        Ok(session) => session,
        Err(_) => return outside.no_memory(),
    };
    let input = PlainSource::new(input);
    let mut debugging = Debugging { session, input };
    match do_lines(&mut debugging, outside) {
        Step::SinkFailed => Status::SINK,
        Step::ConsoleFailed => report(debugging.session.board(), outside, Status::CONSOLE),
        _ => report(debugging.session.board(), outside, Status::DONE),
    }
}

/// Prints the report of a board that a session left.
fn report<M: Clocked, F: Files, S: Source, K: Sink, E: Sink>(
    board: &Board<M>,
    outside: &mut Outside<'_, F, S, K, E>,
    status: Status,
) -> Status
    ensures { Over (TellsOnErr (left_report_on M.state M.meaning board.now) status.0) outside.old outside.new result.0 }
{
    let line = left_report(board.ended(), &board.counts(), &board.registers());
    outside.tell(line.bytes(), status)
}
