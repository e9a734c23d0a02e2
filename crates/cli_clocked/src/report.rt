//! The report of a run that a command clocked.

ghost use Rattle.cli_clocked.specs.Runs.{ReportsAfter, SaysAfter};

use cli_outside::{Status, say};
use cli_run_texts::{clocked_report, status_of};
use mic_base::{Sink, SinkFailed};
use mic_clock::{Board, Clocked, End};

/// Prints a text after what was put, unless that failed.
pub(crate) fn say_after<E: Sink>(
    said: Result<(), SinkFailed>,
    text: &[u8],
    code: Status,
    err: &mut E,
) -> Status
    ensures { SaysAfter E.held E.passed E.faults said err.old err.new text.now code.0 result.0 }
{
    match said {
        Ok(()) => say(err, text, code),
        Err(_) => Status::SINK,
    }
}

/// Prints the report after what was put, unless that failed, and returns the status of the end.
pub(crate) fn report_after<M: Clocked, E: Sink>(
    said: Result<(), SinkFailed>,
    end: End,
    board: &Board<M>,
    err: &mut E,
) -> Status
    ensures { ReportsAfter M.state M.meaning E.held E.passed E.faults said end board.now err.old err.new result.0 }
{
    let line = clocked_report(end, &board.counts(), &board.registers());
    say_after(said, line.bytes(), status_of(end), err)
}
