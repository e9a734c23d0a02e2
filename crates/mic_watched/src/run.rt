//! A board is clocked to its end, and a watcher sees each cycle.

ghost use Rattle.std.specs.Prelude.{◌≡◌, ◌≢◌, ◌≤◌, ◌<◌, ◌+◌, ◌^◌, max, [], None, IsSome, IfOk, OnOk, OnErr};
ghost use Rattle.mic_base.specs.Prelude.{HasCause};
ghost use Rattle.mic_clock.specs.Prelude.{GoesOn};
ghost use Rattle.mic_watched.specs.Cycles.{shown_on};
ghost use Rattle.mic_watched.specs.Watched.{CanRun, IsWatched, Saw, end_in, done};

use crate::cycle::{cycle_of, reached_boundary};
use crate::watcher::Watcher;
use mic_base::{Sink, SinkFailed, Source};
use mic_clock::{Board, Clocked, End};

/// Shows a watcher the last cycle of a board that has not ended.
#[inline(always)]
fn show<M: Clocked, W: Watcher, E: Sink>(
    board: &Board<M>,
    mpc: u16,
    watcher: &mut W,
    err: &mut E,
) -> Result<(), SinkFailed>
    requires { mpc < 512 }
    ensures saw { Saw W.keeps W.Prints (W.kept watcher.old) (W.kept watcher.new) (E.held err.old) (E.held err.new)
        (shown_on M.state M.meaning mpc board.now) result }
    ensures not_ended { OnErr result (board.now.end ≡ None) }
    ensures cause { HasCause (E.faults err.old) (E.faults err.new) result }
{
    if board.ended().is_some() {
        return Ok(());
    }
    if !watcher.wants(reached_boundary(board)) {
        return Ok(());
    }
    watcher.see(&cycle_of(board, mpc), err)
}

/// Clocks a board until it ends or `err` fails. Each turn has the test of the bound before it.
fn watch_turns<M: Clocked, W: Watcher, S: Source, K: Sink, E: Sink>(
    board: &mut Board<M>,
    bound: u64,
    watcher: &mut W,
    source: &mut S,
    sink: &mut K,
    err: &mut E,
) -> Result<(), SinkFailed>
    requires bound { bound ≤ 2 ^ 62 }
    requires board { CanRun board.old }
    ensures watched { IsWatched M.state M.meaning bound W.keeps W.Prints (S.left source.old)
        (K.held sink.old) board.old (S.left source.new) (K.held sink.new) board.new
        (W.kept watcher.old) (W.kept watcher.new) (E.held err.old) (E.held err.new) board.new.end result }
    ensures ended { OnOk result (IsSome board.new.end) }
    ensures not_ended { OnErr result (board.new.end ≡ None) }
    ensures growth { board.new.counts.cycles ≤ max bound board.old.counts.cycles + 1024 }
    ensures goes_on { GoesOn S.left S.faults K.held K.passed K.faults source.old sink.old board.old source.new sink.new board.new }
    ensures said { HasCause (E.faults err.old) (E.faults err.new) result }
{
    'turns: while board.ended().is_none() {
        let mpc = board.mpc();
        board.turn(bound, source, sink);
        show(board, mpc, watcher, err)?;
    }
    Ok(())
}

/// Clocks a board to its end, or until `err` fails, and shows a watcher each cycle. Then it flushes the console. Where
/// that fails, the end is a write fault.
pub fn run_watched<M: Clocked, W: Watcher, S: Source, K: Sink, E: Sink>(
    board: &mut Board<M>,
    bound: u64,
    watcher: &mut W,
    source: &mut S,
    sink: &mut K,
    err: &mut E,
) -> Result<End, SinkFailed>
    requires bound { bound ≤ 2 ^ 62 }
    requires board { CanRun board.old }
    ensures watched { IsWatched M.state M.meaning bound W.keeps W.Prints (S.left source.old)
        (K.held sink.old) board.old (S.left source.new) (K.held sink.new) board.new
        (W.kept watcher.old) (W.kept watcher.new) (E.held err.old) (E.held err.new) (end_in result) (done result) }
    ensures end { IfOk result (λ e. e ≢ End.WriteFault → board.new.end ≡ Some e) }
    ensures not_ended { OnErr result (board.new.end ≡ None) }
    ensures kept { IfOk result (λ e. board.new.bus.console.kept ≡ []) }
    ensures growth { board.new.counts.cycles ≤ max bound board.old.counts.cycles + 1024 }

    // The board is taken with the end of the run: it stays at the end before, where the last flush failed.
    ensures goes_on { GoesOn S.left S.faults K.held K.passed K.faults source.old sink.old board.old source.new sink.new
        (record board.new { end = end_in result }) }
    ensures said { HasCause (E.faults err.old) (E.faults err.new) result }
{
    watch_turns(board, bound, watcher, source, sink, err)?;
    let end = board.ended().unwrap();
    match board.flush(sink) {
        Ok(()) => Ok(end),
        Err(_) => Ok(End::WriteFault),
    }
}
