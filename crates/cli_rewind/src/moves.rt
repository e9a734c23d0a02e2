//! The cursor's moves, over as many cycles as a line asks for.

ghost use Rattle.std.specs.Prelude.{◌≡◌, ◌≢◌, ◌≤◌, ◌+◌, ◌^◌, Option, Some, OnErr, IfOk, true, false};
ghost use Rattle.cli_rewind.specs.Common.{tick_of, Counts};
ghost use Rattle.cli_rewind.specs.Moves.{GoesBack, WasCutForward, WentForward};

use mic_base::{PlainSource, Sink, SinkFailed};
use mic_clock::{Clocked, End, Tick};
use mic_rewind::Rewind;

/// The end that a cycle returns, if it does.
fn met(tick: Tick) -> Option<End>
    ensures { (old new : Counts) (end : Option End) → tick ≡ tick_of old new end → result ≡ end }
{
    match tick {
        Tick::Clocked => None,
        Tick::Stalled => None,
        Tick::Ended(end) => Some(end),
    }
}

/// Whether `out` failed in a cycle that came to this end.
fn sink_failed(end: Option<End>) -> bool
    ensures yes { result ≡ true → end ≡ Some End.WriteFault }
    ensures no { result ≡ false → end ≢ Some End.WriteFault }
{
    end == Some(End::WriteFault)
}

/// Goes forward by a cycle, and returns the end that it came to, if it did.
fn step<M: Clocked, K: Sink>(
    rewind: &mut Rewind<M>,
    input: &mut PlainSource,
    out: &mut K,
) -> Result<Option<End>, SinkFailed>
    requires cycles { rewind.old.board.counts.cycles ≤ 2 ^ 62 }
    requires well { rewind.old.board.end ≢ Some End.WriteFault }
    ensures went { IfOk result (WentForward M.state M.meaning K.held K.passed K.faults 1 rewind.old input.old out.old rewind.new input.new out.new) }
    ensures cut { OnErr result (WasCutForward M.state M.meaning K.held K.passed K.faults 1 rewind.old input.old out.old rewind.new input.new out.new) }
{
    let end = met(rewind.forward(input, out));
    if sink_failed(end) {
        return Err(SinkFailed);
    }
    Ok(end)
}

/// Goes forward by this many cycles, or to an end, which it returns.
pub(crate) fn go_forward<M: Clocked, K: Sink>(
    rewind: &mut Rewind<M>,
    times: u32,
    input: &mut PlainSource,
    out: &mut K,
) -> Result<Option<End>, SinkFailed>
    requires cycles { rewind.old.board.counts.cycles + 2 ^ 32 ≤ 2 ^ 62 }
    requires well { rewind.old.board.end ≢ Some End.WriteFault }
    ensures went { IfOk result (WentForward M.state M.meaning K.held K.passed K.faults times rewind.old input.old out.old rewind.new input.new out.new) }
    ensures cut { OnErr result (WasCutForward M.state M.meaning K.held K.passed K.faults times rewind.old input.old out.old rewind.new input.new out.new) }
{
    'cycles: for _made in 0..times {
        let end = step(rewind, input, out)?;
        if end.is_some() {
            return Ok(end);
        }
    }
    Ok(None)
}

/// Goes back by this many cycles, or by all that are kept; returns whether enough were kept.
pub(crate) fn go_back<M: Clocked>(rewind: &mut Rewind<M>, times: u32) -> bool
    ensures goes { GoesBack M.state M.meaning times rewind.old rewind.new result }
    ensures board { rewind.new.board ≡ rewind.old.board }
    ensures depth { rewind.new.history.depth ≡ rewind.old.history.depth }
{
    'cycles: for _made in 0..times {
        if !rewind.back() {
            return false;
        }
    }
    true
}
