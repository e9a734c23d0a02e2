//! The output of a line.

ghost use Rattle.std.specs.Prelude.{OnOk, OnErr};
ghost use Rattle.cli_rewind.specs.Common.{Rose, sink_of};
ghost use Rattle.cli_rewind.specs.Moves.{IsTold, IsToldInPart, LeavesFront, PassesOn};

use mic_base::{Sink, SinkFailed};
use mic_clock::Clocked;
use mic_rewind::Rewind;

/// Puts to `out` what waits for it.
fn pass_on<M: Clocked, K: Sink>(rewind: &mut Rewind<M>, out: &mut K) -> Result<(), SinkFailed>
    ensures ok { OnOk result (PassesOn M.state M.meaning K.held K.passed K.faults rewind.old out.old rewind.new out.new) }
    ensures err { OnErr result (LeavesFront M.state M.meaning K.held K.passed K.faults rewind.old out.old out.new) }
    ensures rose { OnErr result (Rose (K.faults out.old) (K.faults out.new)) }
{
    match rewind.flush(out) {
        Ok(()) => Ok(()),
        Err(_) => Err(SinkFailed),
    }
}

/// Puts a line's text to `err`, and lets both sinks pass on what they have.
pub(crate) fn tell<M: Clocked, K: Sink, E: Sink>(
    rewind: &mut Rewind<M>,
    answer: &[u8],
    out: &mut K,
    err: &mut E,
) -> Result<(), SinkFailed>
    ensures ok { OnOk result (IsTold M.state M.meaning answer.now rewind.old rewind.new
        (sink_of K.held K.passed K.faults out.old) (sink_of K.held K.passed K.faults out.new)
        (sink_of E.held E.passed E.faults err.old) (sink_of E.held E.passed E.faults err.new)) }
    ensures err { OnErr result (IsToldInPart M.state M.meaning answer.now rewind.old
        (sink_of K.held K.passed K.faults out.old) (sink_of K.held K.passed K.faults out.new)
        (sink_of E.held E.passed E.faults err.old) (sink_of E.held E.passed E.faults err.new)) }
{
    err.put(answer)?;
    pass_on(rewind, out)?;
    err.flush()
}
