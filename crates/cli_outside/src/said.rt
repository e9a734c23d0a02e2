//! Texts that are put to a sink.

ghost use Rattle.std.specs.Prelude.{◌≡◌, ℕ, OnOk};
ghost use Rattle.mic_base.specs.Prelude.{HasCause, IsFlushed, KeepsFront};
ghost use Rattle.cli_outside.specs.Status as exits;
ghost use Rattle.cli_outside.specs.Messages.{message, out_of_memory};
ghost use Rattle.cli_outside.specs.Outside.{PutsAfter, SaysTo, StaysPut};

use crate::status::Status;
use mic_base::{Sink, SinkFailed};

const OUT_OF_MEMORY: &[u8] = b"mic: out of memory\n";

/// Puts a piece after what was put, unless that failed.
pub fn put_after<E: Sink>(
    said: Result<(), SinkFailed>,
    err: &mut E,
    piece: &[u8],
) -> Result<(), SinkFailed>
    ensures puts { PutsAfter said (E.held err.old) piece.now result (E.held err.new) }
    ensures keeps { KeepsFront (E.held err.old) (E.held err.new) }
    ensures passed { E.passed err.new ≡ E.passed err.old }
    ensures cause { (before : ℕ) → HasCause before (E.faults err.old) said → HasCause before (E.faults err.new) result }
{
    said?;
    err.put(piece)
}

/// Passes on what was put, unless that failed.
fn flush_after<E: Sink>(said: Result<(), SinkFailed>, err: &mut E) -> Result<(), SinkFailed>
    ensures puts { StaysPut said (E.held err.old) result (E.held err.new) }
    ensures flushed { OnOk result (IsFlushed (E.held err.new) (E.passed err.new)) }
    ensures cause { (before : ℕ) → HasCause before (E.faults err.old) said → HasCause before (E.faults err.new) result }
{
    said?;
    err.flush()
}

/// Puts a text to a sink, passes it on, and returns the text's status, or a failed sink's where that failed.
pub fn say<E: Sink>(err: &mut E, text: &[u8], status: Status) -> Status
    ensures { SaysTo E.held E.passed E.faults err.old err.new text.now status.0 result.0 }
{
    let put = err.put(text);
    let passed = flush_after(put, err);
    status.once(passed)
}

/// Puts the line that says this of a file, and passes it on.
pub fn say_of<E: Sink>(err: &mut E, file: &str, reason: &[u8], status: Status) -> Status
    ensures { SaysTo E.held E.passed E.faults err.old err.new (message file.now reason.now) status.0 result.0 }
{
    let said = err.put(b"mic: ");
    let said = put_after(said, err, file.as_bytes());
    let said = put_after(said, err, reason);
    let said = put_after(said, err, b"\n");
    let said = flush_after(said, err);
    status.once(said)
}

/// Prints that memory ran out.
pub fn no_memory<E: Sink>(err: &mut E) -> Status
    ensures { SaysTo E.held E.passed E.faults err.old err.new out_of_memory exits.memory result.0 }
{
    say(err, OUT_OF_MEMORY, Status::MEMORY)
}
