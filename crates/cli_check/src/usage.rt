//! Prints the usage text where the command line is faulty, and which machine is judged where it names another one.

ghost use Rattle.cli_check.specs.Usage.{only_mic1, usage_text};
ghost use Rattle.cli_outside.specs.Messages.{message};
ghost use Rattle.cli_outside.specs.Status as exits;
ghost use Rattle.cli_outside.specs.Outside.{SaysTo};

use cli_outside::{Status, say, say_of};
use mic_base::Sink;

const USAGE: &[u8] = b"usage: mic-check MAL [--machine mic1]\n";

/// Prints how `mic-check` is called.
pub fn misused<E: Sink>(err: &mut E) -> Status
    ensures { SaysTo E.held E.passed E.faults err.old err.new usage_text exits.usage result.0 }
{
    say(err, USAGE, Status::USAGE)
}

/// Prints that microprograms of this machine are not judged.
pub(crate) fn not_judged<E: Sink>(machine: &str, err: &mut E) -> Status
    ensures { SaysTo E.held E.passed E.faults err.old err.new (message machine.now only_mic1) exits.usage result.0 }
{
    say_of(
        err,
        machine,
        b": mic-check judges microprograms of Mic-1 alone",
        Status::USAGE,
    )
}
