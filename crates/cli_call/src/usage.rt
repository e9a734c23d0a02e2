//! Prints the usage text where the command line is faulty.

ghost use Rattle.cli_call.specs.Usage.{usage_text};
ghost use Rattle.cli_outside.specs.Status as exits;
ghost use Rattle.cli_outside.specs.Prelude.{SaysTo};

use cli_outside::{Status, say};
use mic_base::Sink;

const USAGE: &[u8] = b"usage: mic assemble SOURCE IMAGE
       mic list FILE [--map W]
       mic verify FILE [--map W]
       mic run FILE [--machine V] [--bound N] [--micro MAL] [--map W]
       mic trace FILE [--machine V] [--bound N] [--micro MAL] [--buses] [--map W]
       mic profile FILE [--machine V] [--bound N] [--micro MAL] [--map W]
       mic debug FILE [--machine V] [--bound N] [--micro MAL] [--input INPUT] [--map W]
       mic reference FILE [--machine V] [--bound N] [--map W]
       mic micro MAL STORE [--machine V]
       mic print-micro [FILE] [--machine V]
       mic soak SEED SIZE [--machine V]
       mic cache FILE LINES [--bound N] [--map W]
       mic rewind FILE [--machine V] [--input INPUT] [--depth D] [--map W]
       mic compile TINY IMAGE
       mic tiny TINY [--machine V] [--bound N]
";

/// Prints how `mic` is called.
pub fn misused<E: Sink>(err: &mut E) -> Status
    ensures { SaysTo E.held E.passed E.faults err.old err.new usage_text exits.usage result.0 }
{
    say(err, USAGE, Status::USAGE)
}
