//! When a checked control store is ready for an instruction.

use ijvm_simulation::Readiness;

/// How a Mic-1 with a checked store stands at its boundaries.
pub struct InWords;

impl Readiness for InWords {
    ghost use Rattle.mic1_datapath.specs.Micro.{Micro};
    ghost use Rattle.mic1_checker.specs.Ready.{IsReadyInWords};

    ghost Seen = { Micro };

    ghost IsReady = { IsReadyInWords };
}
