//! What sees the cycles of a run.

ghost use Rattle.std.specs.Prelude.{◌≡◌, ◌<◌, ℕ, List, false};
ghost use Rattle.mic_base.specs.Prelude.{HasCause};
ghost use Rattle.mic_watched.specs.declared.cycle.Cycle.{Cycle};
ghost use Rattle.mic_watched.specs.Watched.{Ignores, PutsSome};

use crate::cycle::Cycle;
use mic_base::{Sink, SinkFailed};

/// Sees one cycle after the other. It may keep something of each, and print something of it on `err`.
pub trait Watcher {
    /// What it keeps.
    ghost Kept: { Type 0 };

    ghost kept: { Self → Kept };

    /// What it keeps after a cycle, and the texts that it may print of it.
    ghost keeps: { Kept → Cycle → Kept };

    ghost Prints: { Kept → Cycle → List ℕ → Type 0 };

    /// Whether it needs to see cycles that reach a boundary, or those that do not.
    fn wants(&self, boundary: bool) -> bool
        ensures { result ≡ false → Ignores keeps Prints (kept self.now) boundary }
    {
        true
    }

    fn see<E: Sink>(&mut self, cycle: &Cycle, err: &mut E) -> Result<(), SinkFailed>
        requires word { cycle.now.mpc < 512 }
        requires next { cycle.now.registers.mpc < 512 }
        ensures keeps { kept self.new ≡ keeps (kept self.old) cycle.now }
        ensures says { PutsSome (Prints (kept self.old) cycle.now) (E.held err.old) result (E.held err.new) }
        ensures cause { HasCause (E.faults err.old) (E.faults err.new) result };
}
