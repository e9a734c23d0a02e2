//! When an instruction comes next.

ghost use Rattle.std.specs.Prelude.{ℕ, List};
ghost use Rattle.console_port.specs.Prelude.{World};

use mic_clock::Clocked;

/// When a machine is ready for the next instruction, under some microprograms.
pub trait Readiness {
    /// What is seen of the machine's state.
    ghost Seen: { Type 0 };

    /// That the instruction at a byte address of a memory comes next in this world, where a microprogram begins at this
    /// entry and this is seen of the state.
    ghost IsReady: { ℕ → List ℕ → ℕ → Seen → World → Type 0 };
}

/// A machine's own.
impl<M: Clocked> Readiness for M {
    ghost Seen = { M.State };

    ghost IsReady = { M.IsReady };
}
