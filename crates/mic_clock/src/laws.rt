//! What holds of the clocked runs of every machine, for proofs in the crates above it.

ghost use Rattle.std.specs.Prelude.{◌≡◌, ◌↔◌, ℕ, List};
ghost use Rattle.mic_clock.specs.Run.{HasOneEnd, MicroRun, TurnsAdd, turn};
ghost use Rattle.mic_clock.specs.Rule.{IsTurn};
ghost use Rattle.mic_clock.specs.Board.{RunsCompose};

use crate::clocked::Clocked;

/// A turn leads just where the rule has it.
pub fn turn_law<M: Clocked>(_machine: &M)
    ensures { (words : List ℕ) (r q : MicroRun M.State) → IsTurn M.meaning words r q ↔ (q ≡ turn M.meaning words r) }
{}

/// Turns add up.
pub fn turns_add<M: Clocked>(_machine: &M)
    ensures { TurnsAdd M.meaning }
{}

/// A run has one end.
pub fn one_end<M: Clocked>(_machine: &M)
    ensures { HasOneEnd M.meaning }
{}

/// Where turns lead from one board to a second, and on to a third, they lead from the first to the third.
pub fn runs_compose<M: Clocked>(_machine: &M)
    ensures { RunsCompose M.state M.meaning }
{}
