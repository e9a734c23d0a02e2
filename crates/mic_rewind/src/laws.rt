//! What holds of a rewind over several calls.

ghost use Rattle.std.specs.Prelude.{◌≡◌};
ghost use Rattle.mic_rewind.specs.States.{Snapshot};
ghost use Rattle.mic_rewind.specs.View.{GoesBack, HistoryView, WentOn};
ghost use Rattle.mic_rewind.specs.Rewind.{KeepsStatesOfRuns};

use mic_clock::Clocked;

/// The state that is kept of a board is that of each run that the board shows.
pub fn kept_states_are_of_the_run<M: Clocked>(_machine: &M)
    ensures { KeepsStatesOfRuns M.state M.meaning }
{}

/// A step back after a step forward, which moved or clocked, restores all that is seen at the cursor. A step forward
/// after such a step back restores it too.
pub fn going_back_restores()
    ensures moved { (a b c : HistoryView) → GoesBack b a → GoesBack b c → c ≡ a }
    ensures clocked { (a b c : HistoryView) (s : Snapshot) → WentOn a s b → GoesBack b c → c.here ≡ a.here }
    ensures forth { (a b c : HistoryView) → GoesBack a b → GoesBack c b → c ≡ a }
{}
