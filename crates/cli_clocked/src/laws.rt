//! What is known of each run that a command shows.

ghost use Rattle.cli_clocked.specs.Runs.{RunsAreClocked};

use mic_clock::Clocked;

/// The cycles of a run from its reset are clocked one after the other, and the board counts as many. So the profile of
/// a run counts what the run completed.
pub fn runs_are_clocked_from_reset<M: Clocked>()
    ensures { RunsAreClocked M.state M.meaning }
{}
