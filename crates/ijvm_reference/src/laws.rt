//! What holds of the boundaries at which a run of the plain machine is followed.

ghost use Rattle.ijvm_reference.specs.Runs.{PassedAreReached, ReachedArePassed};

/// The definition's run passes each of them, and they are all that it passes, whatever the console keeps at first.
#[tactic(auto, using(crate::proofs::Running::passed, crate::proofs::Running::reached))]
pub fn reached_boundaries_are_passed()
    ensures passed { ReachedArePassed }
    ensures reached { PassedAreReached }
{}
