//! What holds of the cycles of symbols, whatever their numbers stand for.
ghost use Rattle.mic1_cycles.specs.Access.{AccessLaw};
ghost use Rattle.mic1_cycles.specs.Cycle.{CycleLaw};
ghost use Rattle.mic1_cycles.specs.Refusals.{RefusalLaws};

/// A cycle of symbols is a cycle of what they stand for.
pub fn cycle_law()
    ensures { CycleLaw }
{}

/// Where the accesses of symbols lead, by the place that they reach.
pub fn access_law()
    ensures { AccessLaw }
{}

/// Which accesses are refused, and that these end their cycles.
pub fn refusal_law()
    ensures { RefusalLaws }
{}
