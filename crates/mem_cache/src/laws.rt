//! The counts of a cache over whole lists of calls.

ghost use Rattle.mem_cache.specs.View.{CountsAsAccesses};

/// From an empty cache, whatever calls are made of it, its counts are the hits and the misses among the accesses that were answered.
pub fn counts_are_those_of_the_accesses()
    ensures { CountsAsAccesses }
{}
