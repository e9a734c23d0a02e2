//! A profile, and the counts of a cache, in the words of the run.

ghost use Rattle.std.specs.Prelude.{ℕ, List};
ghost use Rattle.cli_watchers.specs.Common.{Machine, End, Cycle};
ghost use Rattle.cli_watchers.specs.Counting.{CountsItsOwn, HasAllCycles, HasItsBoot, HasItsCounts};

use mem_cache::counts_are_those_of_the_accesses;

/// The profile of cycles that were clocked one after the other from the first: each row counts its completed instructions and has their cycles,
/// and the boot has the cycles up to the first boundary. Boot, completed instructions and an instruction that was cut have all cycles.
pub fn a_profile_counts_the_run()
    ensures rows { (rows : List ℕ) (cs : List Cycle) (e : End) (row : ℕ) → CountsItsOwn rows cs e row }
    ensures boot { (rows : List ℕ) (cs : List Cycle) → HasItsBoot rows cs }
    ensures all { (cs : List Cycle) (e : End) → HasAllCycles cs e }
{}

/// A cache that begins empty, and on which the accesses of these cycles are repeated, has their hits and misses.
pub fn a_cache_counts_the_run()
    ensures { (m : Machine) (words : List ℕ) (lines : ℕ) (memory : List ℕ) (cs : List Cycle) → HasItsCounts m words lines memory cs }
{
    counts_are_those_of_the_accesses();
}
