//! Where a unit stands in memory.

ghost use Rattle.std.specs.Prelude.{ℕ, List};
ghost use Rattle.mic2_fetch_unit.specs.FetchUnit.{Prefetch, jump};
ghost use Rattle.mic2_fetch_unit.specs.Place.{MovesOn, StandsAt};
ghost use Rattle.mic2_fetch_unit.specs.QueueLaw.{QueueLaw};

/// After an edge a unit stands past the bytes that were taken, also where that cycle's write changed words that it does
/// not hold. After a jump it stands at the jump's address.
pub fn standing_law()
    ensures edge { (words words' : List ℕ) (p taken : ℕ) (u : Prefetch) → MovesOn words words' p taken u }
    ensures jump { (words : List ℕ) (p : ℕ) → StandsAt words p (jump words p) }
{}

/// What is known of a unit that stands at a place without its bytes: where its edge and its jump lead, and how many bytes it
/// surely has.
pub fn queue_law()
    ensures { QueueLaw }
{}
