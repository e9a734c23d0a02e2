//! What the chosen placement promises of all constraints, for proofs in the crates above it.
ghost use Rattle.std.specs.Prelude.{ℕ, List};
ghost use Rattle.store_placement.specs.Chosen.{HasOneChoice, IsChosenList};
ghost use Rattle.store_placement.specs.Demands.{Demands};
ghost use Rattle.store_placement.specs.Listed.{IsListed};

/// There is at most one chosen placement, and a list that passes the computed test `IsListed` is it.
pub fn chosen_law()
    ensures one { (d : Demands) → HasOneChoice d }
    ensures listed { (d : Demands) (xs : List ℕ) → IsListed d xs → IsChosenList d xs }
{}
