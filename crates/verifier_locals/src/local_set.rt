//! Sets of locals, in groups of 64: the group g has the locals from 64 g to 64 g + 63, each with its place in the group.

ghost use Rattle.std.specs.Prelude.{◌≢◌, ◌⊎◌, ◌<◌, ◌≤◌, ◌↔◌, ℕ, IsTrue};
ghost use Rattle.verifier_locals.specs.LocalSet.{Has};

/// Locals of one group.
#[derive(Clone, Copy)]
pub struct LocalSet {
    pub bits: u64,
}

impl LocalSet {
    pub const EMPTY: LocalSet = LocalSet { bits: 0 };

    /// The local at this place is in the set.
    pub fn has(self, place: u32) -> bool
        requires { place < 64 }
        ensures { IsTrue result ↔ Has self place }
    {
        (self.bits >> place) & 1 == 1
    }

    /// The set with the local at this place.
    pub fn with(self, place: u32) -> LocalSet
        requires { place < 64 }
        ensures added { Has result place }
        ensures others { (i : ℕ) → i ≢ place → Has result i ↔ Has self i }
    {
        LocalSet {
            bits: self.bits | 1 << place,
        }
    }

    /// The set without the local at this place.
    pub fn without(self, place: u32) -> LocalSet
        requires { place < 64 }
        ensures taken { ¬ Has result place }
        ensures others { (i : ℕ) → i < 64 → i ≢ place → Has result i ↔ Has self i }
    {
        LocalSet {
            bits: self.bits & !(1 << place),
        }
    }

    /// The locals of both sets.
    pub fn joined(self, other: LocalSet) -> LocalSet
        ensures both { (i : ℕ) → Has result i ↔ (Has self i ⊎ Has other i) }
        ensures above { self.bits ≤ result.bits }
    {
        LocalSet {
            bits: self.bits | other.bits,
        }
    }
}
