//! What a placement has to keep.

ghost use Rattle.std.specs.Prelude.{◌≡◌, ◌<◌, ◌≤◌, ◌+◌, [], ◌∷◌, ◌++◌, length};
ghost use Rattle.std.specs.Option.{ForSome};
ghost use Rattle.std.specs.Set.{distinct_count, is_member};
ghost use Rattle.store_placement.specs.Demands.{Demands, AreWithin, same_pair, fixed_count, pair_count};

use crate::pair::Pair;
use arrayvec::ArrayVec;
use std::marker::Model;

/// What a placement has to keep: each statement's fixed address, if it has one, and the pairs.
#[derive(Drop)]
pub struct Constraints {
    pub(crate) fixed: ArrayVec<Option<u16>, 512>,
    pub(crate) pairs: ArrayVec<Pair, 513>,
}

impl Model for Constraints {
    ghost use Rattle.store_placement.specs.Demands.{Demands, AreWithin};

    ghost Value = { Demands };

    ghost view = { λ c. record { fixed = c.fixed.items; pairs = c.pairs.items } };

    ghost invariant = { λ c. AreWithin c.fixed.items c.pairs.items };
}

impl Constraints {
    /// No statement and no pair.
    pub(crate) fn new() -> Constraints
        ensures fixed { result.fixed ≡ [] }
        ensures pairs { result.pairs ≡ [] }
    {
        Constraints {
            fixed: ArrayVec::new(),
            pairs: ArrayVec::new(),
        }
    }

    /// Adds the next statement, with the address that it is fixed at.
    pub(crate) fn add(&mut self, fixed: Option<u16>)
        requires room { length self.old.fixed < 512 }
        requires address { ForSome fixed (λ a. a < 512) }
        ensures fixed { self.new.fixed ≡ self.old.fixed ++ fixed ∷ [] }
        ensures pairs { self.new.pairs ≡ self.old.pairs }
    {
        self.fixed.push(fixed);
    }

    /// Adds the targets of a conditional, which are statements that were added.
    pub(crate) fn pair(&mut self, pair: Pair)
        requires room { length self.old.pairs < 513 }
        requires yes { pair.yes < length self.old.fixed }
        requires no { pair.no < length self.old.fixed }
        ensures fixed { self.new.fixed ≡ self.old.fixed }
        ensures pairs { self.new.pairs ≡ self.old.pairs ++ pair ∷ [] }
    {
        self.pairs.push(pair);
    }

    /// The number of statements that are fixed.
    pub fn fixed_count(&self) -> u16
        ensures { result ≡ fixed_count self.now }
    {
        self.fixed.iter().filter(|fixed| fixed.is_some()).count() as u16
    }

    /// The number of different pairs.
    pub fn pair_count(&self) -> u16
        ensures { result ≡ pair_count self.now }
    {
        different_pairs(&self.pairs)
    }
}

fn same_pair(p: &Pair, q: &Pair) -> bool
    ensures { result ≡ same_pair p.now q.now }
{
    p.yes == q.yes && p.no == q.no
}

fn stands_again(pair: &Pair, later: &[Pair]) -> bool
    ensures { result ≡ is_member same_pair later.now pair.now }
{
    later.iter().any(|other| same_pair(pair, other))
}

#[tactic(auto, using(crate::proofs::Different::differents))]
fn different_pairs(pairs: &[Pair]) -> u16
    requires { length pairs.now ≤ 513 }
    ensures { result ≡ distinct_count same_pair pairs.now }
{
    let mut count = 0;
    for (k, pair) in pairs.iter().enumerate() {
        if !stands_again(pair, &pairs[k + 1..]) {
            count += 1;
        }
    }
    count
}
