//! The pairs that no fixed statement places.
ghost use Rattle.std.specs.Prelude.{◌≡◌, ◌<◌, length};
ghost use Rattle.store_placement.specs.Demands.{AreWithin, IsOfStatements};
ghost use Rattle.store_placement.specs.Chosen.{is_opened_by, opened_by, open_pairs};

use crate::pair::Pair;
use arrayvec::ArrayVec;

fn is_opened_by(fixed: &[Option<u16>], s: u16, pair: &Pair) -> bool
    requires { IsOfStatements (length fixed.now) pair.now }
    ensures { result ≡ is_opened_by fixed.now s pair.now }
{
    pair.yes.min(pair.no) == s
        && fixed[pair.yes as usize].is_none()
        && fixed[pair.no as usize].is_none()
}

/// The remaining pair whose lower target is `s`.
fn opened_by(fixed: &[Option<u16>], pairs: &[Pair], s: u16) -> Option<Pair>
    requires { AreWithin fixed.now pairs.now }
    ensures { result ≡ opened_by fixed.now pairs.now s }
{
    for pair in pairs {
        if is_opened_by(fixed, s, pair) {
            return Some(*pair);
        }
    }
    None
}

/// The pairs that no fixed statement places, in the order of their lower targets.
#[tactic(auto, using(crate::proofs::Below::belows), unfolding(crate::specs::Chosen::open_pairs))]
pub fn open_pairs(fixed: &[Option<u16>], pairs: &[Pair]) -> ArrayVec<Pair, 512>
    requires { AreWithin fixed.now pairs.now }
    ensures { result.items ≡ open_pairs fixed.now pairs.now }
{
    let mut open = ArrayVec::new();
    for s in 0..fixed.len() as u16 {
        if let Some(pair) = opened_by(fixed, pairs, s) {
            open.push(pair);
        }
    }
    open
}
