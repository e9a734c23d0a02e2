//! The addresses that fixed statements force.
ghost use Rattle.std.specs.Prelude.{◌≡◌, ◌<◌, All, IfSome, length};
ghost use Rattle.store_placement.specs.Demands.{AreFixedInside, AreWithin, IsOfStatements};
ghost use Rattle.store_placement.specs.Forced.{given_by, given, forced, all_forced, same_address};

use crate::pair::Pair;
use arrayvec::ArrayVec;

fn given_by(fixed: &[Option<u16>], s: u16, pair: &Pair) -> Option<u16>
    requires addresses { AreFixedInside fixed.now }
    requires targets { IsOfStatements (length fixed.now) pair.now }
    ensures value { result ≡ given_by fixed.now s pair.now }
    ensures bound { IfSome result (λ a. a < 1024) }
{
    if pair.yes == s {
        match fixed[pair.no as usize] {
            Some(a) => Some(a + 256),
            None => None,
        }
    } else if pair.no == s {
        match fixed[pair.yes as usize] {
            Some(a) => Some(a.saturating_sub(256)),
            None => None,
        }
    } else {
        None
    }
}

/// The address that a fixed partner gives `s`.
fn given(fixed: &[Option<u16>], s: u16, pairs: &[Pair]) -> Option<u16>
    requires addresses { AreFixedInside fixed.now }
    requires targets { All (IsOfStatements (length fixed.now)) pairs.now }
    ensures value { result ≡ given fixed.now s pairs.now }
    ensures bound { IfSome result (λ a. a < 1024) }
{
    for pair in pairs {
        if let Some(a) = given_by(fixed, s, pair) {
            return Some(a);
        }
    }
    None
}

pub fn same_address(a: Option<u16>, b: Option<u16>) -> bool
    ensures { result ≡ same_address a b }
{
    match (a, b) {
        (Some(a), Some(b)) => a == b,
        _ => false,
    }
}

#[tactic(auto, unfolding(crate::specs::Forced::forced))]
fn forced(fixed: &[Option<u16>], pairs: &[Pair], s: u16) -> Option<u16>
    requires inside { s < length fixed.now }
    requires addresses { AreFixedInside fixed.now }
    requires targets { All (IsOfStatements (length fixed.now)) pairs.now }
    ensures value { result ≡ forced fixed.now pairs.now s }
    ensures bound { IfSome result (λ a. a < 1024) }
{
    match fixed[s as usize] {
        Some(a) => Some(a),
        None => given(fixed, s, pairs),
    }
}

/// What each statement is forced to, in order.
#[tactic(auto, using(crate::proofs::Below::belows), unfolding(crate::specs::Forced::all_forced))]
pub fn all_forced(fixed: &[Option<u16>], pairs: &[Pair]) -> ArrayVec<Option<u16>, 512>
    requires { AreWithin fixed.now pairs.now }
    ensures { result.items ≡ all_forced fixed.now pairs.now }
{
    let mut addresses = ArrayVec::new();
    for s in 0..fixed.len() as u16 {
        addresses.push(forced(fixed, pairs, s));
    }
    addresses
}
