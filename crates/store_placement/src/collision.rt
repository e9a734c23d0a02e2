//! Whether two statements are forced to one address.
ghost use Rattle.std.specs.Prelude.{◌≡◌, ◌<◌, length, IfSome, None};
ghost use Rattle.store_placement.specs.Demands.{AreWithin};
ghost use Rattle.store_placement.specs.First.{FindsFirstTwo, FindsFirstWith};
ghost use Rattle.store_placement.specs.Forced.{all_forced, forced};
ghost use Rattle.store_placement.specs.Refusals.{are_split, collide, is_pair_of, split_apart};
ghost use Rattle.store_placement.specs.Taken.{has_split};

use crate::forced::{all_forced, same_address};
use crate::pair::Pair;
use crate::taken::are_apart;

fn are_split(yes: Option<u16>, no: Option<u16>) -> bool
    requires { IfSome no (λ b. b < 512) }
    ensures { result ≡ are_split yes no }
{
    match (yes, no) {
        (Some(a), Some(b)) => a != b + 256,
        _ => false,
    }
}

fn is_pair_of(s: u16, t: u16, pair: &Pair) -> bool
    ensures { result ≡ is_pair_of s t pair.now }
{
    pair.yes == s && pair.no == t || pair.yes == t && pair.no == s
}

#[tactic(auto, unfolding(crate::specs::Refusals::split_apart))]
fn split_apart(fixed: &[Option<u16>], pairs: &[Pair], s: u16, t: u16) -> bool
    requires { AreWithin fixed.now pairs.now }
    ensures { result ≡ split_apart fixed.now pairs.now s t }
{
    pairs.iter().any(|p| is_pair_of(s, t, p)
        && are_split(fixed[p.yes as usize], fixed[p.no as usize]))
}

/// Whether a pair is fixed apart.
fn has_split(fixed: &[Option<u16>], pairs: &[Pair]) -> bool
    requires { AreWithin fixed.now pairs.now }
    ensures { result ≡ has_split fixed.now pairs.now }
{
    pairs
        .iter()
        .any(|p| are_split(fixed[p.yes as usize], fixed[p.no as usize]))
}

#[tactic(auto, using(crate::proofs::ForcedLemmas::all_forceds), unfolding(crate::specs::Refusals::collide))]
fn collide(fixed: &[Option<u16>], pairs: &[Pair], addresses: &[Option<u16>], s: u16, t: u16) -> bool
    requires within { AreWithin fixed.now pairs.now }
    requires forced { addresses.now ≡ all_forced fixed.now pairs.now }
    requires ordered { s < t }
    requires inside { t < length fixed.now }
    ensures { result ≡ collide fixed.now pairs.now s t }
{
    same_address(addresses[s as usize], addresses[t as usize]) || split_apart(fixed, pairs, s, t)
}

/// The lowest statement after `s` that collides with it.
fn collides_with(
    fixed: &[Option<u16>],
    pairs: &[Pair],
    addresses: &[Option<u16>],
    s: u16,
) -> Option<u16>
    requires within { AreWithin fixed.now pairs.now }
    requires forced { addresses.now ≡ all_forced fixed.now pairs.now }
    requires inside { s < length fixed.now }
    ensures { FindsFirstWith (collide fixed.now pairs.now) (length fixed.now) s result }
{
    for t in s + 1..fixed.len() as u16 {
        if collide(fixed, pairs, addresses, s, t) {
            return Some(t);
        }
    }
    None
}

/// The lowest two statements that collide.
pub fn first_collision(
    fixed: &[Option<u16>],
    pairs: &[Pair],
    addresses: &[Option<u16>],
) -> Option<(u16, u16)>
    requires within { AreWithin fixed.now pairs.now }
    requires forced { addresses.now ≡ all_forced fixed.now pairs.now }
    ensures { FindsFirstTwo (collide fixed.now pairs.now) (length fixed.now) result }
{
    if are_apart(addresses) && !has_split(fixed, pairs) {
        return None;
    }
    for s in 0..fixed.len() as u16 {
        if let Some(t) = collides_with(fixed, pairs, addresses, s) {
            return Some((s, t));
        }
    }
    None
}
