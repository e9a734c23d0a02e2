//! The tests of the refusals, statement by statement.
ghost use Rattle.std.specs.Prelude.{◌≡◌, ◌≤◌, ◌<◌, length};
ghost use Rattle.store_placement.specs.First.{FindsFirst};
ghost use Rattle.store_placement.specs.Refusals.{clashes, in_wrong_half, is_false_target, is_true_target, stands_in, stands_beside, stands_twice};

use crate::pair::Pair;

fn is_true_target(pairs: &[Pair], s: u16) -> bool
    ensures { result ≡ is_true_target pairs.now s }
{
    pairs.iter().any(|p| p.yes == s)
}

fn is_false_target(pairs: &[Pair], s: u16) -> bool
    ensures { result ≡ is_false_target pairs.now s }
{
    pairs.iter().any(|p| p.no == s)
}

fn stands_in(s: u16, p: &Pair) -> bool
    ensures { result ≡ stands_in s p.now }
{
    p.yes == s || p.no == s
}

fn stands_beside(pairs: &[Pair], s: u16, pair: &Pair) -> bool
    ensures { result ≡ stands_beside pairs.now s pair.now }
{
    pairs
        .iter()
        .any(|other| stands_in(s, other) && *other != *pair)
}

#[tactic(auto, unfolding(crate::specs::Refusals::stands_twice))]
fn stands_twice(pairs: &[Pair], s: u16) -> bool
    ensures { result ≡ stands_twice pairs.now s }
{
    pairs
        .iter()
        .any(|p| stands_in(s, p) && stands_beside(pairs, s, p))
}

#[tactic(auto, unfolding(crate::specs::Refusals::clashes))]
fn clashes(pairs: &[Pair], s: u16) -> bool
    ensures { result ≡ clashes pairs.now s }
{
    stands_twice(pairs, s) || is_true_target(pairs, s) && is_false_target(pairs, s)
}

/// The lowest statement that stands in two different pairs or in both roles.
pub fn first_clash(pairs: &[Pair], count: u16) -> Option<u16>
    ensures { FindsFirst (clashes pairs.now) count result }
{
    for s in 0..count {
        if clashes(pairs, s) {
            return Some(s);
        }
    }
    None
}

#[tactic(auto, unfolding(crate::specs::Refusals::in_wrong_half))]
fn in_wrong_half(fixed: &[Option<u16>], pairs: &[Pair], s: u16) -> bool
    requires { s < length fixed.now }
    ensures { result ≡ in_wrong_half fixed.now pairs.now s }
{
    match fixed[s as usize] {
        None => false,
        Some(a) if a < 256 => is_true_target(pairs, s),
        Some(_) => is_false_target(pairs, s),
    }
}

/// The lowest statement that is fixed in the wrong half of the store.
pub fn first_in_wrong_half(fixed: &[Option<u16>], pairs: &[Pair]) -> Option<u16>
    requires { length fixed.now ≤ 512 }
    ensures { FindsFirst (in_wrong_half fixed.now pairs.now) (length fixed.now) result }
{
    for s in 0..fixed.len() as u16 {
        if in_wrong_half(fixed, pairs, s) {
            return Some(s);
        }
    }
    None
}
