//! Addresses for the statements that no fixed address forces.
ghost use Rattle.std.specs.Prelude.{◌≡◌, ◌≤◌, ◌<◌, All, is_none, length, count_by};
ghost use Rattle.store_placement.specs.Reading.{pair_address, with_pairs, with_free};

use crate::pair::Pair;
use arrayvec::ArrayVec;

/// The address of `s`, where the pairs stand at these low addresses, one by one.
fn pair_address(pairs: &[Pair], lows: &[u16], s: u16) -> Option<u16>
    requires enough { length pairs.now ≤ length lows.now }
    requires low { All (λ a. a < 256) lows.now }
    ensures { result ≡ pair_address pairs.now lows.now s }
{
    for (k, pair) in pairs.iter().enumerate() {
        if pair.no == s {
            return Some(lows[k]);
        }
        if pair.yes == s {
            return Some(lows[k] + 256);
        }
    }
    None
}

/// Forced addresses, and those of the pairs.
#[tactic(auto, using(crate::proofs::Below::belows), unfolding(crate::specs::Reading::with_pairs))]
pub fn with_pairs(
    forced: &[Option<u16>],
    pairs: &[Pair],
    lows: &[u16],
) -> ArrayVec<Option<u16>, 512>
    requires count { length forced.now ≤ 512 }
    requires enough { length pairs.now ≤ length lows.now }
    requires low { All (λ a. a < 256) lows.now }
    ensures { result.items ≡ with_pairs forced.now pairs.now lows.now }
{
    let mut placed = ArrayVec::new();
    for s in 0..forced.len() as u16 {
        placed.push(forced[s as usize].or(pair_address(pairs, lows, s)));
    }
    placed
}

/// The statements that have no address yet take the free ones, one by one.
pub fn with_free(placed: &[Option<u16>], free: &[u16]) -> ArrayVec<u16, 512>
    requires count { length placed.now ≤ 512 }
    requires enough { count_by (λ o. is_none o) placed.now ≤ length free.now }
    ensures { result.items ≡ with_free placed.now free.now }
{
    let mut addresses = ArrayVec::new();
    let mut used = 0;
    for place in placed {
        match *place {
            Some(a) => addresses.push(a),
            None => {
                addresses.push(free[used]);
                used += 1;
            }
        }
    }
    addresses
}
