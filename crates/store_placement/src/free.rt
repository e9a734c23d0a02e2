//! Free addresses of the store.
ghost use Rattle.std.specs.Prelude.{◌≡◌, ◌<◌, ◌+◌, ◌&&◌, not};
ghost use Rattle.store_placement.specs.Chosen.{free_lows, free_addresses};
ghost use Rattle.store_placement.specs.Taken.{is_marked};

use crate::taken::taken_addresses;
use arrayvec::ArrayVec;

/// Whether the low address and its partner are free.
fn is_free_low(taken: &[bool; 512], a: u16) -> bool
    requires { a < 256 }
    ensures { result ≡ (not (is_marked taken.now a) && not (is_marked taken.now (a + 256))) }
{
    !taken[a as usize] && !taken[a as usize + 256]
}

/// The low addresses that are free and whose partners are free too, lowest first.
#[tactic(auto, using(crate::proofs::Below::belows), unfolding(crate::specs::Chosen::free_lows))]
pub fn free_lows(placed: &[Option<u16>]) -> ArrayVec<u16, 256>
    ensures { result.items ≡ free_lows placed.now }
{
    let taken = taken_addresses(placed);
    let mut lows = ArrayVec::new();
    for a in 0..256 {
        if is_free_low(&taken, a) {
            lows.push(a);
        }
    }
    lows
}

/// The free addresses, lowest first.
#[tactic(auto, using(crate::proofs::Below::belows), unfolding(crate::specs::Chosen::free_addresses))]
pub fn free_addresses(placed: &[Option<u16>]) -> ArrayVec<u16, 512>
    ensures { result.items ≡ free_addresses placed.now }
{
    let taken = taken_addresses(placed);
    let mut free = ArrayVec::new();
    for a in 0..512 {
        if !taken[a as usize] {
            free.push(a);
        }
    }
    free
}
