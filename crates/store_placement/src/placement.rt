//! A placement: an address for each statement, no two the same, which its type keeps.

ghost use Rattle.std.specs.Prelude.{◌≡◌, ◌<◌, ℕ, List, length, slice_index, MatchOption};
ghost use Rattle.store_placement.specs.Placement.{AreApart};
ghost use Rattle.store_placement.specs.Program.{IsAtNone, IsOnlyAt};

use arrayvec::ArrayVec;
use std::marker::Model;

/// The addresses of the statements, in order.
#[derive(Drop)]
pub struct Placement {
    addresses: ArrayVec<u16, 512>,
}

impl Model for Placement {
    ghost use Rattle.std.specs.Prelude.{List, ℕ};
    ghost use Rattle.store_placement.specs.Placement.{AreApart};

    ghost Value = { List ℕ };

    ghost view = { λ p. p.addresses.items };

    ghost invariant = { λ p. AreApart p.addresses.items };
}

impl Placement {
    pub(crate) fn of(addresses: ArrayVec<u16, 512>) -> Placement
        requires { AreApart addresses.items }
        ensures { result ≡ addresses.items }
    {
        Placement { addresses }
    }

    /// The address of the statement `s`.
    pub fn address(&self, s: u16) -> u16
        requires { s < length self.now }
        ensures { result ≡ slice_index self.now s }
    {
        self.addresses[s as usize]
    }

    /// The statement at the address.
    pub fn statement_at(&self, address: u16) -> Option<u16>
        ensures { MatchOption result (IsAtNone self.now address) (IsOnlyAt self.now address) }
    {
        for s in 0..self.addresses.len() as u16 {
            if self.addresses[s as usize] == address {
                return Some(s);
            }
        }
        None
    }
}
