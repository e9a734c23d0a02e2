//! The numbers of a pool, with their places.

ghost use Rattle.std.specs.Prelude.{◌≡◌, ◌∷◌, [], OnOk};
ghost use Rattle.std.specs.Ordering.{nat_cmp};
ghost use Rattle.std.specs.BTreeMap.{get};
ghost use Rattle.tiny_code.specs.Prelude.{large};
ghost use Rattle.tiny_pool.specs.Seen.{Adds, HasSeen, or_else};

use std::alloc::{AllocError, Global};
use std::collections::BTreeMap;

/// Numbers, each once.
#[derive(Drop)]
pub struct Constants {
    /// In the order in which they were added.
    pub numbers: Vec<u32>,
    /// The place of each number.
    pub places: BTreeMap<u32, u32>,
    /// The place of the next number.
    pub end: u32,
}

impl Constants {
    /// No numbers yet; the first gets this place.
    pub(crate) fn new(alloc: Global, first: u32) -> Constants
        ensures { HasSeen result first [] }
    {
        Constants {
            numbers: Vec::new(alloc),
            places: BTreeMap::new(alloc),
            end: first,
        }
    }

    /// The place of a number, or that of the next number where it was not added.
    pub(crate) fn place(&self, number: u32) -> u32
        ensures { result ≡ or_else self.now.end (get nat_cmp self.now.places number) }
    {
        match self.places.get(&number) {
            Some(place) => *place,
            None => self.end,
        }
    }

    fn add_constant(&mut self, number: u32) -> Result<(), AllocError>
        ensures { OnOk result (Adds self.old self.new (number ∷ [])) }
    {
        if self.places.contains_key(&number) {
            return Ok(());
        }
        let Some(end) = self.end.checked_add(1) else {
            return Err(AllocError);
        };
        self.places.insert(number, self.end)?;
        self.numbers.push(number)?;
        self.end = end;
        Ok(())
    }

    /// Adds a number above 127 that was not added before.
    pub(crate) fn add(&mut self, number: u32) -> Result<(), AllocError>
        ensures { OnOk result (Adds self.old self.new (large number)) }
    {
        if number <= 127 {
            return Ok(());
        }
        self.add_constant(number)
    }
}
