//! Items in order, found by their names.

ghost use Rattle.std.specs.Prelude.{◌≡◌, ◌<◌, ◌++◌, ◌∷◌, [], None, OnOk, OnErr, IfErr, IfSome, find, length, option_and_then, option_copied, slice_get};
ghost use Rattle.source_text.specs.Places.{is_called, is_taken, IsNotAdded, place_again, place_of};

use mic_base::Name;
use std::alloc::{AllocFailed, Global};
use std::collections::BTreeMap;
use std::collections::btree_map::Entry;
use std::marker::Model;

/// What may have a name.
pub trait Named {
    ghost use Rattle.std.specs.Prelude.{ℕ, List, Option};

    ghost name: { Self → Option (List ℕ) };

    fn name(&self) -> Option<Name>
        ensures { result ≡ name self.now };
}

impl Named for Name {
    ghost use Rattle.std.specs.Prelude.{Some};

    ghost name = { λ own. Some own };

    fn name(&self) -> Option<Name> {
        Some(*self)
    }
}

/// Why an item is not added to a list.
#[derive(Clone, Copy, Debug, PartialEq, Eq)]
pub enum NotAdded {
    /// The item at this place has the same name.
    Again(u32),
    /// The list has as many items as it may have.
    Full,
    OutOfMemory,
}

impl<T: Drop> From<AllocFailed<T>> for NotAdded {
    ghost use Rattle.source_text.specs.declared.names.NotAdded.TheVariants.{OutOfMemory};

    ghost from_gives = { λ _ e. e ≡ OutOfMemory };

    fn from(_: AllocFailed<T>) -> Self {
        NotAdded::OutOfMemory
    }
}

/// Items in order, whose names differ from one another; fewer than 2^32.
#[derive(Drop)]
pub struct NamedList<T: Named> {
    items: Vec<T>,
    /// The place of each name.
    places: BTreeMap<Name, u32>,
}

impl<T: Named> Model for NamedList<T> {
    ghost use Rattle.std.specs.Prelude.{◌<◌, ◌^◌, List, length};
    ghost use Rattle.std.specs.Coded.{coded_list};
    ghost use Rattle.source_text.specs.Places.{ArePlaces};

    ghost Value = { List T };

    ghost coded = { coded_list T.code };

    ghost view = { λ list. list.items.items };

    ghost invariant = { λ list. ArePlaces T.name list.items.items list.places × (length list.items.items < 2 ^ 32) };
}

impl<T: Named> NamedList<T> {
    pub fn new(alloc: Global) -> NamedList<T>
        ensures { result ≡ [] }
    {
        NamedList {
            items: Vec::new(alloc),
            places: BTreeMap::new(alloc),
        }
    }

    pub fn len(&self) -> u32
        ensures { result ≡ length self.now }
    {
        self.items.len() as u32
    }

    pub fn items(&self) -> &[T]
        ensures { result.now ≡ self.now }
    {
        &self.items
    }

    /// The place of the item with this name, from 0.
    #[tactic(auto, using(crate::specs::Found::place_below))]
    pub fn find(&self, name: &Name) -> Option<u32>
        ensures is { result ≡ place_of T.name self.now name.now }
        ensures within { IfSome result (λ place. place < length self.now) }
    {
        self.places.get(name).copied()
    }

    fn item_at(&self, name: &Name) -> Option<&T>
        ensures { option_copied result ≡ option_and_then (slice_get self.now) (place_of T.name self.now name.now) }
    {
        let place = self.find(name)?;
        self.items.get(place as usize)
    }

    /// The item with this name.
    #[tactic(auto, using(crate::specs::Found::item_found))]
    pub fn get(&self, name: &Name) -> Option<&T>
        ensures { option_copied result ≡ find (λ item. is_called name.now (T.name item)) self.now }
    {
        self.item_at(name)
    }

    /// Whether an item has this name.
    #[tactic(auto, using(crate::specs::Found::some_place))]
    pub fn has(&self, name: &Name) -> bool
        ensures { result ≡ is_taken T.name self.now name.now }
    {
        self.find(name).is_some()
    }

    /// The place of the item with the same name.
    fn place_again(&self, item: &T) -> Option<u32>
        ensures { result ≡ place_again T.name self.now item.now }
    {
        self.find(&item.name()?)
    }
}

impl<T: Named + Drop> NamedList<T> {
    /// Appends an item with a new name, or with none, to fewer than `most` items. A name that is there already is reported
    /// before a list that is full.
    pub fn add(&mut self, item: T, most: u32) -> Result<(), NotAdded>
        ensures ok { OnOk result (self.new ≡ self.old ++ item ∷ []) }
        ensures new { OnOk result ((place_again T.name self.old item ≡ None) × (length self.old < most)) }
        ensures err { IfErr result (IsNotAdded (place_again T.name self.old item) (length self.old) most) }
        ensures left { OnErr result (self.new ≡ self.old) }
    {
        let place = self.len();
        if place >= most {
            return Err(match self.place_again(&item) {
                Some(place) => NotAdded::Again(place),
                None => NotAdded::Full,
            });
        }
        let Some(name) = item.name() else {
            self.items.push(item)?;
            return Ok(());
        };
        match self.places.entry(name)? {
            Entry::Occupied(entry) => Err(NotAdded::Again(*entry.get())),
            Entry::Vacant(entry) => {
                self.items.push(item)?;
                entry.insert(place);
                Ok(())
            }
        }
    }
}
