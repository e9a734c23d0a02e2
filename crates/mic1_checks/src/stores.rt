//! Two control stores.
use micro_word::Store;

/// Two control stores of Mic-1, each with the address of its boundaries. What is asked is whether `other` does what `store`
/// does.
#[derive(Clone, Copy)]
pub struct Stores<'a> {
    pub store: &'a Store,
    pub entry: u16,
    pub other: &'a Store,
    pub other_entry: u16,
}
