//! The counts of a cache.

/// How many reads and fetches of memory words were served from a line, and how many loaded their block first.
#[derive(Clone, Copy, Debug, PartialEq, Eq)]
pub struct CacheCounts {
    pub hits: u64,
    pub misses: u64,
}
