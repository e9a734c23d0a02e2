//! A direct-mapped cache between a machine and its bus. Each call returns what the bus would return, and the cache
//! counts which reads and fetches its lines serve.
#![tactic(auto)]

pub mod cached_bus;
pub mod counts;
mod laws;
mod lines;

pub use cached_bus::CachedBus;
pub use counts::CacheCounts;
pub use laws::counts_are_those_of_the_accesses;
