//! A board that is run to its end while a watcher sees each cycle that it clocks.
#![tactic(auto)]

pub mod cycle;
pub mod run;
pub mod watcher;

pub use cycle::{Cycle, cycle_of};
pub use run::run_watched;
pub use watcher::Watcher;
