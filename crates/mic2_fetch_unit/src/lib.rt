//! The fetch unit of Mic-2: it fetches instruction words ahead of the machine, and keeps their bytes in a queue.
#![tactic(auto)]

mod fetch_unit;
mod laws;
mod queue;
mod sampling;

pub use fetch_unit::FetchUnit;
pub use laws::{queue_law, standing_law};
pub use sampling::check_sample;
