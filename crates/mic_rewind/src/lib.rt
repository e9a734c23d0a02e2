//! A board that only goes forward, and a cursor that steps back over the last cycles and forward again, with registers,
//! counts and memory as they were.
#![tactic(auto)]

pub mod history;
pub mod kept_cycle;
mod laws;
mod memory;
pub mod moment;
pub mod rewind;

pub use history::History;
pub use kept_cycle::{KeptCycle, WrittenWord};
pub use laws::{going_back_restores, kept_states_are_of_the_run};
pub use moment::Moment;
pub use rewind::Rewind;
