//! Mic-1 as a clocked machine: control lines, buses, latches, and loads that arrive a cycle later. Its cycle is one
//! microstep, which assigns whole words.
#![tactic(auto)]

mod buses;
mod edge;
pub mod latches;
pub mod laws;
pub mod mic1;

pub use laws::step_law;
pub use mic1::Mic1;
