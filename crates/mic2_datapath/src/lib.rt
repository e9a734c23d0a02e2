//! Mic-2 as a clocked machine: control lines, two operand buses, latches and a fetch unit. Its cycle is one
//! microstep, which assigns whole words or stalls.
#![tactic(auto)]

mod accesses;
mod control;
mod cycle;
mod latches;
mod laws;
mod mic2;

pub use accesses::access;
pub use control::{Control, demand_law, flagged, mem_for, operate_for, shift_for};
pub use latches::{Latches, Operands, go, go_past, load, pc_after};
pub use laws::step_law;
pub use mic2::Mic2;
