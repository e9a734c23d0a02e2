//! The commands that clock a board with any microprogram and print what it does, for any clocked machine.
#![tactic(auto)]

mod cache;
mod choice;
mod commands;
mod job;
mod laws;
mod microprogram;
mod preparing;
mod profile;
mod report;
mod run;
mod trace;

pub use cache::cache_program;
pub use commands::{cache_file, profile_file, run_own_file, trace_file};
pub use job::Job;
pub use laws::runs_are_clocked_from_reset;
pub use microprogram::{Microprogram, placed_microprogram, shipped_microprogram};
pub use preparing::{Prepared, prepare};
pub use profile::profile_program;
pub use run::run_program;
pub use trace::trace_program;
