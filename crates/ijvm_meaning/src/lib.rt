//! The definition of IJVM's run: frames, what each instruction does to them, what it costs, and how a run goes on and ends.
#![tactic(auto)]

pub mod laws;
pub mod run;

pub use laws::{runs_end_once, runs_keep_words};
pub use run::RunEnd;
