//! A plain machine that computes IJVM's run by its definition, over a console.
#![tactic(auto)]

mod compute;
mod cost;
mod frame;
pub mod frames;
mod laws;
mod machine;
pub mod plain;
mod port;

pub use frames::{Frames, StepEnd, StepError};
pub use laws::reached_boundaries_are_passed;
pub use plain::{PlainEnd, PlainReport, run_plain};
