//! That a clocked machine interprets IJVM: what a machine promises of each instruction, and what follows of its whole run.
#![tactic(auto)]

mod agreement;
pub mod interpreter;
mod laws;
mod readiness;
mod reset;
pub mod run;

pub use agreement::interpreters_agree;
pub use interpreter::Interpreter;
pub use laws::{counted_boundaries_are_passed, shipped_runs_end_as_defined, stalls_add_up};
pub use readiness::Readiness;
pub use reset::reset_board;
pub use run::{run_image, run_with, shipped_board};
