//! That Mic-2, with the microprogram that ships for it, interprets IJVM.
#![tactic(auto)]

mod interpreter;
mod laws;

pub use interpreter::{Mic2Interpreter, run_image2};
pub use laws::{runs_stall_at_calls, stalls_law};
