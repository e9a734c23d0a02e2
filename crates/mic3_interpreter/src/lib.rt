//! That Mic-3, with the microprogram that ships for Mic-2, interprets IJVM.
#![tactic(auto)]

mod interpreter;

pub use interpreter::{Mic3Interpreter, run_image3};
