//! That Mic-1, with the microprogram that ships for it, interprets IJVM.
#![tactic(auto)]

mod interpreter;

pub use interpreter::{Mic1Interpreter, run_image1};
