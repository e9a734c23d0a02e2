//! Mic-3 with the microprogram that ships for Mic-2: the machine, its board over a verified image, and its runs.
#![tactic(auto)]

mod board;

pub use board::board3;
pub use mic3_datapath::Mic3;
pub use mic3_interpreter::{Mic3Interpreter, run_image3};
