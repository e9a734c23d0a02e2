//! The microprograms that ship for Mic-1 and Mic-2, their control stores, and the runs of verified images that they interpret.
#![tactic(auto)]

mod board;

pub use board::{board1, board2};
pub use ijvm_simulation::{Interpreter, run_image};
pub use mal_shipped::{Loaded, load_micro, shipped_program, shipped_text};
pub use mic1_interpreter::{Mic1Interpreter, run_image1};
pub use mic2_interpreter::{Mic2Interpreter, run_image2};
