//! Control stores of Mic-1 that were shown to interpret IJVM, and their runs of verified images.
#![tactic(auto)]

pub mod checked;
pub mod ready;

pub use checked::{Checked, Verdict, check, run_checked};
pub use mic1_checks::{
    Asked, Costs, Counts, Difference, Finding, Instruction, NotShown, Register, Shape,
};
pub use ready::InWords;
