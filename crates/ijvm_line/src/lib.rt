//! One line of an IJVM source: its grammar at the place where it stands, and the ranges of its numbers.
#![tactic(auto)]

mod content;
mod form;
mod instruction;
mod laws;
mod line;
mod mnemonic;
mod parameters;
mod place;
mod statement;

pub use content::Content;
pub use form::Form;
pub use instruction::{Instruction, access_instr, increment_instr};
pub use laws::{parameters_are_those_spelled, reads_what_is_spelled};
pub use line::{LineFault, line_from};
pub use mnemonic::{Access, Kind};
pub use parameters::parameters_of;
pub use place::{Mark, Place};
pub use statement::{Operand, Statement};
