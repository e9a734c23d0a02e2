//! Source programs of IJVM: constants, a main and methods, their lines of code, and where each line stands in the code of its unit.
#![tactic(auto)]

pub mod line;
pub mod program;
pub mod size;
pub mod unit;

pub use line::{CodeLine, Constant, Jump, Label, Operation};
pub use program::Program;
pub use size::size_of;
pub use unit::Unit;
