//! The IJVM assembler's front: how a source text is read as a program.
#![tactic(auto)]

mod draft;
mod error;
mod laws;
mod parse;
mod resolve;
mod source;
mod whole;

pub use error::AsmError;
pub use ijvm_program::{CodeLine, Constant, Jump, Label, Operation, Program, Unit, size_of};
pub use laws::a_text_says_one_thing;
pub use parse::parse_source;
