//! Programs of the microassembly language MAL: what they are, how a text is read as one, and how one is printed.
#![tactic(auto)]

mod error;
mod laws;
mod parse;
mod print;
mod program;
mod resolve;
mod source;
mod statement;

pub use error::MalError;
pub use laws::{canonical_text_spells_its_program, reads_what_is_spelled};
pub use parse::parse_mal;
pub use print::{print_fallback, print_labelled, print_mal, print_placed, print_statement};
pub use program::MalProgram;
pub use statement::{MalNext, Statement};
