//! The program that a Tiny text spells.
#![tactic(auto)]

mod error;
mod laws;
mod parser;

pub use error::TinyError;
pub use laws::{programs_are_named, texts_have_one_reading};
pub use parser::parse_tiny;
pub use tiny_names::TinyProgram;
pub use tiny_tree::{Block, Cond, Expr, Function, Items, Operator, Statement, Step, Term};
