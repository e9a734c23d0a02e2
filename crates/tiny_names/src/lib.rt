//! The names of a Tiny program: the first that does not fit, or the program in which each is a position.
#![tactic(auto)]

mod expr;
mod fault;
mod functions;
mod places;
mod program;
mod scope;
mod tiny_program;

pub use fault::{Fault, Unresolved};
pub use program::resolve;
pub use tiny_program::TinyProgram;
