//! The code of a Tiny program as bytes.
#![tactic(auto)]

mod block;
mod choice;
mod expr;
mod jump;
mod program;
mod vars;

pub use program::emit;
