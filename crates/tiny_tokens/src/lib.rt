//! The tokens of a Tiny text, each with its line, and its names by their numbers.
#![tactic(auto)]

mod held;
mod reader;
mod whole;

pub use whole::{last_line, tokens};
